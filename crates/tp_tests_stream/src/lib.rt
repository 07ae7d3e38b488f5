//! Runs and streams over devices in memory, as the program makes them, with devices, outputs, sinks and sources that fail; and commands on a device
//! that another process writes meanwhile.
#![tactic(auto)]

#[cfg(test)]
mod asked;
#[cfg(test)]
mod backups;
#[cfg(test)]
mod changing;
#[cfg(test)]
mod checkpoints;
#[cfg(test)]
mod devices;
#[cfg(test)]
mod endings;
#[cfg(test)]
mod ends;
#[cfg(test)]
mod ends_told;
#[cfg(test)]
mod faults;
#[cfg(test)]
mod feeds;
#[cfg(test)]
mod files;
#[cfg(test)]
mod frames;
#[cfg(test)]
mod full;
#[cfg(test)]
mod growth;
#[cfg(test)]
mod names;
#[cfg(test)]
mod opened;
#[cfg(test)]
mod outputs;
#[cfg(test)]
mod players;
#[cfg(test)]
mod rings;
#[cfg(test)]
mod rows;
#[cfg(test)]
mod run_faults;
#[cfg(test)]
mod run_rows;
#[cfg(test)]
mod runs;
#[cfg(test)]
mod said;
#[cfg(test)]
mod shifts;
#[cfg(test)]
mod steady;
#[cfg(test)]
mod steps;
#[cfg(test)]
mod told;
#[cfg(test)]
mod waiting;
