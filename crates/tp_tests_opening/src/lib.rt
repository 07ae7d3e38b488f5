//! Tests of what is stored: topology texts, entries and groups as bytes, books of devices; and devices in memory that are formatted,
//! written and opened. And of turns on whole networks in memory, in one thread: that they take and close as many as they may, and that snapshots come
//! to their end. They are worked examples and values computed by hand. They say what no proof can: that the definitions mean
//! what was meant.
#![tactic(auto)]

#[cfg(test)]
mod apart;
#[cfg(test)]
mod appendable;
#[cfg(test)]
mod calls;
#[cfg(test)]
mod checkpoints;
#[cfg(test)]
mod copies;
#[cfg(test)]
mod crowd;
#[cfg(test)]
mod deeds;
#[cfg(test)]
mod devices;
#[cfg(test)]
mod drawn;
#[cfg(test)]
mod entries;
#[cfg(test)]
mod faults;
#[cfg(test)]
mod filled_areas;
#[cfg(test)]
mod format_faults;
#[cfg(test)]
mod forms;
#[cfg(test)]
mod groups;
#[cfg(test)]
mod heads;
#[cfg(test)]
mod kept;
#[cfg(test)]
mod letters;
#[cfg(test)]
mod machines;
#[cfg(test)]
mod network;
#[cfg(test)]
mod numbers;
#[cfg(test)]
mod opened_books;
pub mod possible;
#[cfg(test)]
mod replayed;
#[cfg(test)]
mod reserve;
#[cfg(test)]
mod snapshots;
#[cfg(test)]
mod stories;
#[cfg(test)]
mod sweeps;
#[cfg(test)]
mod tokens;
#[cfg(test)]
mod topologies;
#[cfg(test)]
mod topology_faults;
#[cfg(test)]
mod turn_stories;
#[cfg(test)]
mod two_nodes;
#[cfg(test)]
mod whole_turns;
#[cfg(test)]
mod wide;
