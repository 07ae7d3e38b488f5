//! Networks in threads, of devices that opened: calls that run out of memory and are made again, and those of a worker and a host; threads that a gate
//! holds at a point of a turn, beside others that go on; and scripts, act by act in one thread, over devices that are stopped or fail at each of their
//! calls.
#![tactic(auto)]

#[cfg(test)]
mod acts;
#[cfg(test)]
mod alone;
#[cfg(test)]
mod beside;
#[cfg(test)]
mod checkpoints;
#[cfg(test)]
mod desk;
#[cfg(test)]
mod flushing;
#[cfg(test)]
mod fresh;
#[cfg(test)]
mod hold;
#[cfg(test)]
mod hosts;
#[cfg(test)]
mod journals;
#[cfg(test)]
mod left;
#[cfg(test)]
mod limits;
#[cfg(test)]
mod many;
#[cfg(test)]
mod meanwhile;
#[cfg(test)]
mod opening;
#[cfg(test)]
mod overlap;
#[cfg(test)]
mod pace;
#[cfg(test)]
mod plain;
#[cfg(test)]
mod playing;
#[cfg(test)]
mod remains;
#[cfg(test)]
mod scenes;
#[cfg(test)]
mod small;
#[cfg(test)]
mod stops;
#[cfg(test)]
mod stories;
#[cfg(test)]
mod team;
#[cfg(test)]
mod teams;
#[cfg(test)]
mod tears;
#[cfg(test)]
mod trimmed;
#[cfg(test)]
mod turns;
#[cfg(test)]
mod unkind;
#[cfg(test)]
mod worked;
#[cfg(test)]
mod worked_stories;
