//! Tests of the machine: worked examples and values computed by hand, for all layers from the instruction table to a
//! node. They say what no proof can: that the definitions mean what was meant.
//!
//! Most tests are stories (`story`): a node is given, and the whole of its image is compared after each event.
#![tactic(auto)]

#[cfg(test)]
mod alternatives;
#[cfg(test)]
mod arrival;
#[cfg(test)]
mod bench;
#[cfg(test)]
mod channels;
#[cfg(test)]
mod guards;
#[cfg(test)]
mod image;
#[cfg(test)]
mod images;
#[cfg(test)]
mod instructions;
#[cfg(test)]
mod isa;
#[cfg(test)]
mod links;
#[cfg(test)]
mod memory;
#[cfg(test)]
mod registers;
#[cfg(test)]
mod runs;
#[cfg(test)]
mod story;
#[cfg(test)]
mod twins;
