//! The records of all objects, kept from start to start and changed in place.
#![tactic(auto)]

mod cell;
mod changes;
mod follow;
mod near;
mod ranks;
mod records;
#[cfg(test)]
mod tests;
mod turned;

pub use ev_region::NoMemory;
pub use ranks::Ranks;
pub use records::Records;
