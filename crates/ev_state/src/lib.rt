//! Shared states that are copied on write, and a tally of the states made.
#![tactic(auto)]

mod shared;
mod tally;
#[cfg(test)]
mod tests;

pub use shared::{Copied, Shared};
pub use std::alloc::AllocError as NoMemory;
pub use tally::Tally;
