//! The order of the objects of one parent, in layers.
#![tactic(auto)]

mod chain;
mod layers;
mod siblings;
mod stack;

pub use siblings::{Siblings, StackErr};
pub use std::alloc::AllocError as NoMemory;

#[cfg(test)]
mod tests;
