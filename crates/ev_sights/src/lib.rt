//! What is seen of each object of a scene, with all that lies over it.
#![tactic(auto)]

mod ground;
mod sights;
#[cfg(test)]
mod tests;

pub use sights::records;
pub use std::alloc::AllocError as NoMemory;
