//! The siblings of every parent, and the order in which all objects are painted.
#![tactic(auto)]

mod groups;
mod listed;
mod walk;

pub use groups::Groups;
pub use std::alloc::AllocError as NoMemory;

#[cfg(test)]
mod tests;
