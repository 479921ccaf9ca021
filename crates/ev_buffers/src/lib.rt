//! Buffers: pictures that are drawn in turn, each with its stale region.
#![tactic(auto)]

mod buffers;
mod jobs;
mod loan;
mod mark;
mod plan;

pub use buffers::Buffers;
pub use loan::Loan;
pub use plan::Plan;
pub use std::alloc::AllocError as NoMemory;

#[cfg(test)]
mod tests;
