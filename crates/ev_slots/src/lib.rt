//! Things that go by ids, in places that are used again.
#![tactic(auto)]

mod near;
mod slots;
#[cfg(test)]
mod tests;

pub use slots::{MAX_IDS, Slots};
pub use std::alloc::AllocError as NoMemory;
