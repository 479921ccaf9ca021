//! Loads of images and fonts: what is asked for, and how it ends.
#![tactic(auto)]

mod end;
mod fault;
mod job;
mod preload;
mod preloads;
mod serving;
#[cfg(test)]
mod tests;

pub use end::LoadEnd;
pub use fault::fault_of;
pub use job::LoadJob;
pub use preloads::{MAX_RUNNING, Preloads};
pub use serving::load_one;
pub use std::alloc::AllocError as NoMemory;
