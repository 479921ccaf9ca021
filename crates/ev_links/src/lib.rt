//! The clippers and parents of objects, and the way up from each of them.
#![tactic(auto)]

mod edits;
mod links;
mod refusal;
mod table;

pub use links::Links;
pub use refusal::LinkErr;
pub use std::alloc::AllocError as NoMemory;

#[cfg(test)]
mod tests;
