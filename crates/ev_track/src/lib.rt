//! Things by their ids, and what they were before they were changed.
#![tactic(auto)]

mod marks;
mod settle;
#[cfg(test)]
mod tests;
mod tracked;

pub use ev_slots::NoMemory;
pub use marks::Marks;
pub use tracked::Tracked;
