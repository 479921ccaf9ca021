//! What is seen of objects, kept from start to start.
#![tactic(auto)]

mod laws;
mod looks;
mod refresh;
mod walk;

pub use ev_records::NoMemory;
pub use laws::unreached_looks_stay;
pub use looks::Looks;
