//! Which pixels may look different in another scene: the damage between two lists of records.
#![tactic(auto)]

mod damage;
mod in_step;
mod laws;
mod marks;
mod places;
mod same;
#[cfg(test)]
mod tests;
mod turned;
mod unkept;

pub use damage::{between, between_marked};
pub use ev_region::NoMemory;
pub use in_step::united;
pub use laws::{equal_looks_pass, undamaged_pixels_stay};
pub use same::same_look;
