//! Areas of a canvas by their edges, packed into a word each, and which of them meet a rectangle.
#![tactic(auto)]

mod edges;
mod packed;
mod scan;

pub use edges::{Edges, around};
pub use packed::{PackedArea, common_pixels_meet, what_meets_has_a_common_pixel};
pub use scan::push_meeting;
pub use std::alloc::AllocError as NoMemory;

#[cfg(test)]
mod tests;
