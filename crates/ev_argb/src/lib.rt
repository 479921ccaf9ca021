//! Premultiplied pixels, their arithmetic, planes of at most 64 by 64 pixels, and pictures made of planes.
#![tactic(auto)]

mod picture;
mod pixel;
mod plane;
mod rect;
mod span;
#[cfg(test)]
mod tests;

pub use picture::{MAX_SIDE, Picture};
pub use pixel::{Pixel, mul, over, tint};
pub use plane::{PLANE_SIDE, Plane};
pub use span::are_opaque;
pub use std::alloc::AllocError as NoMemory;
