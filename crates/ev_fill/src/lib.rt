//! How an image fills an object: its samples, one at a time and row by row.
#![tactic(auto)]

mod axes;
mod form;
mod image;
mod part;
mod row;
mod run;
#[cfg(test)]
mod tests;

pub use axes::ShownRow;
pub use part::{pixel_row, sample, sample_row, shown_pixels, shown_row};
