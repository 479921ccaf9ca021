//! Bitmap fonts: the format EVF1, read, and rows of text.
#![tactic(auto)]

mod fault;
mod form;
mod glyph;
mod laws;
mod reading;
mod rows;
#[cfg(test)]
mod tests;
mod text;

pub use fault::BadFont;
pub use glyph::glyph_bit;
pub use laws::{one_font, read_again, reads_only_fonts};
pub use reading::decode_font;
pub use std::alloc::AllocError as NoMemory;
pub use text::{text_from, text_pixels, text_row, text_size};
