//! Stored images: the formats EVI1 and EVI2, read and written.
#![tactic(auto)]

mod fault;
mod format;
mod laws;
mod pixels;
mod reading;
#[cfg(test)]
mod tests;
mod writing;

pub use fault::BadImage;
pub use format::Format;
pub use laws::{one_image, read_again, reads_only_images};
pub use pixels::channels;
pub use reading::decode;
pub use std::alloc::AllocError as NoMemory;
pub use writing::{encode, encode2};
