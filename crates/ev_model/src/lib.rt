//! What a scene is and what it looks like: names, objects, scenes, commands and replies as values,
//! the definitions of samples, records and painting, and a plain full redraw.
#![tactic(auto)]

mod axis;
mod command;
mod content;
mod font;
mod image;
mod loaded;
mod name;
mod object;
mod redraw;
mod refusal;
mod reply;
mod sample;
mod scene;
#[cfg(test)]
mod tests;
mod words;

pub use axis::Axis;
pub use command::{Command, Edit};
pub use content::{Border, Content, Fill, ImagePart, Kind, TextPart};
pub use font::Font;
pub use image::Image;
pub use loaded::{LoadedFont, LoadedImage};
pub use name::Name;
pub use object::{Object, Op};
pub use redraw::full_redraw;
pub use refusal::{BadLine, FontFault, ImageFault, LoadFault, Refusal};
pub use reply::Reply;
pub use scene::{Objects, Record, Scene};
pub use std::alloc::AllocError as NoMemory;
pub use words::Words;
