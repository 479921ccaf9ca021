//! The outside over the system: standard input and output, and the files of folders. What stands here
//! tells no content, since no contract can say what a file or a stream holds.
#![tactic(auto)]

mod folder_screen;
mod folder_store;
mod frame_bytes;
mod no_screen;
mod streams;

pub use folder_screen::FolderScreen;
pub use folder_store::FolderStore;
pub use no_screen::NoScreen;
pub use std::alloc::AllocError as NoMemory;
pub use streams::{InSource, OutSink};

#[cfg(test)]
mod tests;
