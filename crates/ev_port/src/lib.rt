//! The outside: where scripts, images and fonts come from, and where logs and frames go.
#![tactic(auto)]

mod calls;
mod file;
mod mem_screen;
mod mem_sink;
mod mem_source;
mod mem_store;
mod outside;
mod room;

pub use file::{Bytes, LARGEST_FILE, StoredFile};
pub use mem_screen::{MemScreen, ScreenRoom, ShownFrame};
pub use mem_sink::MemSink;
pub use mem_source::MemSource;
pub use mem_store::MemStore;
pub use outside::{Failed, Screen, Sink, Source, Store, StoreErr};
pub use room::append;
pub use std::alloc::AllocError as NoMemory;

#[cfg(test)]
mod tests;
