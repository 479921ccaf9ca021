//! What is painted on each tile of a frame: commands, topmost first, cut by what hides them.
#![tactic(auto)]

mod commands;
mod frame;
mod mask;
mod opaque;
mod opening;
mod part;
mod patch;
mod sheet;
mod table;
mod tile;

pub use commands::{Commands, tiles_paint_captures, what_misses_may_be_left_out};
pub use mask::{Mask, Run, next_run};
pub use opaque::opaque_area;
pub use patch::Patch;
pub use sheet::{Command, Sheet};
pub use std::alloc::AllocError as NoMemory;
pub use tile::TileCommands;
