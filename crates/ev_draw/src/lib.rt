//! Drawing: the commands of a tile, carried out on a plane.
#![tactic(auto)]

mod bare;
mod command;
mod image;
mod job;
mod place;
mod sheet;
mod solid;
mod span;
#[cfg(test)]
mod tests;
mod text;
#[cfg(test)]
mod tile_tests;

pub use job::{TileDone, TileJob, draw};
