//! The scene: objects by name and by id, the edits that change them, and scenes as they are captured.
#![tactic(auto)]

mod capture;
mod cast;
mod change;
mod delete;
mod edit;
mod image_change;
mod label;
mod laws;
mod linking;
mod loads;
mod roll;
mod scene_box;
mod shift;
mod sound;
mod stacking;
#[cfg(test)]
mod tests;
mod text_change;

pub use capture::Captured;
pub use edit::MAX_OBJECTS;
pub use laws::{edits_bring_no_loads, fonts_come_alone, images_come_alone, stages_bring_no_loads};
pub use scene_box::SceneBox;
pub use std::alloc::AllocError as NoMemory;
