//! Rectangles as sets of pixels, and the one list of rectangles for each set.
#![tactic(auto)]

mod bands;
mod limits;
mod rect;
mod stretch;

pub use bands::{banded_list_is_scanned, one_banded_list};
pub use limits::{MAX_PLACE, is_place, is_side};
pub use rect::{Rect, meet_holds_both};

#[cfg(test)]
mod tests;
