// Rectangles of a tile.

/// A rectangle of a tile, in pixels from the tile's top left: the columns from `left` to before
/// `right`, and the rows from `top` to before `bottom`. All are from 0 to 64.
#[derive(Clone, Copy, Debug, PartialEq, Eq)]
pub struct Patch {
    pub left: u8,
    pub right: u8,
    pub top: u8,
    pub bottom: u8,
}
