// What the next frame has to draw.
ghost use Rattle.std.specs.Prelude.{◌≡◌};

use crate::mark::Mark;
use ev_region::Region;
use std::marker::Model;

/// What the next frame has to draw, and the marks and tiles of its lending, so that lending takes no
/// memory (docs/ARCHITECTURE.md, Buffers).
#[derive(Drop)]
pub struct Plan {
    pub(crate) work: Region,
    pub(crate) marks: Vec<Mark>,
    pub(crate) tiles: Vec<u32>,
}

impl Model for Plan {
    ghost use Rattle.ev_buffers.specs.BufferChain.{Draft};

    ghost Value = { Draft };

    ghost view = { λ p. record { work = p.work; marks = p.marks.items; tiles = p.tiles.items } };
}

impl Plan {
    /// The work region: the pixels that the frame has to draw.
    pub fn work(&self) -> &Region
        ensures { result.now ≡ self.now.work }
    {
        &self.work
    }
}
