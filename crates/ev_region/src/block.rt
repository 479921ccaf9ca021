// The bands of one rectangle, which take no memory.
ghost use Rattle.std.specs.Prelude.{◌≡◌, ◌<◌, ◌≤◌, [], length};
ghost use Rattle.ev_geom.specs.Area.{holds};
ghost use Rattle.ev_region.specs.Flat.{bands_of, IsFlat};
ghost use Rattle.ev_region.specs.Spans.{IsBox, IsClipped, IsSnapped};

use crate::bands::{Rest, Step};
use crate::clip::{Span, clipped, snapped};
use ev_geom::Rect;
use std::marker::Model;

/// The bands of one rectangle: one that begins at its top and has its two edges, and one without
/// edges below it. There are none where it has no pixels.
#[derive(Drop)]
pub(crate) struct Block {
    steps: [Step; 2],
    edges: [u32; 2],
    count: usize,
}

impl Model for Block {
    ghost use Rattle.std.specs.Prelude.{List, take};
    ghost use Rattle.ev_geom.specs.Bands.{Band};
    ghost use Rattle.ev_region.specs.Flat.{bands_of, IsFlatBlock};

    ghost Value = { List Band };

    ghost view = { λ block. bands_of 0 (take block.count block.steps) block.edges };

    ghost invariant = { λ block. IsFlatBlock block.steps block.count };
}

impl Block {
    /// The bands of the rectangle's pixels that have x and y from 0 to 999,999.
    pub(crate) fn of(rect: &Rect) -> Block
        ensures { IsClipped rect.now result }
    {
        Block::between(clipped(rect.x(), rect.w()), clipped(rect.y(), rect.h()))
    }

    /// The bands of the pixels of a canvas of `w` by `h` that share a cell with the rectangle.
    pub(crate) fn snapped(rect: &Rect, cell: u32, w: u32, h: u32) -> Block
        requires some { 1 ≤ cell }
        requires small { cell ≤ 64 }
        requires width { w ≤ 4096 }
        requires height { h ≤ 4096 }
        ensures { IsSnapped cell w h (holds rect.now) result }
    {
        let across = clipped(rect.x(), rect.w());
        let down = clipped(rect.y(), rect.h());
        Block::between(snapped(across, cell, w), snapped(down, cell, h))
    }

    /// The bands, to be read from the top.
    pub(crate) fn rest(&self) -> Rest<'_>
        ensures row { result.row.now ≡ [] }
        ensures bands { bands_of result.start result.steps.now result.edges.now ≡ self.now }
        ensures flat { IsFlat (length result.edges.now) result.start result.steps.now }
    {
        Rest {
            row: &[],
            start: 0,
            steps: &self.steps[..self.count],
            edges: &self.edges,
        }
    }

    /// The bands of the pixels in these columns and rows.
    fn between(across: Span, down: Span) -> Block
        requires right { across.to ≤ 1000000 }
        requires bottom { down.to ≤ 1000000 }
        ensures { IsBox across.from across.to down.from down.to result }
    {
        let has_pixels = across.from < across.to && down.from < down.to;
        let top = Step {
            top: down.from,
            end: 2,
        };
        let bottom = Step {
            top: down.to,
            end: 2,
        };
        Block {
            steps: [top, bottom],
            edges: [across.from, across.to],
            count: if has_pixels { 2 } else { 0 },
        }
    }
}
