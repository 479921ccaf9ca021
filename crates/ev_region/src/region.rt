// Regions: sets of pixels, of which clauses see the banded list of rectangles.
ghost use Rattle.std.specs.Prelude.{◌≡◌, ◌≤◌, [], ◌||◌, ◌&&◌, not, IfOk, OnOk, OnErr, sum_by};
ghost use Rattle.ev_geom.specs.Area.{holds, size_of};
ghost use Rattle.ev_geom.specs.Bands.{has_pixel, IsBanded, IsBandsOf, FitsRegion};
ghost use Rattle.ev_geom.specs.Snap.{IsSnapOf};
ghost use Rattle.ev_region.specs.Combine.{keeps};
ghost use Rattle.ev_region.specs.Combined.{Combines};
ghost use Rattle.ev_region.specs.Count.{pixels_within};

use crate::NoMemory;
use crate::bands::Bands;
use crate::block::Block;
use crate::combine::Combine;
use crate::list::{list_rects, total_area};
use crate::row::is_inside;
use crate::snap::{Cells, snap_rects};
use ev_geom::Rect;
use std::alloc::Global;
use std::marker::Model;
use std::mem::swap;

/// A set of pixels with x and y from 0 to 999,999, kept as its bands and their rectangles. The room
/// of both is kept twice: an operation writes into the one, reads from the other, and exchanges them
/// at its end (docs/CANVAS.md, Frames).
#[derive(Drop)]
pub struct Region {
    bands: Bands,
    rects: Vec<Rect>,
    spare_bands: Bands,
    spare_rects: Vec<Rect>,
}

impl Model for Region {
    ghost use Rattle.std.specs.Prelude.{List};
    ghost use Rattle.ev_geom.specs.Area.{Area};
    ghost use Rattle.ev_region.specs.Combined.{IsRegion};

    ghost Value = { List Area };

    ghost view = { λ region. region.rects.items };

    ghost invariant = { λ region. IsRegion region.bands region.rects.items };
}

impl Region {
    /// The region without pixels. It takes no memory yet.
    pub fn new(alloc: Global) -> Region
        ensures { result ≡ [] }
    {
        Region {
            bands: Bands::new(alloc),
            rects: Vec::new(alloc),
            spare_bands: Bands::new(alloc),
            spare_rects: Vec::new(alloc),
        }
    }

    /// The region's banded list: rectangles from top to bottom, and in a band from left to right.
    /// Rows one under the other with equal runs are one band (docs/CANVAS.md, Frames).
    pub fn rects(&self) -> &[Rect]
        ensures list { result.now ≡ self.now }
        ensures banded { IsBanded self.now }
    {
        &self.rects
    }

    /// The same region again, or NoMemory.
    pub fn copied(&self) -> Result<Region, NoMemory>
        ensures { IfOk result (λ region. region ≡ self.now) }
    {
        let alloc = *self.rects.allocator();
        let bands = self.bands.copied()?;
        let rects = Vec::from_slice(alloc, &self.rects)?;
        Ok(Region {
            bands,
            rects,
            spare_bands: Bands::new(alloc),
            spare_rects: Vec::new(alloc),
        })
    }

    /// How many pixels the region has.
    pub fn area(&self) -> u64
        ensures sizes { result ≡ sum_by size_of self.now }
        ensures pixels { result ≡ pixels_within 1000000 1000000 (has_pixel self.now) }
    {
        total_area(&self.rects)
    }

    /// Whether the region has the pixel in column x of row y.
    pub fn has(&self, x: i32, y: i32) -> bool
        ensures { result ≡ has_pixel self.now x y }
    {
        let bands = &self.bands;
        if x < 0 || y < 0 {
            return false;
        }
        is_inside(bands.row_at(y as u32), x as u32)
    }

    /// Adds the pixels of the rectangle, which is empty or has all its pixels from 0 to 999,999 each
    /// way. NoMemory where there is no room, and the region is then as it was.
    pub fn add_rect(&mut self, rect: &Rect) -> Result<(), NoMemory>
        requires { FitsRegion rect.now }
        ensures ok { OnOk result (IsBandsOf (λ x y. has_pixel self.old x y || holds rect.now x y) self.new) }
        ensures err { OnErr result (self.new ≡ self.old) }
    {
        self.combine_rect(rect, Combine::Union)
    }

    /// Takes the pixels of the rectangle away. NoMemory where there is no room, and the region is
    /// then as it was.
    pub fn cut_rect(&mut self, rect: &Rect) -> Result<(), NoMemory>
        ensures ok { OnOk result (IsBandsOf (λ x y. has_pixel self.old x y && not (holds rect.now x y)) self.new) }
        ensures err { OnErr result (self.new ≡ self.old) }
    {
        self.combine_rect(rect, Combine::Difference)
    }

    /// Keeps only the pixels of the rectangle. NoMemory where there is no room, and the region is
    /// then as it was.
    pub fn meet_rect(&mut self, rect: &Rect) -> Result<(), NoMemory>
        ensures ok { OnOk result (IsBandsOf (λ x y. has_pixel self.old x y && holds rect.now x y) self.new) }
        ensures err { OnErr result (self.new ≡ self.old) }
    {
        self.combine_rect(rect, Combine::Intersection)
    }

    /// Adds the pixels of the other region. NoMemory where there is no room, and the region is then
    /// as it was.
    pub fn unite(&mut self, other: &Region) -> Result<(), NoMemory>
        ensures ok { OnOk result (IsBandsOf (λ x y. has_pixel self.old x y || has_pixel other.now x y) self.new) }
        ensures err { OnErr result (self.new ≡ self.old) }
    {
        self.combine_region(other, Combine::Union)
    }

    /// Takes the pixels of the other region away. NoMemory where there is no room, and the region is
    /// then as it was.
    pub fn cut(&mut self, other: &Region) -> Result<(), NoMemory>
        ensures ok { OnOk result (IsBandsOf (λ x y. has_pixel self.old x y && not (has_pixel other.now x y)) self.new) }
        ensures err { OnErr result (self.new ≡ self.old) }
    {
        self.combine_region(other, Combine::Difference)
    }

    /// The pixels of a canvas of `w` by `h` that share a cell with a pixel of the region. Cells are
    /// the squares of this size from 0, 0. NoMemory where there is no room (docs/CANVAS.md, Frames).
    pub fn snap(&self, cell: u32, w: u32, h: u32) -> Result<Region, NoMemory>
        requires some { 1 ≤ cell }
        requires small { cell ≤ 64 }
        requires width { w ≤ 4096 }
        requires height { h ≤ 4096 }
        ensures { IfOk result (λ region. IsSnapOf cell w h (has_pixel self.now) region) }
    {
        let alloc = *self.rects.allocator();
        let bands = snap_rects(alloc, &self.rects, Cells { size: cell, w, h })?;
        let mut rects = Vec::new(alloc);
        list_rects(&mut rects, bands.rest())?;
        Ok(Region {
            bands,
            rects,
            spare_bands: Bands::new(alloc),
            spare_rects: Vec::new(alloc),
        })
    }

    // The pixels that are kept, by whether they are in the region and in the rectangle.
    fn combine_rect(&mut self, rect: &Rect, how: Combine) -> Result<(), NoMemory>
        ensures was { IsBanded self.old }
        ensures ok { OnOk result (Combines (keeps how) (has_pixel self.old) (holds rect.now) self.new) }
        ensures err { OnErr result (self.new ≡ self.old) }
    {
        let block = Block::of(rect);
        self.spare_bands
            .merge(self.bands.rest(), block.rest(), how)?;
        list_rects(&mut self.spare_rects, self.spare_bands.rest())?;
        swap(&mut self.bands, &mut self.spare_bands);
        swap(&mut self.rects, &mut self.spare_rects);
        Ok(())
    }

    // The pixels that are kept, by whether they are in each of two regions.
    fn combine_region(&mut self, other: &Region, how: Combine) -> Result<(), NoMemory>
        ensures was { IsBanded self.old }
        ensures also { IsBanded other.now }
        ensures ok { OnOk result (Combines (keeps how) (has_pixel self.old) (has_pixel other.now) self.new) }
        ensures err { OnErr result (self.new ≡ self.old) }
    {
        self.spare_bands
            .merge(self.bands.rest(), other.bands.rest(), how)?;
        list_rects(&mut self.spare_rects, self.spare_bands.rest())?;
        swap(&mut self.bands, &mut self.spare_bands);
        swap(&mut self.rects, &mut self.spare_rects);
        Ok(())
    }
}
