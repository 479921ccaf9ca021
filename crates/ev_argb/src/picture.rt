// A picture as a grid of planes, which may be taken out one by one.
ghost use Rattle.std.specs.Prelude.{◌≡◌, ℕ, ◌+◌, ◌*◌, ◌/◌, ◌%◌, ◌<◌, ◌≤◌, ◌↔◌, IsTrue, length, Some, None, IfOk, MatchOption};
ghost use Rattle.ev_argb.specs.Grid.{IsPicture, IsWhole, FitsPlace, across, side_of, tile_of, plane_of, with_plane, pixel_at, row_of, with_pixel, SetsPixel, painted_in, painted_of, blank_grid};
ghost use Rattle.ev_argb.specs.Argb.{clear};
ghost use Rattle.ev_argb.specs.Tile.{Tile};

use crate::{NoMemory, PLANE_SIDE, Pixel, Plane};
use std::alloc::Global;
use std::marker::Model;

/// The longest side of a picture, in pixels.
pub const MAX_SIDE: u32 = 4096;

/// A picture of at most 4096 by 4096 pixels. It is kept as planes, the squares of 64 by 64 pixels
/// from its top left, which its right and lower edges cut. They are counted from left to right and
/// then downwards, and can be taken out one by one (docs/ARCHITECTURE.md, Tiles).
#[derive(Drop)]
pub struct Picture {
    width: u32,
    height: u32,
    planes: Vec<Option<Plane>>,
}

impl Model for Picture {
    ghost use Rattle.ev_argb.specs.Grid.{Grid, IsPicture};

    ghost Value = { Grid };

    ghost view = { λ p. record { w = p.width; h = p.height; tiles = p.planes.items } };

    ghost invariant = { λ p. IsPicture (record { w = p.width; h = p.height; tiles = p.planes.items }) };
}

impl Picture {
    /// A picture of w by h clear pixels, from 1 to 4096 each way, all of which count as painted.
    /// NoMemory where there is no room for its planes.
    pub fn new(alloc: Global, w: u32, h: u32) -> Result<Picture, NoMemory>
        requires width_low { 1 ≤ w }
        requires width_high { w ≤ 4096 }
        requires height_low { 1 ≤ h }
        requires height_high { h ≤ 4096 }
        ensures value { IfOk result (λ picture. picture ≡ blank_grid w h) }
        ensures whole { IfOk result IsWhole }
        ensures clear { IfOk result (λ picture. (x y : ℕ) → pixel_at picture x y ≡ clear) }
        ensures painted { IfOk result (λ picture. painted_of picture ≡ w * h) }
    {
        let columns = across(w);
        let mut planes = Vec::new(alloc);
        for tile in 0..across(h) * columns {
            let plane = Plane::new(alloc, side(w, tile % columns), side(h, tile / columns))?;
            planes.push(Some(plane))?;
        }
        Ok(Picture {
            width: w,
            height: h,
            planes,
        })
    }

    /// How many columns the picture has.
    pub fn width(&self) -> u32
        ensures width { result ≡ self.now.w }
        ensures picture { IsPicture self.now }
    {
        self.width
    }

    /// How many rows the picture has.
    pub fn height(&self) -> u32
        ensures height { result ≡ self.now.h }
        ensures picture { IsPicture self.now }
    {
        self.height
    }

    /// Whether no plane is out, so that its pixels can be read and set.
    pub fn is_whole(&self) -> bool
        ensures { IsTrue result ↔ IsWhole self.now }
    {
        self.planes.iter().all(|plane| plane.is_some())
    }

    /// Takes a plane out, and leaves its place empty. None exactly where it is out already.
    pub fn take_plane(&mut self, tile: u32) -> Option<Plane>
        requires { tile < length self.old.tiles }
        ensures plane { result ≡ plane_of self.old tile }
        ensures size { FitsPlace self.old.w self.old.h tile result }
        ensures left { self.new ≡ with_plane self.old tile None }
        ensures painted { painted_of self.old ≡ painted_of self.new + painted_in result }
    {
        self.planes[tile as usize].take()
    }

    /// Puts a plane into a place that is empty. The plane has the size of its place.
    pub fn put_plane(&mut self, tile: u32, plane: Plane)
        requires place { tile < length self.old.tiles }
        requires out { plane_of self.old tile ≡ None }
        requires size { FitsPlace self.old.w self.old.h tile (Some plane) }
        ensures back { self.new ≡ with_plane self.old tile (Some plane) }
        ensures painted { painted_of self.new ≡ painted_of self.old + plane.painted }
    {
        self.planes[tile as usize] = Some(plane);
    }

    /// The pixel in column x of row y, of a picture from which no plane is out.
    pub fn get(&self, x: u32, y: u32) -> Pixel
        requires whole { IsWhole self.now }
        requires column { x < self.now.w }
        requires row { y < self.now.h }
        ensures { result ≡ pixel_at self.now x y }
    {
        let tile = y / PLANE_SIDE * across(self.width) + x / PLANE_SIDE;
        self.plane(tile).get(x % PLANE_SIDE, y % PLANE_SIDE)
    }

    /// Replaces the pixel in column x of row y, in a picture from which no plane is out. It counts
    /// as painted, unless its plane's count stands at its end, 2^64 - 1.
    pub fn set(&mut self, x: u32, y: u32, p: Pixel)
        requires whole { IsWhole self.old }
        requires column { x < self.old.w }
        requires row { y < self.old.h }
        ensures value { self.new ≡ with_pixel self.old x y p }
        ensures whole { IsWhole self.new }
        ensures pixels { SetsPixel self.old self.new x y p }
    {
        let tile = y / PLANE_SIDE * across(self.width) + x / PLANE_SIDE;
        if let Some(mut plane) = self.take_plane(tile) {
            plane.set(x % PLANE_SIDE, y % PLANE_SIDE, p);
            self.put_plane(tile, plane);
        }
    }

    /// Copies the pixels of row y into a slice as long as the picture is wide. No plane is out.
    pub fn row(&self, y: u32, into: &mut [Pixel])
        requires whole { IsWhole self.now }
        requires row { y < self.now.h }
        requires length { length into.old ≡ self.now.w }
        ensures { into.new ≡ row_of self.now y }
    {
        let columns = across(self.width);
        let above = y / PLANE_SIDE * columns;
        for column in 0..columns {
            let plane = self.plane(above + column);
            let from = plane.row(y % PLANE_SIDE);
            let start = column as usize * PLANE_SIDE as usize;
            into[start..start + from.len()].copy_from_slice(from);
        }
    }

    // A plane that is at home.
    fn plane(&self, tile: u32) -> &Plane
        requires whole { IsWhole self.now }
        requires place { tile < length self.now.tiles }
        ensures plane { plane_of self.now tile ≡ Some result.now }
        ensures size { FitsPlace self.now.w self.now.h tile (Some result.now) }
    {
        match &self.planes[tile as usize] {
            Some(plane) => plane,
            None => unreachable!(),
        }
    }
}

// How many planes stand side by side along this length.
fn across(len: u32) -> u32
    requires { len ≤ 4096 }
    ensures { result ≡ across len }
{
    len.div_ceil(PLANE_SIDE)
}

// How long the k-th of them is.
fn side(len: u32, k: u32) -> u32
    requires short { len ≤ 4096 }
    requires place { k < across len }
    ensures side { result ≡ side_of len k }
    ensures low { 1 ≤ result }
    ensures high { result ≤ 64 }
{
    PLANE_SIDE.min(len - k * PLANE_SIDE)
}
