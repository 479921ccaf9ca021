// A plane holds its pixels in one vector. Clauses see its size, its pixels and its count.
ghost use Rattle.std.specs.Prelude.{◌≡◌, ℕ, ◌≤◌, ◌<◌, ◌+◌, ◌*◌, ◌^◌, length, get_or, slice_range, IfOk};
ghost use Rattle.std.specs.Simd.Lanes.{zip2};
ghost use Rattle.ev_argb.specs.Argb as argb;
ghost use Rattle.ev_argb.specs.Tile.{IsTile, blank, place, tile_at, painted_on, with_pixel_in, made, PaintsSpan, PaintsRect};

use crate::rect::{Way, put_rect};
use crate::span::blend;
use crate::{NoMemory, Pixel};
use std::alloc::Global;
use std::marker::Model;

/// The longest side of a plane, in pixels.
pub const PLANE_SIDE: u32 = 64;

/// One tile of a picture: at most 64 by 64 pixels, row by row from the top, and a count of the
/// pixels that were painted on them (docs/ARCHITECTURE.md, Tiles).
#[derive(Drop)]
pub struct Plane {
    width: u32,
    height: u32,
    pixels: Vec<Pixel>,
    painted: u64,
}

impl Model for Plane {
    ghost use Rattle.ev_argb.specs.Tile.{Tile, IsTile};

    ghost Value = { Tile };

    ghost view = { λ p. record { w = p.width; h = p.height; pixels = p.pixels.items; painted = p.painted } };

    ghost invariant = { λ p. IsTile (record { w = p.width; h = p.height; pixels = p.pixels.items; painted = p.painted }) };
}

impl Plane {
    /// A plane of w by h clear pixels, from 1 to 64 each way, all of which count as painted.
    /// NoMemory where there is no room for the pixels.
    pub fn new(alloc: Global, w: u32, h: u32) -> Result<Plane, NoMemory>
        requires width_low { 1 ≤ w }
        requires width_high { w ≤ 64 }
        requires height_low { 1 ≤ h }
        requires height_high { h ≤ 64 }
        ensures { IfOk result (λ plane. plane ≡ blank w h) }
    {
        let pixels = vec![in alloc; Pixel::CLEAR; h as usize * w as usize]?;
        let painted = u64::from(h) * u64::from(w);
        Ok(Plane {
            width: w,
            height: h,
            pixels,
            painted,
        })
    }

    /// Replaces the pixels from column x of row y on by these. The span lies in the plane. Each
    /// pixel of it counts as painted.
    pub fn copy_span(&mut self, x: u32, y: u32, from: &[Pixel])
        requires columns { x + length from.now ≤ self.old.w }
        requires row { y < self.old.h }
        requires count { self.old.painted + length from.now < 2 ^ 64 }
        ensures value { self.new ≡ painted_on self.old (place self.old x y) from.now }
        ensures pixels { PaintsSpan self.old self.new x y (length from.now) (λ i. get_or from.now i argb.clear) }
    {
        let at = y as usize * self.width as usize + x as usize;
        self.pixels[at..at + from.len()].copy_from_slice(from);
        self.painted += from.len() as u64;
    }

    /// Paints these pixels over those from column x of row y on, by `over`. The span lies in the
    /// plane. Each pixel of it counts as painted.
    pub fn blend_span(&mut self, x: u32, y: u32, from: &[Pixel])
        requires columns { x + length from.now ≤ self.old.w }
        requires row { y < self.old.h }
        requires count { self.old.painted + length from.now < 2 ^ 64 }
        ensures value { let at = place self.old x y in
            self.new ≡ painted_on self.old at (zip2 argb.over from.now (slice_range self.old.pixels at (at + length from.now))) }
        ensures pixels { PaintsSpan self.old self.new x y (length from.now) (λ i. argb.over (get_or from.now i argb.clear) (tile_at self.old (x + i) y)) }
    {
        let at = y as usize * self.width as usize + x as usize;
        let len = from.len();
        blend(&mut self.pixels[at..at + len], from);
        self.painted += len as u64;
    }

    /// Replaces each pixel of a rectangle by one: of w columns from column x on, and h rows from row y
    /// on. The rectangle lies in the plane. Each pixel of it counts as painted.
    pub fn fill_rect(&mut self, x: u32, y: u32, w: u32, h: u32, pixel: Pixel)
        requires columns { x + w ≤ self.old.w }
        requires rows { y + h ≤ self.old.h }
        requires count { self.old.painted + w * h < 2 ^ 64 }
        ensures { PaintsRect self.old self.new x y w h (λ under. pixel) }
    {
        self.put_rect(Way::Fill, pixel, x, y, w, h);
    }

    /// Paints one pixel over each of a rectangle, by `over`: of w columns from column x on, and h rows
    /// from row y on. The rectangle lies in the plane. Each pixel of it counts as painted.
    pub fn blend_rect(&mut self, x: u32, y: u32, w: u32, h: u32, pixel: Pixel)
        requires columns { x + w ≤ self.old.w }
        requires rows { y + h ≤ self.old.h }
        requires count { self.old.painted + w * h < 2 ^ 64 }
        ensures { PaintsRect self.old self.new x y w h (argb.over pixel) }
    {
        self.put_rect(Way::Blend, pixel, x, y, w, h);
    }

    // Puts one pixel on each of a rectangle.
    #[inline(always)]
    fn put_rect(&mut self, way: Way, pixel: Pixel, x: u32, y: u32, w: u32, h: u32)
        requires columns { x + w ≤ self.old.w }
        requires rows { y + h ≤ self.old.h }
        requires count { self.old.painted + w * h < 2 ^ 64 }
        ensures { PaintsRect self.old self.new x y w h (made way pixel) }
    {
        put_rect(
            &mut self.pixels,
            way,
            pixel,
            self.width as usize,
            x as usize,
            y as usize,
            w as usize,
            h as usize,
        );
        self.painted += u64::from(w) * u64::from(h);
    }

    /// How many columns the plane has.
    pub fn width(&self) -> u32
        ensures width { result ≡ self.now.w }
        ensures plane { IsTile self.now }
    {
        self.width
    }

    /// How many rows the plane has.
    pub fn height(&self) -> u32
        ensures height { result ≡ self.now.h }
        ensures plane { IsTile self.now }
    {
        self.height
    }

    /// The pixel in column x of row y of the plane, counted from its top left.
    pub fn get(&self, x: u32, y: u32) -> Pixel
        requires column { x < self.now.w }
        requires row { y < self.now.h }
        ensures { result ≡ tile_at self.now x y }
    {
        self.pixels[y as usize * self.width as usize + x as usize]
    }

    /// How many pixels were painted on the plane: those of its making, of each span and of each
    /// single pixel.
    pub fn painted(&self) -> u64
        ensures { result ≡ self.now.painted }
    {
        self.painted
    }

    // Replaces one pixel, which counts as painted unless the count is full.
    pub(crate) fn set(&mut self, x: u32, y: u32, p: Pixel)
        requires column { x < self.old.w }
        requires row { y < self.old.h }
        ensures value { self.new ≡ with_pixel_in self.old x y p }
        ensures size { length self.old.pixels ≡ self.old.h * self.old.w }
    {
        let at = y as usize * self.width as usize + x as usize;
        self.pixels[at] = p;
        self.painted = self.painted.saturating_add(1);
    }

    // The pixels of row y.
    pub(crate) fn row(&self, y: u32) -> &[Pixel]
        requires { y < self.now.h }
        ensures len { length result.now ≡ self.now.w }
        ensures pixels { (x : ℕ) → x < self.now.w → get_or result.now x argb.clear ≡ tile_at self.now x y }
    {
        let from = y as usize * self.width as usize;
        &self.pixels[from..from + self.width as usize]
    }
}
