// The totals of a picture.
ghost use Rattle.std.specs.Prelude.{◌≡◌, ◌≤◌, ◌<◌, ◌+◌, ◌^◌, fold, length};
ghost use Rattle.ev_argb.specs.Grid.{IsWhole};
ghost use Rattle.ev_model.specs.Answer.{answer};
ghost use Rattle.ev_script.specs.Dumps.{places};
ghost use Rattle.ev_script.specs.PixelTotals.{told, none, with_pixel, with_place};
ghost use Rattle.ev_canvas.specs.Totals.{totals};

use crate::picture::{ROW, show_row};
use ev_argb::{Picture, Pixel};
use ev_model::Reply;
use ev_region::Region;
use std::marker::Model;

/// Totals of pixels: of each channel, and of all channels, where each pixel counts by its place
/// from 1 on, row by row (docs/SCRIPT.md, "The log").
#[derive(Drop)]
pub struct Totals {
    count: u64,
    a: u64,
    r: u64,
    g: u64,
    b: u64,
    weighted: u64,
}

impl Model for Totals {
    ghost use Rattle.ev_script.specs.PixelTotals.{Counts, IsSmall};

    ghost Value = { Counts };

    ghost view = { λ t. record {
      count = t.count;
      a = t.a;
      r = t.r;
      g = t.g;
      b = t.b;
      weighted = t.weighted;
    } };

    ghost invariant = { λ t. IsSmall (record
        { count = t.count; a = t.a; r = t.r; g = t.g; b = t.b; weighted = t.weighted }) };
}

impl Totals {
    /// The totals of a whole picture, without the pixels that are hidden.
    pub fn of(picture: &Picture, hidden: &Region) -> Totals
        requires { IsWhole picture.now }
        ensures { told result ≡ totals (places hidden.now picture.now) }
    {
        let mut shown = [None; ROW];
        let row = &mut shown[..picture.width() as usize];
        let mut totals = Totals::new();
        for y in 0..picture.height() {
            show_row(picture, hidden, y, row);
            totals.add_row(row);
        }
        totals
    }

    /// The reply that tells them.
    pub fn reply(&self) -> Reply<'static>
        ensures { answer result ≡ told self.now }
    {
        Reply::Sum {
            a: self.a,
            r: self.r,
            g: self.g,
            b: self.b,
            p: self.weighted,
        }
    }

    fn new() -> Totals
        ensures { result ≡ none }
    {
        Totals {
            count: 0,
            a: 0,
            r: 0,
            g: 0,
            b: 0,
            weighted: 0,
        }
    }

    fn add_row(&mut self, places: &[Option<Pixel>])
        requires { self.old.count + length places.now ≤ 2 ^ 24 }
        ensures { self.new ≡ fold with_place self.old places.now }
    {
        for pixel in places {
            self.add_place(*pixel);
        }
    }

    fn add_place(&mut self, place: Option<Pixel>)
        requires { self.old.count < 2 ^ 24 }
        ensures place { self.new ≡ with_place self.old place }
        ensures count { self.new.count ≡ self.old.count + 1 }
    {
        match place {
            Some(pixel) => self.add(pixel),
            None => self.skip(),
        }
    }

    fn skip(&mut self)
        requires { self.old.count < 2 ^ 24 }
        ensures { self.new ≡ record self.old { count = self.old.count + 1 } }
    {
        self.count += 1;
    }

    fn add(&mut self, p: Pixel)
        requires { self.old.count < 2 ^ 24 }
        ensures { self.new ≡ with_pixel self.old p }
    {
        let (a, r) = (u64::from(p.a()), u64::from(p.r()));
        let (g, b) = (u64::from(p.g()), u64::from(p.b()));
        let count = self.count + 1;
        *self = Totals {
            count,
            a: self.a + a,
            r: self.r + r,
            g: self.g + g,
            b: self.b + b,
            weighted: self.weighted + count * (a + r + g + b),
        };
    }
}
