// Rectangles within limits. Clauses see a place and a size.
ghost use Rattle.std.specs.Prelude.{◌≡◌, ◌≤◌, ◌&&◌, ◌↔◌, ◌⊎◌, ◌+ℤ◌, ◌≤ℤ◌, ◌<ℤ◌, neg_ℤ, ℤ, pos, Bool, true, IsTrue, if◌then◌else◌};
ghost use Rattle.std.specs.Int.{int_min, int_max};
ghost use Rattle.ev_geom.specs.Area.{Area, is_place, is_side, in_limits, limited, IsPlace, IsSide, InLimits, is_within, holds, nowhere, meet, common, moved_by, IsStretch, IsShifted};

use crate::limits::{in_limits, shifted};
use crate::stretch::{common, is_within, later};
use std::marker::Model;

/// A rectangle, which holds the pixels with `x <= px < x + w` and `y <= py < y + h`. Its place is
/// from -1,000,000 to 1,000,000 each way, its sides are from 0 to 1,000,000, and where one is 0 it
/// holds no pixel (docs/CANVAS.md, Objects).
#[derive(Clone, Copy, Debug, PartialEq, Eq)]
pub struct Rect {
    x: i32,
    y: i32,
    w: i32,
    h: i32,
}

impl Model for Rect {
    ghost use Rattle.ev_geom.specs.Area.{Area, InLimits};

    ghost Value = { Area };

    ghost view = { λ r. record { x = r.x; y = r.y; w = r.w; h = r.h } };

    ghost invariant = { λ r. InLimits (record { x = r.x; y = r.y; w = r.w; h = r.h }) };

    ghost inverse = { λ a. record { x = a.x; y = a.y; w = a.w; h = a.h } };
}

impl Rect {
    /// The rectangle `0 0 0 0`, without pixels, which stands for each empty meet.
    pub const NOWHERE: Rect = Rect {
        x: 0,
        y: 0,
        w: 0,
        h: 0,
    };

    /// The rectangle of these numbers. None exactly where one of them leaves its limits
    /// (docs/SCRIPT.md, Numbers).
    pub fn new(x: i64, y: i64, w: i64, h: i64) -> Option<Rect>
        ensures { result ≡ limited (record { x = x; y = y; w = w; h = h }) }
    {
        if in_limits(x, y, w, h) {
            Some(narrowed(x, y, w, h))
        } else {
            None
        }
    }

    /// The rectangle of this size at 0, 0.
    pub fn at_origin(w: u32, h: u32) -> Rect
        requires width { w ≤ 1000000 }
        requires height { h ≤ 1000000 }
        ensures { result ≡ record { x = pos 0; y = pos 0; w = pos w; h = pos h } }
    {
        Rect {
            x: 0,
            y: 0,
            w: w as i32,
            h: h as i32,
        }
    }

    /// The leftmost column.
    pub fn x(&self) -> i32
        ensures x { result ≡ self.now.x }
        ensures limits { InLimits self.now }
    {
        self.x
    }

    /// The topmost row.
    pub fn y(&self) -> i32
        ensures y { result ≡ self.now.y }
        ensures limits { InLimits self.now }
    {
        self.y
    }

    /// How many columns the rectangle has.
    pub fn w(&self) -> i32
        ensures w { result ≡ self.now.w }
        ensures limits { InLimits self.now }
    {
        self.w
    }

    /// How many rows the rectangle has.
    pub fn h(&self) -> i32
        ensures h { result ≡ self.now.h }
        ensures limits { InLimits self.now }
    {
        self.h
    }

    /// Whether the rectangle holds no pixel, since a side is 0.
    pub fn is_empty(&self) -> bool
        ensures { IsTrue result ↔ ((self.now.w ≡ pos 0) ⊎ (self.now.h ≡ pos 0)) }
    {
        self.w == 0 || self.h == 0
    }

    /// Whether the rectangle holds the pixel in column x of row y.
    pub fn contains(&self, x: i32, y: i32) -> bool
        ensures { result ≡ holds self.now x y }
    {
        is_within(self.x, self.w, x) && is_within(self.y, self.h, y)
    }

    /// The rectangle of the pixels that both hold, or `0 0 0 0` where there are none.
    pub fn meet(&self, other: &Rect) -> Rect
        ensures { result ≡ meet self.now other.now }
    {
        let w = common(self.x, self.w, other.x, other.w);
        let h = common(self.y, self.h, other.y, other.h);
        if 0 < w && 0 < h {
            let x = later(self.x, other.x);
            let y = later(self.y, other.y);
            Rect { x, y, w, h }
        } else {
            Rect::NOWHERE
        }
    }

    /// The rectangle with dx added to x and dy to y. None exactly where that leaves the limits.
    pub fn moved(&self, dx: i64, dy: i64) -> Option<Rect>
        ensures { result ≡ limited (moved_by self.now dx dy) }
    {
        let x = shifted(self.x, dx);
        let y = shifted(self.y, dy);
        Rect::new(x, y, i64::from(self.w), i64::from(self.h))
    }

    /// The rectangle at another place, of the same size.
    pub fn placed(self, x: i64, y: i64) -> Rect
        requires column { is_place x ≡ true }
        requires row { is_place y ≡ true }
        ensures { result ≡ record self { x = x; y = y } }
    {
        Rect {
            x: x as i32,
            y: y as i32,
            w: self.w,
            h: self.h,
        }
    }

    /// The rectangle with another size, at the same place.
    pub fn sized(self, w: i64, h: i64) -> Rect
        requires width { is_side w ≡ true }
        requires height { is_side h ≡ true }
        ensures { result ≡ record self { w = w; h = h } }
    {
        Rect {
            x: self.x,
            y: self.y,
            w: w as i32,
            h: h as i32,
        }
    }
}

// The rectangle of numbers that keep the limits.
fn narrowed(x: i64, y: i64, w: i64, h: i64) -> Rect
    requires { InLimits (record { x = x; y = y; w = w; h = h }) }
    ensures { result ≡ record { x = x; y = y; w = w; h = h } }
{
    Rect {
        x: x as i32,
        y: y as i32,
        w: w as i32,
        h: h as i32,
    }
}

/// A law: the meet of two rectangles holds exactly the pixels that both hold.
#[tactic(auto, using(crate::proofs::Meeting::holds_meet))]
pub fn meet_holds_both()
    ensures { (a : Area) (b : Area) (x : ℤ) (y : ℤ) → holds (meet a b) x y ≡ (holds a x y && holds b x y) }
{}
