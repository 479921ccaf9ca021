// The limits that places and sizes keep.
ghost use Rattle.std.specs.Prelude.{◌≡◌, ℤ, pos, neg_ℤ, ◌+ℤ◌, ◌≤ℤ◌, Bool, ◌&&◌, true};
ghost use Rattle.ev_geom.specs.Area.{Area, is_place, is_side, in_limits, IsPlace, IsShifted};

/// The greatest place, and the longest side, in pixels. Places begin at its negative.
pub const MAX_PLACE: i64 = 1_000_000;

/// Whether a number is a place, from -1,000,000 to 1,000,000 (docs/SCRIPT.md, Numbers).
pub fn is_place(n: i64) -> bool
    ensures { result ≡ is_place n }
{
    -MAX_PLACE <= n && n <= MAX_PLACE
}

/// Whether a number is a width or a height, from 0 to 1,000,000 (docs/SCRIPT.md, Numbers).
pub fn is_side(n: i64) -> bool
    ensures { result ≡ is_side n }
{
    0 <= n && n <= MAX_PLACE
}

// Whether the rectangle of these numbers keeps the limits.
pub(crate) fn in_limits(x: i64, y: i64, w: i64, h: i64) -> bool
    ensures { result ≡ in_limits (record { x = x; y = y; w = w; h = h }) }
{
    is_place(x) && is_place(y) && is_side(w) && is_side(h)
}

// A place moved by this much, or a number that is no place where that is none.
pub(crate) fn shifted(from: i32, by: i64) -> i64
    requires { IsPlace from }
    ensures { IsShifted from by result }
{
    i64::from(from).saturating_add(by)
}
