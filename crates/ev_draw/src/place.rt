// Where pixels of a tile lie in an object.
ghost use Rattle.std.specs.Prelude.{◌≡◌, ◌<◌, ◌≤◌, pos, ◌-ℤ◌, unsigned_abs};

use ev_geom::Rect;

// How many columns a rectangle has.
pub(crate) fn width_of(rect: &Rect) -> u32
    ensures value { result ≡ unsigned_abs rect.now.w }
    ensures small { result ≤ 1000000 }
{
    rect.w().unsigned_abs()
}

// How many rows it has.
pub(crate) fn height_of(rect: &Rect) -> u32
    ensures value { result ≡ unsigned_abs rect.now.h }
    ensures small { result ≤ 1000000 }
{
    rect.h().unsigned_abs()
}

// How far a column lies behind the first one of a rectangle.
pub(crate) fn column_of(rect: &Rect, at: u32) -> u32
    requires { at < 8192 }
    ensures value { result ≡ unsigned_abs (pos at -ℤ rect.now.x) }
    ensures near { result ≤ 2000000 }
{
    (at as i32 - rect.x()).unsigned_abs()
}

// How far a row lies behind the first one.
pub(crate) fn row_of(rect: &Rect, at: u32) -> u32
    requires { at < 8192 }
    ensures value { result ≡ unsigned_abs (pos at -ℤ rect.now.y) }
    ensures near { result ≤ 2000000 }
{
    (at as i32 - rect.y()).unsigned_abs()
}
