// Stretches: the columns or the rows of a rectangle, by their first place and their length.
ghost use Rattle.std.specs.Prelude.{◌≡◌, ◌≤◌, ℤ, pos, neg_ℤ, ◌+ℤ◌, ◌≤ℤ◌, ◌<ℤ◌, Bool, ◌&&◌, true, FitsSigned};
ghost use Rattle.std.specs.Int.{w32, int_min, int_max};
ghost use Rattle.ev_geom.specs.Area.{is_within, common, IsPlace, IsSide, IsStretch};

// Whether a place lies in a stretch.
pub(crate) fn is_within(from: i32, len: i32, at: i32) -> bool
    requires { FitsSigned w32 (from +ℤ len) }
    ensures { result ≡ is_within from len at }
{
    from <= at && at < from + len
}

// The length of what two stretches have in common.
pub(crate) fn common(a: i32, a_len: i32, b: i32, b_len: i32) -> i32
    requires first { IsStretch a a_len }
    requires second { IsStretch b b_len }
    ensures { result ≡ common a a_len b b_len }
{
    let from = later(a, b);
    let to = sooner(a + a_len, b + b_len);
    if from < to { to - from } else { 0 }
}

// The greater of two places.
pub(crate) fn later(a: i32, b: i32) -> i32
    ensures { result ≡ int_max a b }
{
    if b < a { a } else { b }
}

// The lesser of two places.
fn sooner(a: i32, b: i32) -> i32
    ensures { result ≡ int_min a b }
{
    if b < a { b } else { a }
}
