// Rectangles of a canvas by their edges, which are natural numbers.
ghost use Rattle.std.specs.Prelude.{◌≡◌, ℕ, ◌+◌, ◌≤◌, ◌<◌, ◌+ℤ◌, ◌≤ℤ◌, pos, true, FitsSigned};
ghost use Rattle.std.specs.Int.{w32};
ghost use Rattle.ev_geom.specs.Area.{holds};
ghost use Rattle.ev_geom.specs.Bands.{has_pixel};
ghost use Rattle.ev_areas.specs.Edges as edges;

use ev_geom::Rect;

/// The pixels in the columns from `left` to before `right`, and in the rows from `top` to before
/// `bottom`.
#[derive(Clone, Copy)]
pub struct Edges {
    pub left: u32,
    pub right: u32,
    pub top: u32,
    pub bottom: u32,
}

impl Edges {
    /// Edges between which nothing lies, and which others join without leaving a trace.
    pub const NONE: Edges = Edges {
        left: u32::MAX,
        right: 0,
        top: u32::MAX,
        bottom: 0,
    };

    /// The edges of what a rectangle has in common with a canvas of w by h pixels.
    pub fn of(rect: &Rect, w: u32, h: u32) -> Edges
        requires width { w ≤ 4096 }
        requires height { h ≤ 4096 }
        ensures { edges.AreEdgesOf rect.now w h result }
    {
        Edges {
            left: nearest(rect.x(), w),
            right: nearest_end(rect.x(), rect.w(), w),
            top: nearest(rect.y(), h),
            bottom: nearest_end(rect.y(), rect.h(), h),
        }
    }

    /// Edges between which both lie.
    pub fn join(&self, other: &Edges) -> Edges
        ensures { result ≡ edges.join self.now other.now }
    {
        Edges {
            left: self.left.min(other.left),
            right: self.right.max(other.right),
            top: self.top.min(other.top),
            bottom: self.bottom.max(other.bottom),
        }
    }

    /// What two of them have in common.
    pub fn meet(&self, other: &Edges) -> Edges
        ensures { result ≡ edges.meet self.now other.now }
    {
        Edges {
            left: self.left.max(other.left),
            right: self.right.min(other.right),
            top: self.top.max(other.top),
            bottom: self.bottom.min(other.bottom),
        }
    }
}

/// Edges on a canvas of w by h pixels, between which lies all that rectangles have of the canvas.
pub fn around(rects: &[Rect], w: u32, h: u32) -> Edges
    requires width { w ≤ 4096 }
    requires height { h ≤ 4096 }
    ensures right { result.right ≤ w }
    ensures bottom { result.bottom ≤ h }
    ensures pixels { (x y : ℕ) → x < w → y < h → has_pixel rects.now (pos x) (pos y) ≡ true → edges.has_pixel_at result x y ≡ true }
{
    let mut bounds = Edges::NONE;
    for rect in rects {
        bounds = bounds.join(&Edges::of(rect, w, h));
    }
    bounds
}

// The nearest place to the end of a stretch, from 0 to a limit.
fn nearest_end(from: i32, len: i32, limit: u32) -> u32
    requires limit { limit ≤ 4096 }
    requires end { FitsSigned w32 (from +ℤ len) }
    ensures { edges.IsNearest (from +ℤ len) limit result }
{
    nearest(from + len, limit)
}

// The nearest place from 0 to a limit.
fn nearest(place: i32, limit: u32) -> u32
    requires { limit ≤ 4096 }
    ensures { edges.IsNearest place limit result }
{
    place.clamp(0, limit as i32) as u32
}
