// The rectangles of bands.
ghost use Rattle.std.specs.Prelude.{◌≡◌, ◌<◌, ◌≤◌, false, ◌++◌, OnOk, pos, sum_by, ◌^◌};
ghost use Rattle.ev_geom.specs.Area.{size_of};
ghost use Rattle.ev_geom.specs.Bands.{IsRow, run_rects, rects_of};
ghost use Rattle.ev_region.specs.Flat.{bands_of, IsOpen};

use crate::bands::Rest;
use ev_geom::Rect;
use std::alloc::AllocError;

/// Adds a rectangle for each run of the rows from `top` to `bottom`.
fn push_runs(rects: &mut Vec<Rect>, top: u32, bottom: u32, edges: &[u32]) -> Result<(), AllocError>
    requires height { top < bottom }
    requires limit { bottom ≤ 1000000 }
    requires row { IsRow 1000000 0 false edges.now }
    ensures { OnOk result (rects.new.items ≡ rects.old.items ++ run_rects top bottom edges.now) }
{
    let mut edges = edges;
    while let [left, right, rest @ ..] = edges {
        rects.push(natural_rect(*left, top, *right - *left, bottom - top))?;
        edges = rest;
    }
    Ok(())
}

/// Makes the list that of the rectangles of the bands, from top to bottom, and in a band from left
/// to right.
pub(crate) fn list_rects(rects: &mut Vec<Rect>, bands: Rest<'_>) -> Result<(), AllocError>
    requires { IsOpen bands.row.now bands.start bands.steps.now bands.edges.now }
    ensures { OnOk result (rects.new.items ≡ rects_of (bands_of bands.entry.start bands.entry.steps.now bands.entry.edges.now)) }
{
    rects.clear();
    let edges = bands.edges;
    let mut start = bands.start;
    let mut steps = bands.steps;
    while let [step, below @ ..] = steps {
        if let [next, ..] = below {
            push_runs(rects, step.top, next.top, &edges[start..step.end])?;
        }
        start = step.end;
        steps = below;
    }
    Ok(())
}

/// The rectangle at natural places within the limits.
fn natural_rect(x: u32, y: u32, w: u32, h: u32) -> Rect
    requires x { x ≤ 1000000 }
    requires y { y ≤ 1000000 }
    requires w { w ≤ 1000000 }
    requires h { h ≤ 1000000 }
    ensures { result ≡ record { x = pos x; y = pos y; w = pos w; h = pos h } }
{
    Rect::at_origin(w, h).placed(i64::from(x), i64::from(y))
}

/// The number of pixels of the rectangles, where none overlap.
pub(crate) fn total_area(rects: &[Rect]) -> u64
    requires { sum_by size_of rects.now < 2 ^ 64 }
    ensures { result ≡ sum_by size_of rects.now }
{
    rects.iter().map(size_of).sum()
}

/// The number of pixels of a rectangle.
fn size_of(rect: &Rect) -> u64
    ensures { result ≡ size_of rect.now }
{
    rect.w() as u64 * rect.h() as u64
}
