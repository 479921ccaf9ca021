// How many pixels a region has. The law has no body.
ghost use Rattle.std.specs.Prelude.{◌≡◌, ℕ, List, sum_by};
ghost use Rattle.ev_geom.specs.Area.{Area, size_of};
ghost use Rattle.ev_geom.specs.Bands.{has_pixel, IsBanded};
ghost use Rattle.ev_region.specs.Count.{pixels_within, LiesWithin};

/// A law: the sizes of a region's rectangles sum up to the number of its pixels on any canvas that
/// it lies within (docs/CANVAS.md, Frames).
pub fn sizes_count_pixels()
    ensures { (rects : List Area) (w h : ℕ) → IsBanded rects → LiesWithin w h (has_pixel rects)
        → sum_by size_of rects ≡ pixels_within w h (has_pixel rects) }
{}
