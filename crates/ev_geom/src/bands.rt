// The one list of rectangles for each set of pixels.
ghost use Rattle.std.specs.Prelude.{◌≡◌, ◌≤◌, ℕ, ℤ, Bool, List};
ghost use Rattle.ev_geom.specs.Area.{Area};
ghost use Rattle.ev_geom.specs.Bands.{IsBandsOf};
ghost use Rattle.ev_geom.specs.Scan.{IsWithin, scanned_rects};

/// A law: two banded lists of one set of pixels are the same list (docs/CANVAS.md, Frames).
pub fn one_banded_list()
    ensures { (set : ℤ → ℤ → Bool) (a b : List Area) → IsBandsOf set a → IsBandsOf set b → a ≡ b }
{}

/// A law: the banded list of a set is the one that is found by looking at each pixel of a square
/// that holds the set.
pub fn banded_list_is_scanned()
    ensures { (size : ℕ) (set : ℤ → ℤ → Bool) (rects : List Area) → size ≤ 1000000 → IsWithin size set
        → IsBandsOf set rects → rects ≡ scanned_rects size set }
{}
