// What the damage between two captured scenes tells. The laws have no body.
ghost use Rattle.std.specs.Prelude.{◌≡◌, ◌↔◌, ℕ, pos, true, false};
ghost use Rattle.ev_model.specs.Capture.{Capture};
ghost use Rattle.ev_model.specs.Look.{Look, IsSameLook};
ghost use Rattle.ev_damage.specs.Same.{same_look};
ghost use Rattle.ev_damage.specs.Damage.{is_damaged};
ghost use Rattle.ev_damage.specs.Places.{HaveOwnIds};
ghost use Rattle.ev_damage.specs.Stay.{HaveOneLoad, IsStill};

/// A law: the test of two looks passes exactly where their areas, rectangles, operations, colours
/// and contents are equal (docs/CANVAS.md, Damage).
pub fn equal_looks_pass()
    ensures { (l m : Look) → (same_look l m ≡ true) ↔ IsSameLook l m }
{}

/// A law: where a pixel isn't in the damage between two captured scenes, the same looks cover it in
/// both, in the same order, and it is painted the same. In each the ids of looks differ, and no load
/// number stands for two images or two fonts (docs/CANVAS.md, Damage).
pub fn undamaged_pixels_stay()
    ensures { (a b : Capture) (x y : ℕ) → HaveOwnIds a.looks → HaveOwnIds b.looks → HaveOneLoad a.looks b.looks
        → is_damaged a.looks b.looks (pos x) (pos y) ≡ false → IsStill a b x y }
{}
