// What objects have from loads, whatever is edited. The laws have no body.
ghost use Rattle.std.specs.Prelude.{◌≡◌, ◌⊎◌, ℕ, All};
ghost use Rattle.ev_model.specs.Glyphs.{Glyphs};
ghost use Rattle.ev_model.specs.Raster.{Raster};
ghost use Rattle.ev_model.specs.declared.command.Edit.{Edit};
ghost use Rattle.ev_scene.specs.Board.{Board, stage_of};
ghost use Rattle.ev_scene.specs.Edits.{effect};
ghost use Rattle.ev_scene.specs.Given.{HasImage, HasFont, HasLoads, HoldsLoads};
ghost use Rattle.ev_scene.specs.ObjectLoads.{with_image, with_font};

/// A law: edits bring no loads. The loaded images and fonts that objects have after an edit, they
/// had before it (docs/CANVAS.md, "Loads").
pub fn edits_bring_no_loads()
    ensures { (board : Board) (edit : Edit)
        → HoldsLoads (HasImage board) (HasFont board) (effect board edit) }
{}

/// A law: an image that is put into a scene is the only one that comes, and it comes with the number
/// of its load.
pub fn images_come_alone()
    ensures { (board : Board) (id number : ℕ) (image : Raster)
        → HoldsLoads (λ l. HasImage board l ⊎ (l ≡ record { number = number; value = image }))
        (HasFont board) (with_image board id number image) }
{}

/// A law: a font that is put into a scene is the only one that comes, and it comes with the number of
/// its load.
pub fn fonts_come_alone()
    ensures { (board : Board) (id number : ℕ) (font : Glyphs)
        → HoldsLoads (HasImage board)
        (λ l. HasFont board l ⊎ (l ≡ record { number = number; value = font }))
        (with_font board id number font) }
{}

/// A law: what is painted of a scene has only the loaded images and fonts of its objects.
pub fn stages_bring_no_loads()
    ensures { (board : Board) → All (HasLoads (HasImage board) (HasFont board))
        (stage_of board).objects }
{}
