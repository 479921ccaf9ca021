// What the formats promise by themselves.
ghost use Rattle.std.specs.Prelude.{◌≡◌, ℕ, ◌<◌, List, Ok};
ghost use Rattle.std.specs.List.{All};
ghost use Rattle.ev_model.specs.Raster.{Raster, IsImage};
ghost use Rattle.ev_image.specs.Format.{Stands, CanSpell, spelling};
ghost use Rattle.ev_image.specs.Reading.{image_at};
ghost use Rattle.ev_image.specs.declared.format.Format.{Format};

/// A law: bytes stand for one image at most.
pub fn one_image()
    ensures { (bytes : List ℕ) (a b : Raster) → Stands bytes a → Stands bytes b → a ≡ b }
{}

/// A law: each spelling of an image is read as that image.
pub fn read_again()
    ensures { (format : Format) (image : Raster) → IsImage image → CanSpell format image → image_at (spelling format image) ≡ Ok image }
{}

/// A law: what is read as an image stands in the bytes.
pub fn reads_only_images()
    ensures { (bytes : List ℕ) (image : Raster) → All (λ b. b < 256) bytes → image_at bytes ≡ Ok image → Stands bytes image }
{}
