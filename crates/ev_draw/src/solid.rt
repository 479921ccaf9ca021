// One colour on a patch.
ghost use Rattle.std.specs.Prelude.{◌≡◌, ◌+◌, ◌<◌, ◌≤◌, ◌^◌};
ghost use Rattle.ev_model.specs.Paint.{put};
ghost use Rattle.ev_cmds.specs.Patches.{size_of, IsPatch};
ghost use Rattle.ev_draw.specs.Making.{Paints, LiesIn};

use crate::span::put_color;
use ev_argb::{Pixel, Plane};
use ev_cmds::Patch;
use ev_model::Op;

// Puts one colour on each pixel of a patch.
pub(crate) fn put_solid(patch: Patch, op: Op, color: Pixel, plane: &mut Plane)
    requires patch { IsPatch patch }
    requires within { LiesIn patch plane.old.w plane.old.h }
    requires count { plane.old.painted + size_of patch < 2 ^ 64 }
    ensures { Paints patch (λ x y value. put op color value) (size_of patch) plane.old plane.new }
{
    let x = u32::from(patch.left);
    let y = u32::from(patch.top);
    let width = u32::from(patch.right - patch.left);
    let height = u32::from(patch.bottom - patch.top);
    put_color(op, color, x, y, width, height, plane);
}
