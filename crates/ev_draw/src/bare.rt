// The bare places of a tile, which are made clear.
ghost use Rattle.std.specs.Prelude.{◌≡◌, ℕ, ◌+◌, ◌<◌, ◌^◌, true};
ghost use Rattle.ev_cmds.specs.Masks.{is_set, count_of};
ghost use Rattle.ev_cmds.specs.Sheets.{LiesOn};
ghost use Rattle.ev_draw.specs.Making.{Paints, Clears, LiesInRow, cleared_in, row_count, span};

use crate::span::put_color;
use ev_argb::{Pixel, Plane};
use ev_cmds::{Mask, next_run};
use ev_model::Op;

// Makes the places of a set clear.
pub(crate) fn clear_places(bare: &Mask, plane: &mut Plane)
    requires within { LiesOn plane.old.w plane.old.h bare.now }
    requires count { plane.old.painted + count_of bare.now < 2 ^ 64 }
    ensures { Clears bare.now plane.old plane.new }
{
    for y in 0..64u8 {
        clear_columns(bare.row(y), u32::from(y), plane);
    }
}

// Makes the columns of row y clear whose bits are set.
fn clear_columns(bits: u64, y: u32, plane: &mut Plane)
    requires within { LiesInRow plane.old.w bits }
    requires row { (x : ℕ) → x < 64 → is_set bits x ≡ true → y < plane.old.h }
    requires count { plane.old.painted + row_count bits 64 < 2 ^ 64 }
    ensures { Paints (span 0 y 64) (cleared_in bits) (row_count bits 64) plane.old plane.new }
{
    let mut from = 0;
    while let Some(run) = next_run(bits, from) {
        let x = u32::from(run.left);
        let len = u32::from(run.right - run.left);
        put_color(Op::Copy, Pixel::CLEAR, x, y, len, 1, plane);
        from = run.right;
    }
}
