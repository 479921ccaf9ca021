// What is painted on a tile: its bare places are cleared, then its commands are carried out.
ghost use Rattle.std.specs.Prelude.{◌≡◌, ◌+◌, ◌<◌, ◌≤◌, ◌^◌, All, Bool, List, ℤ};
ghost use Rattle.ev_model.specs.Look.{Look};
ghost use Rattle.ev_cmds.specs.Masks.{count_of};
ghost use Rattle.ev_cmds.specs.Patches.{total};
ghost use Rattle.ev_cmds.specs.Sheets.{Fits, IsSheetOn, Shows, patches_of};
ghost use Rattle.ev_draw.specs.Making.{CarriesOutAll, IsDrawn, PaintsAtMost};

use crate::bare::clear_places;
use crate::command::carry_out;
use ev_argb::Plane;
use ev_cmds::{Command, Sheet};

// Draws a tile on a plane: clears what is bare, then carries out the commands from the lowest to the
// topmost. In the work region the plane then has what all records paint there, and elsewhere what it
// had (docs/CANVAS.md, Painting). It takes no memory.
pub(crate) fn draw_sheet(sheet: &Sheet, left: u32, top: u32, plane: &mut Plane)
    requires sheet { IsSheetOn left top plane.old.w plane.old.h sheet.now }
    requires width { plane.old.w ≤ 64 }
    requires height { plane.old.h ≤ 64 }
    requires count { plane.old.painted + count_of sheet.now.bare + total (patches_of sheet.now.commands.items) < 2 ^ 64 }
    ensures most { PaintsAtMost (count_of sheet.now.bare + total (patches_of sheet.now.commands.items)) plane.old plane.new }
    ensures drawn { (work : ℤ → ℤ → Bool) (looks : List Look) → Shows work looks left top sheet.now.bare sheet.now.commands.items
        → IsDrawn work looks left top plane.old plane.new }
{
    clear_places(&sheet.bare, plane);
    carry_out_all(&sheet.commands, left, top, plane);
}

// Carries out commands, of which the first is the topmost.
fn carry_out_all(commands: &[Command], left: u32, top: u32, plane: &mut Plane)
    requires fits { All (Fits left top plane.old.w plane.old.h) commands.now }
    requires small { plane.old.w ≤ 64 }
    requires count { plane.old.painted + total (patches_of commands.now) < 2 ^ 64 }
    ensures { CarriesOutAll commands.now left top plane.old plane.new }
{
    let mut i = commands.len();
    while 0 < i {
        i -= 1;
        carry_out(&commands[i], left, top, plane);
    }
}
