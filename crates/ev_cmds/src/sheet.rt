// What is painted on one tile.
ghost use Rattle.std.specs.Prelude.{◌≡◌, ◌++◌, ◌≤◌, [], map, OnOk, IfOk};
ghost use Rattle.ev_cmds.specs.Patches as patches;
ghost use Rattle.ev_cmds.specs.Sheets as sheets;

use crate::opaque::replaces;
use crate::{Mask, NoMemory, Patch};
use ev_argb::Pixel;
use ev_model::{Object, Record};
use ev_state::Shared;

/// Paints an object, tinted by a colour, on a patch of a tile (docs/CANVAS.md, Painting).
#[derive(Drop)]
pub struct Command {
    pub patch: Patch,
    pub color: Pixel,
    /// Whether it replaces everything that lies below.
    pub replaces: bool,
    pub object: Shared<Object>,
}

/// What is painted on a tile (docs/ARCHITECTURE.md, Tiles). The places of the work region on which
/// nothing hides what lies below are bare, and are made clear before. Then the commands are carried
/// out from the last to the first, so the first is the topmost. The patches of one record don't
/// overlap.
#[derive(Drop)]
pub struct Sheet {
    pub bare: Mask,
    pub commands: Vec<Command>,
}

impl Sheet {
    // Takes in a record that lies below all that are here, of which the tile sees this area.

    pub(crate) fn take(
        &mut self,
        one: &Record,
        area: Patch,
        spare: &mut Vec<Patch>,
    ) -> Result<(), NoMemory>
        requires { patches.IsPatch area }
        ensures shows { OnOk result (sheets.StillShows one.now area self.old.bare self.old.commands.items self.new.bare self.new.commands.items) }
        ensures fits { OnOk result (sheets.StillFit one.now area self.old.commands.items self.new.commands.items) }
    {
        spare.clear();
        self.bare.push_parts(area, spare)?;
        if spare.is_empty() {
            return Ok(());
        }
        let replaces = replaces(one);
        push_commands(one, replaces, spare, &mut self.commands)?;
        if replaces {
            self.bare.cut(area);
        }
        Ok(())
    }
}

// Adds a command of a record for each of these patches.
fn push_commands(
    one: &Record,
    replaces: bool,
    patches: &[Patch],
    into: &mut Vec<Command>,
) -> Result<(), NoMemory>
    ensures { OnOk result (into.new.items ≡ into.old.items ++ map (sheets.command_of one.now replaces) patches.now) }
{
    for patch in patches {
        into.push(made(one, replaces, *patch)?)?;
    }
    Ok(())
}

// The command of a record on a patch. It shares the object.
fn made(one: &Record, replaces: bool, patch: Patch) -> Result<Command, NoMemory>
    ensures { IfOk result (λ command. command ≡ sheets.command_of one.now replaces patch) }
{
    let object = one.object.share()?;
    Ok(Command {
        patch,
        color: one.color,
        replaces,
        object,
    })
}
