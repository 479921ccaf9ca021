// A command, carried out on a plane.
ghost use Rattle.std.specs.Prelude.{◌≡◌, ◌+◌, ◌<◌, ◌≤◌, ◌^◌};
ghost use Rattle.ev_argb.specs.Argb.{tint};
ghost use Rattle.ev_model.specs.Sample.{white};
ghost use Rattle.ev_cmds.specs.Patches.{size_of};
ghost use Rattle.ev_cmds.specs.Sheets.{Fits, op_of};
ghost use Rattle.ev_draw.specs.Making.{CarriesOut};

use crate::image::put_image;
use crate::solid::put_solid;
use crate::text::put_text_part;
use ev_argb::{Pixel, Plane, tint};
use ev_cmds::Command;
use ev_model::{Content, Op};

// Carries out a command on the plane of the tile at this place.
pub(crate) fn carry_out(command: &Command, left: u32, top: u32, plane: &mut Plane)
    requires fits { Fits left top plane.old.w plane.old.h command.now }
    requires small { plane.old.w ≤ 64 }
    requires count { plane.old.painted + size_of command.now.patch < 2 ^ 64 }
    ensures { CarriesOut command.now left top plane.old plane.new }
{
    let object = command.object.get();
    match &object.content {
        Content::Rect => put_solid(
            command.patch,
            op_of(command),
            white_in(command.color),
            plane,
        ),
        Content::Smart => {}
        Content::Image(part) => put_image(command, part, left, top, plane),
        Content::Text(part) => put_text_part(command, part, left, top, plane),
    }
}

// What replaces everything is copied.
pub(crate) fn op_of(command: &Command) -> Op
    ensures { result ≡ op_of command.now }
{
    if command.replaces {
        Op::Copy
    } else {
        command.object.get().op
    }
}

// What a rectangle or a text shows in a colour.
pub(crate) fn white_in(color: Pixel) -> Pixel
    ensures { result ≡ tint white color }
{
    tint(Pixel::new(255, 255, 255, 255), color)
}
