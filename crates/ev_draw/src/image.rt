// An image on a patch.
ghost use Rattle.std.specs.Prelude.{◌≡◌, ℕ, ◌+◌, ◌-◌, ◌<◌, ◌≤◌, ◌^◌, ◌⊎◌, true, false, length, Some, IfSome};
ghost use Rattle.ev_cmds.specs.Sheets.{Fits, op_of};
ghost use Rattle.ev_cmds.specs.Patches.{size_of};
ghost use Rattle.ev_model.specs.Limits.{IsFill};
ghost use Rattle.ev_model.specs.Paint.{put_sample};
ghost use Rattle.ev_model.specs.Sample.{sample};
ghost use Rattle.ev_model.specs.declared.object.Op.TheVariants.{Blend, Copy};
ghost use Rattle.ev_model.specs.declared.content.Content.TheVariants.{Image};
ghost use Rattle.ev_fill.specs.Rows.{HasRow};
ghost use Rattle.ev_draw.specs.Making.{Paints, span, line_of, shown_by, CarriesOut};
ghost use Rattle.ev_draw.specs.KeptRows.{AreMade, AreMadeFor};

use crate::command::op_of;
use crate::place::{column_of, height_of, row_of, width_of};
use crate::span::{put_span, tint_row};
use ev_argb::{Pixel, Plane, tint};
use ev_cmds::Command;
use ev_fill::{ShownRow, sample, shown_pixels, shown_row};
use ev_model::{ImagePart, Op};

// Makes the pixels of the rows that show this, from column i on, in this colour, unless they are those
// that were made last.
fn make_row(
    part: &ImagePart,
    w: u32,
    i: u32,
    shown: Option<ShownRow>,
    color: Pixel,
    made: &mut Option<Option<ShownRow>>,
    row: &mut [Pixel],
)
    requires fill { IsFill part.now.fill }
    requires width { w ≤ 1000000 }
    requires place { i < w }
    requires room { i + length row.old ≤ w }
    requires within { IfSome shown (HasRow part.now) }
    requires made { AreMade part.now w i color made.old row.old }
    ensures shown { made.new ≡ Some shown }
    ensures made { AreMade part.now w i color made.new row.new }
    ensures len { length row.new ≡ length row.old }
{
    if is_made(*made, shown) {
        return;
    }
    shown_pixels(part, w, i, shown, row);
    tint_row(row, color);
    *made = Some(shown);
}

// Whether the row that was made last shows this.
fn is_made(made: Option<Option<ShownRow>>, shown: Option<ShownRow>) -> bool
    ensures { result ≡ true → made ≡ Some shown }
{
    made == Some(shown)
}

// Copies what there is of a row of an image, from its column i on.
fn copy_image_row(
    part: &ImagePart,
    w: u32,
    h: u32,
    i: u32,
    j: u32,
    color: Pixel,
    x: u32,
    y: u32,
    width: u32,
    plane: &mut Plane,
)
    requires fill { IsFill part.now.fill }
    requires size { (w ≤ 1000000) × (h ≤ 1000000) }
    requires place { (i < w) × (j < h) }
    requires room { i + width ≤ w }
    requires columns { x + width ≤ plane.old.w }
    requires small { plane.old.w ≤ 64 }
    requires line { y < plane.old.h }
    requires count { plane.old.painted + width < 2 ^ 64 }
    ensures { Paints (span x y width) (λ column line value. put_sample Copy color (sample (Image part.now) w h (i + (column - x)) j) value) width plane.old plane.new }
{
    for k in 0..width {
        copy_sample(sample(part, w, h, i + k, j), color, x + k, y, plane);
    }
}

// Copies a sample, if there is one.
fn copy_sample(sample: Option<Pixel>, color: Pixel, x: u32, y: u32, plane: &mut Plane)
    requires column { x < plane.old.w }
    requires line { y < plane.old.h }
    requires count { plane.old.painted + 1 < 2 ^ 64 }
    ensures { Paints (span x y 1) (λ column line value. put_sample Copy color sample value) 1 plane.old plane.new }
{
    if let Some(pixel) = sample {
        put_span(Op::Copy, x, y, &[tint(pixel, color)], plane);
    }
}

// Puts row y of a command's patch, whose object is an image. Its pixels are made in `row`, unless they
// are those of the row that was made last.
fn put_image_line(
    command: &Command,
    part: &ImagePart,
    left: u32,
    top: u32,
    y: u32,
    made: &mut Option<Option<ShownRow>>,
    row: &mut [Pixel],
    plane: &mut Plane,
)
    requires fits { Fits left top plane.old.w plane.old.h command.now }
    requires small { plane.old.w ≤ 64 }
    requires content { command.now.object.value.content ≡ Image part.now }
    requires line { (command.now.patch.top ≤ y) × (y < command.now.patch.bottom) }
    requires row { length row.old ≡ command.now.patch.right - command.now.patch.left }
    requires made { AreMadeFor command.now part.now left made.old row.old }
    requires count { plane.old.painted + length row.old < 2 ^ 64 }
    ensures painted { Paints (line_of command.now.patch y) (shown_by command.now left top) (command.now.patch.right - command.now.patch.left) plane.old plane.new }
    ensures made { AreMadeFor command.now part.now left made.new row.new }
    ensures len { length row.new ≡ length row.old }
{
    let object = command.object.get();
    let w = width_of(&object.rect);
    let h = height_of(&object.rect);
    let x = u32::from(command.patch.left);
    let i = column_of(&object.rect, left + x);
    let j = row_of(&object.rect, top + y);
    if has_gaps(command) {
        let width = row.len() as u32;
        copy_image_row(part, w, h, i, j, command.color, x, y, width, plane);
        return;
    }
    let shown = shown_row(part, h, j);
    make_row(part, w, i, shown, command.color, made, row);
    put_span(op_of(command), x, y, row, plane);
}

// Whether samples are copied of which some may be nothing.
fn has_gaps(command: &Command) -> bool
    ensures gaps { result ≡ true → op_of command.now ≡ Copy }
    ensures whole { result ≡ false → (command.now.replaces ≡ true) ⊎ (op_of command.now ≡ Blend) }
{
    if command.replaces {
        return false;
    }
    match command.object.get().op {
        Op::Copy => true,
        Op::Blend => false,
    }
}

// Puts all rows of a command's patch, whose object is an image. The pixels are made in `row`.
fn put_image_lines(
    command: &Command,
    part: &ImagePart,
    left: u32,
    top: u32,
    row: &mut [Pixel],
    plane: &mut Plane,
)
    requires fits { Fits left top plane.old.w plane.old.h command.now }
    requires small { plane.old.w ≤ 64 }
    requires content { command.now.object.value.content ≡ Image part.now }
    requires row { length row.old ≡ command.now.patch.right - command.now.patch.left }
    requires count { plane.old.painted + size_of command.now.patch < 2 ^ 64 }
    ensures { CarriesOut command.now left top plane.old plane.new }
{
    let patch = command.patch;
    let mut made = None;
    for y in patch.top..patch.bottom {
        put_image_line(
            command,
            part,
            left,
            top,
            u32::from(y),
            &mut made,
            row,
            plane,
        );
    }
}

// Carries out a command whose object is an image.
pub(crate) fn put_image(command: &Command, part: &ImagePart, left: u32, top: u32, plane: &mut Plane)
    requires fits { Fits left top plane.old.w plane.old.h command.now }
    requires small { plane.old.w ≤ 64 }
    requires content { command.now.object.value.content ≡ Image part.now }
    requires count { plane.old.painted + size_of command.now.patch < 2 ^ 64 }
    ensures { CarriesOut command.now left top plane.old plane.new }
{
    let mut row = [Pixel::CLEAR; 64];
    let patch = command.patch;
    let width = usize::from(patch.right - patch.left);
    put_image_lines(command, part, left, top, &mut row[..width], plane);
}
