// A text on a patch.
ghost use Rattle.std.specs.Prelude.{◌≡◌, ℕ, ◌+◌, ◌-◌, ◌<◌, ◌≤◌, ◌^◌, Bool, false, length, get_or, if◌then◌else◌, pos, ◌-ℤ◌, unsigned_abs};
ghost use Rattle.ev_cmds.specs.Patches.{size_of};
ghost use Rattle.ev_cmds.specs.Sheets.{Fits};
ghost use Rattle.ev_model.specs.Glyphs.{IsText};
ghost use Rattle.ev_model.specs.Paint.{put, put_sample};
ghost use Rattle.ev_model.specs.Sample.{text_sample};
ghost use Rattle.ev_model.specs.declared.content.Content.TheVariants.{Text};
ghost use Rattle.ev_draw.specs.Making.{Paints, span, line_of, shown_by, put_where, CarriesOut, ShowsText, ShowsFrom};

use crate::command::{op_of, white_in};
use crate::place::{column_of, row_of};
use crate::span::put_color;
use ev_argb::{Pixel, Plane};
use ev_cmds::Command;
use ev_model::{Font, Op, TextPart};
use ev_text::{text_from, text_row};

// Carries out a command whose object is a text, which shows nothing without a font.
pub(crate) fn put_text_part(
    command: &Command,
    part: &TextPart,
    left: u32,
    top: u32,
    plane: &mut Plane,
)
    requires fits { Fits left top plane.old.w plane.old.h command.now }
    requires small { plane.old.w ≤ 64 }
    requires text { IsText part.now.text }
    requires content { command.now.object.value.content ≡ Text part.now }
    requires count { plane.old.painted + size_of command.now.patch < 2 ^ 64 }
    ensures { CarriesOut command.now left top plane.old plane.new }
{
    match &part.loaded {
        Some(loaded) => put_text(command, loaded.font(), part.text.bytes(), left, top, plane),
        None => {}
    }
}

// Carries out a command whose object shows a text. The glyph at its first column is found once.
fn put_text(command: &Command, font: &Font, text: &[u8], left: u32, top: u32, plane: &mut Plane)
    requires fits { Fits left top plane.old.w plane.old.h command.now }
    requires small { plane.old.w ≤ 64 }
    requires text { IsText text.now }
    requires content { ShowsText command.now.object.value font.now text.now }
    requires count { plane.old.painted + size_of command.now.patch < 2 ^ 64 }
    ensures { CarriesOut command.now left top plane.old plane.new }
{
    let mut bits = [false; 64];
    let patch = command.patch;
    let width = usize::from(patch.right - patch.left);
    let x = u32::from(patch.left);
    let object = command.object.get();
    let i = column_of(&object.rect, left + x);
    let (rest, column) = text_from(font, text, i);
    for y in patch.top..patch.bottom {
        put_text_line(
            command,
            font,
            rest,
            column,
            left,
            top,
            u32::from(y),
            &mut bits[..width],
            plane,
        );
    }
}

// Puts row y of a command's patch, whose object shows from there on a text from column i on. Its
// samples are found in `bits`.
fn put_text_line(
    command: &Command,
    font: &Font,
    text: &[u8],
    i: u32,
    left: u32,
    top: u32,
    y: u32,
    bits: &mut [bool],
    plane: &mut Plane,
)
    requires fits { Fits left top plane.old.w plane.old.h command.now }
    requires small { plane.old.w ≤ 64 }
    requires text { IsText text.now }
    requires column { i ≤ 2000000 }
    requires content { ShowsFrom command.now.object.value (unsigned_abs (pos (left + command.now.patch.left) -ℤ command.now.object.value.rect.x)) font.now text.now i }
    requires line { (command.now.patch.top ≤ y) × (y < command.now.patch.bottom) }
    requires row { length bits.old ≡ command.now.patch.right - command.now.patch.left }
    requires count { plane.old.painted + length bits.old < 2 ^ 64 }
    ensures { Paints (line_of command.now.patch y) (shown_by command.now left top) (command.now.patch.right - command.now.patch.left) plane.old plane.new }
{
    let object = command.object.get();
    let x = u32::from(command.patch.left);
    let j = row_of(&object.rect, top + y);
    put_text_row(
        font,
        text,
        i,
        j,
        op_of(command),
        command.color,
        x,
        y,
        bits,
        plane,
    );
}

// Puts a row of a text, from its column i on. Its samples are found in `bits`.
fn put_text_row(
    font: &Font,
    text: &[u8],
    i: u32,
    j: u32,
    op: Op,
    color: Pixel,
    x: u32,
    y: u32,
    bits: &mut [bool],
    plane: &mut Plane,
)
    requires text { IsText text.now }
    requires end { i + length bits.old < 2 ^ 32 }
    requires columns { x + length bits.old ≤ plane.old.w }
    requires small { plane.old.w ≤ 64 }
    requires line { y < plane.old.h }
    requires count { plane.old.painted + length bits.old < 2 ^ 64 }
    ensures { Paints (span x y (length bits.old)) (λ column line value. put_sample op color (text_sample font.now text.now (i + (column - x)) j) value) (length bits.old) plane.old plane.new }
{
    text_row(font, text, i, j, bits);
    put_bits(bits, op, white_in(color), x, y, plane);
}

// Puts a colour where a bit is set, run by run.
pub(crate) fn put_bits(bits: &[bool], op: Op, color: Pixel, x: u32, y: u32, plane: &mut Plane)
    requires columns { x + length bits.now ≤ plane.old.w }
    requires small { plane.old.w ≤ 64 }
    requires line { y < plane.old.h }
    requires count { plane.old.painted + length bits.now < 2 ^ 64 }
    ensures { Paints (span x y (length bits.now)) (put_where bits.now op color x) (length bits.now) plane.old plane.new }
{
    let mut from = 0;
    while from < bits.len() {
        let end = end_of_run(bits, from);
        let len = (end - from) as u32;
        put_run(bits[from], op, color, x + from as u32, y, len, plane);
        from = end;
    }
}

// The end of the equal bits that begin at a place.
#[inline(always)]
fn end_of_run(bits: &[bool], from: usize) -> usize
    requires { from < length bits.now }
    ensures after { from < result }
    ensures within { result ≤ length bits.now }
    ensures equal { (k : ℕ) → from ≤ k → k < result → get_or bits.now k false ≡ get_or bits.now from false }
{
    let bit = bits[from];
    for k in from + 1..bits.len() {
        if bits[k] != bit {
            return k;
        }
    }
    bits.len()
}

// Puts a colour on a run where its bits are set.
#[inline(always)]
fn put_run(bit: bool, op: Op, color: Pixel, x: u32, y: u32, len: u32, plane: &mut Plane)
    requires columns { x + len ≤ plane.old.w }
    requires line { y < plane.old.h }
    requires count { plane.old.painted + len < 2 ^ 64 }
    ensures { Paints (span x y len) (λ i j value. if bit then put op color value else value) len plane.old plane.new }
{
    if bit {
        put_color(op, color, x, y, len, 1, plane);
    }
}
