// Rows of a dump.
ghost use Rattle.std.specs.Prelude.{◌≡◌, ◌≤◌, ◌+◌, ◌++◌, [], OnOk, OnErr, length};
ghost use Rattle.ev_port.specs.Told.{GrowsBy, GrowsPart};
ghost use Rattle.ev_port.specs.Causes.{HasCause};
ghost use Rattle.ev_model.specs.Answer.{DumpRow};
ghost use Rattle.ev_model.specs.Text.{reply_text};
ghost use Rattle.ev_lang.specs.ReplyParts.{IsLaid, column_text};

use crate::draft::Draft;
use ev_argb::{MAX_SIDE, Pixel};
use ev_port::{Failed, Sink};

/// The most bytes of a row of a picture: a space and eight digits for each pixel, and the line's end.
const ROW: usize = MAX_SIDE as usize * 9 + 1;

/// One row of a dump: its pixels from the left, each as eight digits, or eight dashes where one was
/// hidden, with single spaces between them.
/// It is one call of the sink, unless there are more pixels than a picture's row has.
pub fn write_row<K: Sink>(sink: &mut K, pixels: &[Option<Pixel>]) -> Result<(), Failed>
    ensures ok { OnOk result (GrowsBy (K.written sink.old) (K.written sink.new) (reply_text (DumpRow pixels.now))) }
    ensures err { OnErr result (GrowsPart (K.written sink.old) (K.written sink.new) (reply_text (DumpRow pixels.now))) }
    ensures cause { HasCause (K.faults sink.old) (K.faults sink.new) result }
{
    let mut draft = Draft::new();
    for (x, pixel) in pixels.iter().enumerate() {
        make_room(sink, &mut draft)?;
        push_place(&mut draft, x, *pixel);
    }
    draft.push(b"\n");
    sink.write(draft.as_slice())
}

// Writes what is laid out where a pixel and the line's end find no room behind it.
fn make_room<K: Sink>(sink: &mut K, draft: &mut Draft<ROW>) -> Result<(), Failed>
    ensures room { OnOk result (length draft.new + 10 ≤ ROW) }
    ensures ok { OnOk result (IsLaid (K.written sink.old) (K.written sink.new) draft.new draft.old) }
    ensures err { OnErr result (GrowsPart (K.written sink.old) (K.written sink.new) draft.old) }
    ensures cause { HasCause (K.faults sink.old) (K.faults sink.new) result }
{
    if draft.len() <= ROW - 10 {
        return Ok(());
    }
    sink.write(draft.as_slice())?;
    draft.clear();
    Ok(())
}

// Appends the pixel in column x, with a space before it in all columns but the first.
fn push_place(draft: &mut Draft<ROW>, x: usize, pixel: Option<Pixel>)
    requires { length draft.old + 9 ≤ ROW }
    ensures text { draft.new ≡ draft.old ++ column_text x pixel }
    ensures short { length draft.new ≤ length draft.old + 9 }
{
    if x > 0 {
        draft.push(b" ");
    }
    match pixel {
        Some(pixel) => draft.pixel(pixel),
        None => draft.push(b"--------"),
    }
}
