// Pictures of which a part may be hidden, and what the log tells of them.
ghost use Rattle.std.specs.Prelude.{◌≡◌, ◌<◌, ◌≤◌, OnOk, OnErr, map, length};
ghost use Rattle.std.specs.List.{range_with_len};
ghost use Rattle.ev_argb.specs.Grid.{IsWhole};
ghost use Rattle.ev_port.specs.Told.{GrowsBy, GrowsPart};
ghost use Rattle.ev_port.specs.Causes.{HasCause};
ghost use Rattle.ev_model.specs.Answer.{DumpRow};
ghost use Rattle.ev_model.specs.Text.{text, reply_text};
ghost use Rattle.ev_script.specs.Dumps.{unhidden, unhidden_row, place_row};

use ev_argb::{MAX_SIDE, Picture, Pixel};
use ev_lang::write_reply;
use ev_model::Reply;
use ev_port::{Failed, Sink};
use ev_region::Region;

/// The longest row, in pixels.
pub const ROW: usize = MAX_SIDE as usize;

/// All rows of a picture, from the top, with nothing where a pixel is hidden.
pub fn write_rows<K: Sink>(sink: &mut K, picture: &Picture, hidden: &Region) -> Result<(), Failed>
    requires { IsWhole picture.now }
    ensures ok { OnOk result (GrowsBy (K.written sink.old) (K.written sink.new)
        (text (map (λ y. DumpRow (place_row hidden.now picture.now y))
        (range_with_len 0 picture.now.h)))) }
    ensures err { OnErr result (GrowsPart (K.written sink.old) (K.written sink.new)
        (text (map (λ y. DumpRow (place_row hidden.now picture.now y))
        (range_with_len 0 picture.now.h)))) }
    ensures cause { HasCause (K.faults sink.old) (K.faults sink.new) result }
{
    let mut shown = [None; ROW];
    let row = &mut shown[..picture.width() as usize];
    for y in 0..picture.height() {
        show_row(picture, hidden, y, row);
        write_row(sink, row)?;
    }
    Ok(())
}

/// Row y of a picture, from the left, with nothing where a pixel is hidden.
pub fn show_row(picture: &Picture, hidden: &Region, y: u32, places: &mut [Option<Pixel>])
    requires whole { IsWhole picture.now }
    requires row { y < picture.now.h }
    requires length { length places.old ≡ picture.now.w }
    ensures { places.new ≡ place_row hidden.now picture.now y }
{
    let mut row = [Pixel::CLEAR; ROW];
    let pixels = &mut row[..picture.width() as usize];
    picture.row(y, pixels);
    hide(pixels, hidden, y, places);
}

// The pixels of row y, with nothing where one is hidden.
fn hide(pixels: &[Pixel], hidden: &Region, y: u32, places: &mut [Option<Pixel>])
    requires row { y < 4096 }
    requires width { length pixels.now ≤ 4096 }
    requires length { length places.old ≡ length pixels.now }
    ensures { places.new ≡ unhidden_row hidden.now y pixels.now }
{
    for x in 0..places.len() {
        places[x] = unhidden(hidden, x as u32, y, pixels[x]);
    }
}

// A pixel, unless its place is hidden.
fn unhidden(hidden: &Region, x: u32, y: u32, pixel: Pixel) -> Option<Pixel>
    requires column { x < 4096 }
    requires row { y < 4096 }
    ensures { result ≡ unhidden hidden.now x y pixel }
{
    if hidden.has(x as i32, y as i32) {
        None
    } else {
        Some(pixel)
    }
}

fn write_row<K: Sink>(sink: &mut K, pixels: &[Option<Pixel>]) -> Result<(), Failed>
    ensures ok { OnOk result (GrowsBy (K.written sink.old) (K.written sink.new)
        (reply_text (DumpRow pixels.now))) }
    ensures err { OnErr result (GrowsPart (K.written sink.old) (K.written sink.new)
        (reply_text (DumpRow pixels.now))) }
    ensures cause { HasCause (K.faults sink.old) (K.faults sink.new) result }
{
    write_reply(sink, &Reply::DumpRow { pixels })
}
