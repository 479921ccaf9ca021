// A whole script, line by line.
ghost use Rattle.std.specs.Prelude.{◌≡◌, ◌≤◌, length, []};
ghost use Rattle.ev_port.specs.Causes.{Rose};
ghost use Rattle.ev_canvas.specs.Canvas.{opened};
ghost use Rattle.ev_script.specs.Outside.{outside, devices};
ghost use Rattle.ev_script.specs.ScreenFrames.{ShowsInOrder};
ghost use Rattle.ev_script.specs.Session.{setting};
ghost use Rattle.ev_script.specs.Play.{IsPlayedOn, IsStopped};

use crate::session::carry_out;
use ev_canvas::Canvas;
use ev_lang::{first_line, read_line};
use ev_port::{Screen, Sink, Store};
use std::alloc::Global;

/// How the lines of a script were carried out.
#[derive(Clone, Copy, Debug, PartialEq, Eq)]
pub enum Played {
    /// All of them, and the whole log was written.
    Ok,
    /// The sink failed within the replies to a line, and the lines behind it weren't begun.
    WriteFault,
}

/// Carries out the lines of a script one after another on a canvas that is as it was created
/// (docs/SCRIPT.md, docs/CANVAS.md). The script has at most 16,777,216 bytes. Afterwards the canvas
/// has the scene, the rectangles given and hidden, the starts and the loads that the lines leave,
/// its setup stays, and all its events have been taken.
pub fn play_alone<K: Sink, T: Store, P: Screen>(
    alloc: Global,
    canvas: &mut Canvas,
    script: &[u8],
    sink: &mut K,
    store: &mut T,
    screen: &mut P,
) -> Played
    requires opening { canvas.old ≡ opened canvas.old.setup }
    requires short { length script.now ≤ 16777216 }
    ensures played { result ≡ Played.Ok → IsPlayedOn canvas.new
        (setting canvas.old.setup (T.files store.old)) script.now
        (outside (K.written sink.old) (devices (P.shown screen.old) (P.faults screen.old)
        (T.files store.old) (T.faults store.old)))
        (outside (K.written sink.new) (devices (P.shown screen.new) (P.faults screen.new)
        (T.files store.new) (T.faults store.new))) }
    ensures stopped { result ≡ Played.WriteFault → IsStopped
        (setting canvas.old.setup (T.files store.old)) script.now
        (outside (K.written sink.old) (devices (P.shown screen.old) (P.faults screen.old)
        (T.files store.old) (T.faults store.old)))
        (outside (K.written sink.new) (devices (P.shown screen.new) (P.faults screen.new)
        (T.files store.new) (T.faults store.new))) }
    ensures setup { canvas.new.setup ≡ canvas.old.setup }
    ensures files { T.files store.new ≡ T.files store.old }
    ensures taken { canvas.new.events ≡ [] }
    ensures in_order { ShowsInOrder (P.shown screen.old) (P.shown screen.new) }
    ensures write_fault { result ≡ Played.WriteFault
        → Rose (K.faults sink.old) (K.faults sink.new) }
{
    let mut rest = script;
    let mut number = 1;
    while !rest.is_empty() {
        let (line, after) = first_line(rest);
        match carry_out(alloc, canvas, &read_line(line), number, sink, store, screen) {
            Ok(()) => {
                rest = after;
                number += 1;
            }
            Err(_) => return Played::WriteFault,
        }
    }
    Played::Ok
}
