// A line of a script, from what it does to what is told of it.
ghost use Rattle.std.specs.Prelude.{◌<◌, ◌^◌};
ghost use Rattle.ev_port.specs.Causes.{HasCause};
ghost use Rattle.ev_lang.specs.Value.{IsLine};
ghost use Rattle.ev_script.specs.Outside.{devices};
ghost use Rattle.ev_script.specs.Session.{IsReady, CarriesOut};

use crate::act::act;
use crate::tell::tell;
use ev_canvas::Canvas;
use ev_lang::Line;
use ev_port::{Failed, Screen, Sink, Store};
use std::alloc::Global;

/// Carries out line number `number` by docs/SCRIPT.md, "Commands". Failed: the sink failed within
/// the replies to this line, which is carried out all the same.
pub fn carry_out<K: Sink, T: Store, P: Screen>(
    alloc: Global,
    canvas: &mut Canvas,
    line: &Line,
    number: u64,
    sink: &mut K,
    store: &mut T,
    screen: &mut P,
) -> Result<(), Failed>
    requires within { IsLine line.now }
    requires ready { IsReady canvas.old number }
    requires few { number < 2 ^ 40 }
    requires painted { canvas.old.painted < 2 ^ 63 }
    ensures carries { CarriesOut number line.now (K.written sink.old) (K.written sink.new)
        (devices (P.shown screen.old) (P.faults screen.old) (T.files store.old)
        (T.faults store.old))
        (devices (P.shown screen.new) (P.faults screen.new) (T.files store.new)
        (T.faults store.new))
        canvas.old canvas.new result }
    ensures cause { HasCause (K.faults sink.old) (K.faults sink.new) result }
{
    let outcome = act(alloc, canvas, line, store, screen);
    tell(sink, canvas, &outcome, number)
}
