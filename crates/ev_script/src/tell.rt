// What the log tells of a line.
ghost use Rattle.std.specs.Prelude.{◌≡◌, [], ◌∷◌, false};
ghost use Rattle.ev_port.specs.Causes.{HasCause};
ghost use Rattle.ev_model.specs.Answer.{answer, Refused};
ghost use Rattle.ev_model.specs.Text.{text};
ghost use Rattle.ev_canvas.specs.Events.{told_event};
ghost use Rattle.ev_canvas.specs.CanvasFrames.{runs};
ghost use Rattle.ev_canvas.specs.Turns.{printed, picture_cause, rows, sums, told_flush};
ghost use Rattle.ev_script.specs.Outside.{Writes};
ghost use Rattle.ev_script.specs.LineReplies.{told};

use crate::outcome::Outcome;
use crate::picture::write_rows;
use crate::totals::Totals;
use ev_canvas::{Canvas, Event, Flushed, NoPicture};
use ev_lang::write_reply;
use ev_model::{Refusal, Reply};
use ev_port::{Failed, Sink};

/// Tells the outcome of line `number` to the log, of the canvas as the line left it, where no frame
/// is running (docs/SCRIPT.md, "The log"). Failed: the sink failed, and took a front of the
/// replies.
pub(crate) fn tell<K: Sink>(
    sink: &mut K,
    canvas: &Canvas,
    outcome: &Outcome,
    number: u64,
) -> Result<(), Failed>
    requires ended { runs canvas.now.frames.newest ≡ false }
    ensures told { Writes (K.written sink.old) (K.written sink.new)
        (text (told canvas.now number outcome.now)) result }
    ensures cause { HasCause (K.faults sink.old) (K.faults sink.new) result }
{
    let line = number;
    match outcome {
        Outcome::Bad(fault) => tell_one(
            sink,
            &Reply::Bad {
                fault: *fault,
                line,
            },
        ),
        Outcome::Done(Ok(())) => Ok(()),
        Outcome::Done(Err(cause)) => tell_refused(sink, *cause, line),
        Outcome::Flushed(flushed) => tell_flush(sink, canvas, *flushed),
        Outcome::Event(event) => tell_one(sink, &reply_of(event)),
        Outcome::Rows => tell_rows(sink, canvas, line),
        Outcome::Totals => tell_totals(sink, canvas, line),
    }
}

// One reply.
fn tell_one<K: Sink>(sink: &mut K, reply: &Reply) -> Result<(), Failed>
    ensures told { Writes (K.written sink.old) (K.written sink.new)
        (text (answer reply.now ∷ [])) result }
    ensures cause { HasCause (K.faults sink.old) (K.faults sink.new) result }
{
    write_reply(sink, reply)
}

// A refusal.
fn tell_refused<K: Sink>(sink: &mut K, cause: Refusal, line: u64) -> Result<(), Failed>
    ensures told { Writes (K.written sink.old) (K.written sink.new)
        (text (Refused cause line ∷ [])) result }
    ensures cause { HasCause (K.faults sink.old) (K.faults sink.new) result }
{
    tell_one(sink, &Reply::Refused { cause, line })
}

// The reply that tells an event.
fn reply_of(event: &Event) -> Reply<'static>
    ensures { answer result ≡ told_event event.now }
{
    match event {
        Event::Preloaded(name) => Reply::Preloaded { name: *name },
        Event::PreloadFailed { name, fault } => Reply::PreloadFailed {
            name: *name,
            fault: *fault,
        },
        Event::Cancelled(name) => Reply::Cancelled { name: *name },
    }
}

// The end of the newest start's frame.
fn tell_flush<K: Sink>(sink: &mut K, canvas: &Canvas, flushed: Flushed) -> Result<(), Failed>
    requires ended { runs canvas.now.frames.newest ≡ false }
    ensures told { Writes (K.written sink.old) (K.written sink.new)
        (text (told_flush flushed canvas.now.frames.newest)) result }
    ensures cause { HasCause (K.faults sink.old) (K.faults sink.new) result }
{
    let Ok(picture) = canvas.picture() else {
        return Ok(());
    };
    let n = canvas.frames();
    let (w, h) = (picture.width(), picture.height());
    let updates = canvas.updates();
    match flushed {
        Flushed::Shown => tell_one(sink, &Reply::Shown { n, w, h, updates }),
        Flushed::Lost { .. } => tell_one(sink, &Reply::Lost { n }),
    }
}

// The rows of the picture drawn last, with what is hidden from it, or why there is none.
fn tell_rows<K: Sink>(sink: &mut K, canvas: &Canvas, line: u64) -> Result<(), Failed>
    ensures told { Writes (K.written sink.old) (K.written sink.new)
        (text (printed rows line canvas.now.frames.newest)) result }
    ensures cause { HasCause (K.faults sink.old) (K.faults sink.new) result }
{
    match canvas.picture() {
        Ok(picture) => write_rows(sink, picture, canvas.hidden()),
        Err(cause) => tell_refused(sink, cause_of(cause), line),
    }
}

// The totals of the picture drawn last, without what is hidden from it, or why there is none.
fn tell_totals<K: Sink>(sink: &mut K, canvas: &Canvas, line: u64) -> Result<(), Failed>
    ensures told { Writes (K.written sink.old) (K.written sink.new)
        (text (printed sums line canvas.now.frames.newest)) result }
    ensures cause { HasCause (K.faults sink.old) (K.faults sink.new) result }
{
    match canvas.picture() {
        Ok(picture) => tell_one(sink, &Totals::of(picture, canvas.hidden()).reply()),
        Err(cause) => tell_refused(sink, cause_of(cause), line),
    }
}

// Why there is no picture.
fn cause_of(cause: NoPicture) -> Refusal
    ensures { result ≡ picture_cause cause }
{
    match cause {
        NoPicture::Busy => Refusal::Busy,
        NoPicture::NoFrame => Refusal::NoFrame,
    }
}
