// Lines, each carried out on a canvas.
ghost use Rattle.std.specs.Prelude.{◌≡◌, ◌<◌, ◌^◌, ℕ, List, Option};
ghost use Rattle.ev_port.specs.Frame.{Frame};
ghost use Rattle.ev_port.specs.declared.file.StoredFile.{StoredFile};
ghost use Rattle.ev_model.specs.Limits.{IsCommand};
ghost use Rattle.ev_model.specs.declared.command.Command.TheVariants as command;
ghost use Rattle.ev_lang.specs.Value.{IsLine};
ghost use Rattle.ev_lang.specs.declared.line.Line.TheVariants as line;
ghost use Rattle.ev_canvas.specs.Turns.{start_refusal};
ghost use Rattle.ev_script.specs.Outside.{devices};
ghost use Rattle.ev_script.specs.Session.{IsReady, Acts};

use crate::outcome::Outcome;
use ev_canvas::{Canvas, StartErr};
use ev_lang::Line;
use ev_model::{BadLine, Command, Name, Refusal};
use ev_port::{Screen, Store};
use ev_preload::load_one;
use std::alloc::Global;

/// Carries out a line by docs/SCRIPT.md, "Commands", and gives what is to be told of it.
pub(crate) fn act<T: Store, P: Screen>(
    alloc: Global,
    canvas: &mut Canvas,
    line: &Line,
    store: &mut T,
    screen: &mut P,
) -> Outcome
    requires within { IsLine line.now }
    requires ready { IsReady canvas.old (2 ^ 40) }
    requires painted { canvas.old.painted < 2 ^ 63 }
    ensures { Acts line.now
        (devices (P.shown screen.old) (P.faults screen.old) (T.files store.old)
        (T.faults store.old))
        (devices (P.shown screen.new) (P.faults screen.new) (T.files store.new)
        (T.faults store.new))
        canvas.old canvas.new result }
{
    match line {
        Line::Empty => Outcome::Done(Ok(())),
        Line::Bad(fault) => Outcome::Bad(*fault),
        Line::Command(command) => obey(alloc, canvas, command, store, screen),
    }
}

// Carries out a command.
fn obey<T: Store, P: Screen>(
    alloc: Global,
    canvas: &mut Canvas,
    command: &Command,
    store: &mut T,
    screen: &mut P,
) -> Outcome
    requires within { IsCommand command.now }
    requires ready { IsReady canvas.old (2 ^ 40) }
    requires painted { canvas.old.painted < 2 ^ 63 }
    ensures { Acts (line.Command command.now)
        (devices (P.shown screen.old) (P.faults screen.old) (T.files store.old)
        (T.faults store.old))
        (devices (P.shown screen.new) (P.faults screen.new) (T.files store.new)
        (T.faults store.new))
        canvas.old canvas.new result }
{
    match command {
        Command::Edit(edit) => Outcome::Done(canvas.edit(edit)),
        Command::Damage { x, y, w, h } => Outcome::Done(canvas.damage(*x, *y, *w, *h)),
        Command::HideArea { x, y, w, h } => Outcome::Done(canvas.hide_area(*x, *y, *w, *h)),
        Command::ClearAreas => {
            canvas.clear_areas();
            Outcome::Done(Ok(()))
        }
        Command::Load(name) => load(alloc, canvas, name, store),
        Command::Render => render(canvas, screen),
        Command::Dump => Outcome::Rows,
        Command::Sum => Outcome::Totals,
        Command::Preload(_)
        | Command::Cancel(_)
        | Command::Serve
        | Command::Start
        | Command::Step { .. }
        | Command::Poll
        | Command::Wait
        | Command::Stats => Outcome::Bad(BadLine::Word),
    }
}

// A load for the object of a name, from its beginning to its end.
fn load<T: Store>(alloc: Global, canvas: &mut Canvas, name: &Name, store: &mut T) -> Outcome
    requires ready { IsReady canvas.old (2 ^ 40) }
    ensures { (frames : Option (List Frame)) (faults : ℕ)
        → Acts (line.Command (command.Load name.now))
        (devices frames faults (T.files store.old) (T.faults store.old))
        (devices frames faults (T.files store.new) (T.faults store.new))
        canvas.old canvas.new result }
{
    let job = match canvas.preload(name) {
        Ok(job) => job,
        Err(cause) => return Outcome::Done(Err(cause)),
    };
    let end = load_one(alloc, store, &job);
    let number = job.number();
    canvas.hold(number, end);
    canvas.collect(number);
    let Some(event) = canvas.next_event() else {
        unreachable!()
    };
    Outcome::Event(event)
}

// A frame that is started, drawn and flushed.
fn render<P: Screen>(canvas: &mut Canvas, screen: &mut P) -> Outcome
    requires ready { IsReady canvas.old (2 ^ 40) }
    requires painted { canvas.old.painted < 2 ^ 63 }
    ensures { (files : Option (List StoredFile)) (faults : ℕ)
        → Acts (line.Command command.Render)
        (devices (P.shown screen.old) (P.faults screen.old) files faults)
        (devices (P.shown screen.new) (P.faults screen.new) files faults)
        canvas.old canvas.new result }
{
    match canvas.start() {
        Ok(_) => {
            canvas.step(u32::MAX);
            Outcome::Flushed(canvas.flush(screen))
        }
        Err(cause) => Outcome::Done(Err(refusal_of(cause))),
    }
}

// Why a start was refused.
fn refusal_of(cause: StartErr) -> Refusal
    ensures { result ≡ start_refusal cause }
{
    match cause {
        StartErr::Busy => Refusal::Busy,
        StartErr::NoMemory => Refusal::NoMemory,
    }
}
