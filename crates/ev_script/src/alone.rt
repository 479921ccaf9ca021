// The top call on one thread.
ghost use Rattle.std.specs.Prelude.{◌≡◌, ◌≤◌, ◌<◌, ◌^◌, false, true, not, length};
ghost use Rattle.ev_port.specs.Causes.{Rose};
ghost use Rattle.ev_script.specs.Outside.{outside, devices};
ghost use Rattle.ev_script.specs.ScreenFrames.{ShowsInOrder};
ghost use Rattle.ev_script.specs.Play.{IsPlayed, IsStopped, OfScript};
ghost use Rattle.ev_script.specs.Session.{setting};
ghost use Rattle.ev_script.specs.Options.{are_pairs, options_of, setup_of};
ghost use Rattle.ev_script.specs.Status.{is_before_lines, is_too_long, is_usage, Takes, IsFine, texts};

use crate::script::{Played, play_alone};
use crate::source::{ReadError, read_script};
use crate::words::{Options, are_pairs, options_of};
use ev_canvas::{Canvas, Setup};
use ev_port::{Screen, Sink, Source, Store};
use std::alloc::Global;

/// How a run ended (docs/SCRIPT.md, "Statuses").
#[derive(Clone, Copy, Debug, PartialEq, Eq)]
pub enum Status {
    /// The script was carried out, and its whole log was written.
    Ok,
    /// The words of the run aren't ones that it takes.
    Usage,
    /// The source failed.
    ReadFault,
    /// The sink failed.
    WriteFault,
    /// There was no room for the script.
    NoMemory,
    /// The script has more than 16,777,216 bytes.
    TooLong,
}

/// Reads a script from the source to its end, carries out its lines one after another, writes its
/// log to the sink and shows its frames on the screen; images and fonts come from the store
/// (docs/SCRIPT.md, docs/CANVAS.md). `words` are those of the command line. Of these `--cell` and
/// `--buffers` have their effect; whatever they say of workers, the caller itself draws all tiles.
pub fn run_alone<S: Source, K: Sink, T: Store, P: Screen>(
    alloc: Global,
    words: &[&str],
    source: &mut S,
    sink: &mut K,
    store: &mut T,
    screen: &mut P,
) -> Status
    ensures played { result ≡ Status.Ok → OfScript
        (IsPlayed (setting (setup_of (options_of (texts words.now))) (T.files store.old)))
        (S.left source.old) (S.left source.new)
        (outside (K.written sink.old) (devices (P.shown screen.old) (P.faults screen.old)
        (T.files store.old) (T.faults store.old)))
        (outside (K.written sink.new) (devices (P.shown screen.new) (P.faults screen.new)
        (T.files store.new) (T.faults store.new))) }
    ensures stopped { result ≡ Status.WriteFault → OfScript
        (IsStopped (setting (setup_of (options_of (texts words.now))) (T.files store.old)))
        (S.left source.old) (S.left source.new)
        (outside (K.written sink.old) (devices (P.shown screen.old) (P.faults screen.old)
        (T.files store.old) (T.faults store.old)))
        (outside (K.written sink.new) (devices (P.shown screen.new) (P.faults screen.new)
        (T.files store.new) (T.faults store.new))) }
    ensures in_order { ShowsInOrder (P.shown screen.old) (P.shown screen.new) }
    ensures usage { is_usage result ≡ not (are_pairs (texts words.now)) }
    ensures read_fault { result ≡ Status.ReadFault
        → Rose (S.faults source.old) (S.faults source.new) }
    ensures write_fault { result ≡ Status.WriteFault
        → Rose (K.faults sink.old) (K.faults sink.new) }
    ensures too_long { Takes (S.taken source.old) (S.taken source.new) (is_too_long result) }
    ensures unread { result ≡ Status.Usage → source.new ≡ source.old }
    ensures unwritten { is_before_lines result ≡ true → sink.new ≡ sink.old }
    ensures unshown { is_before_lines result ≡ true → screen.new ≡ screen.old }
    ensures unfetched { is_before_lines result ≡ true → store.new ≡ store.old }
    ensures complete { are_pairs (texts words.now) ≡ true
        → ¬ Rose (S.faults source.old) (S.faults source.new)
        → ¬ Rose (K.faults sink.old) (K.faults sink.new) → is_too_long result ≡ false
        → IsFine result }
{
    if !are_pairs(words) {
        return Status::Usage;
    }
    let options = options_of(words);
    match read_script(alloc, source) {
        Ok(script) => play_on_new(alloc, options, &script, sink, store, screen),
        Err(ReadError::Failed) => Status::ReadFault,
        Err(ReadError::TooLong) => Status::TooLong,
        Err(ReadError::NoMemory) => Status::NoMemory,
    }
}

// Carries out a script on a canvas that is made for it.
fn play_on_new<K: Sink, T: Store, P: Screen>(
    alloc: Global,
    options: Options,
    script: &[u8],
    sink: &mut K,
    store: &mut T,
    screen: &mut P,
) -> Status
    requires cell_low { 1 ≤ options.cell }
    requires cell_high { options.cell ≤ 64 }
    requires buffers_low { 1 ≤ options.buffers }
    requires buffers_high { options.buffers ≤ 3 }
    requires short { length script.now ≤ 16777216 }
    ensures played { result ≡ Status.Ok → IsPlayed
        (setting (setup_of options) (T.files store.old)) script.now
        (outside (K.written sink.old) (devices (P.shown screen.old) (P.faults screen.old)
        (T.files store.old) (T.faults store.old)))
        (outside (K.written sink.new) (devices (P.shown screen.new) (P.faults screen.new)
        (T.files store.new) (T.faults store.new))) }
    ensures stopped { result ≡ Status.WriteFault → IsStopped
        (setting (setup_of options) (T.files store.old)) script.now
        (outside (K.written sink.old) (devices (P.shown screen.old) (P.faults screen.old)
        (T.files store.old) (T.faults store.old)))
        (outside (K.written sink.new) (devices (P.shown screen.new) (P.faults screen.new)
        (T.files store.new) (T.faults store.new))) }
    ensures in_order { ShowsInOrder (P.shown screen.old) (P.shown screen.new) }
    ensures usage { is_usage result ≡ false }
    ensures too_long { is_too_long result ≡ false }
    ensures read_fault { ¬ (result ≡ Status.ReadFault) }
    ensures write_fault { result ≡ Status.WriteFault
        → Rose (K.faults sink.old) (K.faults sink.new) }
    ensures unwritten { is_before_lines result ≡ true → sink.new ≡ sink.old }
    ensures unshown { is_before_lines result ≡ true → screen.new ≡ screen.old }
    ensures unfetched { is_before_lines result ≡ true → store.new ≡ store.old }
    ensures complete { ¬ Rose (K.faults sink.old) (K.faults sink.new) → IsFine result }
{
    let Ok(mut canvas) = Canvas::create(alloc, setup_of(options)) else {
        return Status::NoMemory;
    };
    match play_alone(alloc, &mut canvas, script, sink, store, screen) {
        Played::Ok => Status::Ok,
        Played::WriteFault => Status::WriteFault,
    }
}

// The canvas that options set up.
fn setup_of(options: Options) -> Setup
    ensures { result ≡ setup_of options }
{
    Setup {
        buffers: options.buffers,
        cell: options.cell,
    }
}
