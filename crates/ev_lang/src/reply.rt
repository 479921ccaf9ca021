// Replies, written to the log by one call of the sink a line.
ghost use Rattle.std.specs.Prelude.{◌≡◌, ◌≤◌, ◌+◌, ◌++◌, OnOk, OnErr, length};
ghost use Rattle.ev_port.specs.Told.{GrowsBy, GrowsPart};
ghost use Rattle.ev_port.specs.Causes.{HasCause};
ghost use Rattle.ev_model.specs.Answer.{answer, Started, Pending, Lost, Stepped, Served, Preloaded, PreloadFailed, Cancelled, Idle, Sum, Stats, Bad, Refused};
ghost use Rattle.ev_model.specs.Text.{fault_text, reply_text};

use crate::causes::{bad_word, font_word, image_word, refusal_word};
use crate::draft::Draft;
use crate::row::write_row;
use crate::shown::write_shown;
use ev_model::{BadLine, LoadFault, Name, Refusal, Reply};
use ev_port::{Failed, Sink};

/// The most bytes of a line that isn't a row of a dump.
pub const LINE: usize = 256;

/// Writes the text of a reply (docs/SCRIPT.md, "The log"): one call of the sink a line, but for rows
/// of more than 4,096 pixels, which take more. `Failed`: the sink failed, and a front of the text was
/// written.
pub fn write_reply<K: Sink>(sink: &mut K, reply: &Reply) -> Result<(), Failed>
    ensures ok { OnOk result (GrowsBy (K.written sink.old) (K.written sink.new) (reply_text (answer reply.now))) }
    ensures err { OnErr result (GrowsPart (K.written sink.old) (K.written sink.new) (reply_text (answer reply.now))) }
    ensures cause { HasCause (K.faults sink.old) (K.faults sink.new) result }
{
    match reply {
        Reply::Started { n, tiles } => send(sink, &started(*n, *tiles)),
        Reply::Pending { n, done, tiles } => send(sink, &pending(*n, *done, *tiles)),
        Reply::Shown { n, w, h, updates } => write_shown(sink, *n, *w, *h, updates),
        Reply::Lost { n } => send(sink, &lost(*n)),
        Reply::Stepped { drawn } => send(sink, &stepped(*drawn)),
        Reply::Served { name } => send(sink, &served(*name)),
        Reply::Preloaded { name } => send(sink, &preloaded(*name)),
        Reply::PreloadFailed { name, fault } => send(sink, &preload_failed(*name, *fault)),
        Reply::Cancelled { name } => send(sink, &cancelled(*name)),
        Reply::Idle => sink.write(b"idle\n"),
        Reply::DumpRow { pixels } => write_row(sink, pixels),
        Reply::Sum { a, r, g, b, p } => send(sink, &sum(*a, *r, *g, *b, *p)),
        Reply::Stats { painted, made } => send(sink, &stats(*painted, *made)),
        Reply::Bad { fault, line } => send(sink, &bad(*fault, *line)),
        Reply::Refused { cause, line } => send(sink, &refused(*cause, *line)),
    }
}

/// Writes a line that is laid out.
pub fn send<K: Sink>(sink: &mut K, draft: &Draft<LINE>) -> Result<(), Failed>
    ensures ok { OnOk result (GrowsBy (K.written sink.old) (K.written sink.new) draft.now) }
    ensures err { OnErr result (GrowsPart (K.written sink.old) (K.written sink.new) draft.now) }
    ensures cause { HasCause (K.faults sink.old) (K.faults sink.new) result }
{
    sink.write(draft.as_slice())
}

fn started(n: u64, tiles: u32) -> Draft<LINE>
    ensures { result ≡ reply_text (Started n tiles) }
{
    let mut draft = Draft::new();
    draft.push(b"started");
    draft.number(n);
    draft.number(u64::from(tiles));
    draft.push(b"\n");
    draft
}

fn pending(n: u64, done: u64, tiles: u64) -> Draft<LINE>
    ensures { result ≡ reply_text (Pending n done tiles) }
{
    let mut draft = Draft::new();
    draft.push(b"pending");
    draft.number(n);
    draft.number(done);
    draft.number(tiles);
    draft.push(b"\n");
    draft
}

fn lost(n: u64) -> Draft<LINE>
    ensures { result ≡ reply_text (Lost n) }
{
    let mut draft = Draft::new();
    draft.push(b"lost");
    draft.number(n);
    draft.push(b"\n");
    draft
}

fn stepped(drawn: u32) -> Draft<LINE>
    ensures { result ≡ reply_text (Stepped drawn) }
{
    let mut draft = Draft::new();
    draft.push(b"stepped");
    draft.number(u64::from(drawn));
    draft.push(b"\n");
    draft
}

fn served(name: Name) -> Draft<LINE>
    ensures { result ≡ reply_text (Served name) }
{
    let mut draft = Draft::new();
    draft.push(b"served ");
    draft.push(name.bytes());
    draft.push(b"\n");
    draft
}

fn preloaded(name: Name) -> Draft<LINE>
    ensures { result ≡ reply_text (Preloaded name) }
{
    let mut draft = Draft::new();
    draft.push(b"preloaded ");
    draft.push(name.bytes());
    draft.push(b"\n");
    draft
}

fn preload_failed(name: Name, fault: LoadFault) -> Draft<LINE>
    ensures { result ≡ reply_text (PreloadFailed name fault) }
{
    let mut draft = Draft::new();
    draft.push(b"preload-failed ");
    draft.push(name.bytes());
    draft.push(b" ");
    push_fault(&mut draft, fault);
    draft.push(b"\n");
    draft
}

// Appends why a load gave nothing.
fn push_fault(draft: &mut Draft<LINE>, fault: LoadFault)
    requires { length draft.old + 64 ≤ LINE }
    ensures text { draft.new ≡ draft.old ++ fault_text fault }
    ensures short { length draft.new ≤ length draft.old + 64 }
{
    match fault {
        LoadFault::Store => draft.push(b"store"),
        LoadFault::Missing => draft.push(b"missing"),
        LoadFault::Large => draft.push(b"large"),
        LoadFault::Image { kind, at } => {
            draft.push(b"image ");
            draft.push(image_word(kind));
            draft.number(at);
        }
        LoadFault::Font { kind, at } => {
            draft.push(b"font ");
            draft.push(font_word(kind));
            draft.number(at);
        }
        LoadFault::Memory => draft.push(b"memory"),
    }
}

fn cancelled(name: Name) -> Draft<LINE>
    ensures { result ≡ reply_text (Cancelled name) }
{
    let mut draft = Draft::new();
    draft.push(b"cancelled ");
    draft.push(name.bytes());
    draft.push(b"\n");
    draft
}

fn sum(a: u64, r: u64, g: u64, b: u64, p: u64) -> Draft<LINE>
    ensures { result ≡ reply_text (Sum a r g b p) }
{
    let mut draft = Draft::new();
    draft.push(b"sum");
    draft.number(a);
    draft.number(r);
    draft.number(g);
    draft.number(b);
    draft.number(p);
    draft.push(b"\n");
    draft
}

fn stats(painted: u64, made: u64) -> Draft<LINE>
    ensures { result ≡ reply_text (Stats painted made) }
{
    let mut draft = Draft::new();
    draft.push(b"stats");
    draft.number(painted);
    draft.number(made);
    draft.push(b"\n");
    draft
}

fn bad(fault: BadLine, line: u64) -> Draft<LINE>
    ensures { result ≡ reply_text (Bad fault line) }
{
    let mut draft = Draft::new();
    draft.push(b"bad ");
    draft.push(bad_word(fault));
    draft.number(line);
    draft.push(b"\n");
    draft
}

fn refused(cause: Refusal, line: u64) -> Draft<LINE>
    ensures { result ≡ reply_text (Refused cause line) }
{
    let mut draft = Draft::new();
    draft.push(b"refused ");
    draft.push(refusal_word(cause));
    draft.number(line);
    draft.push(b"\n");
    draft
}
