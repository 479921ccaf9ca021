// A frame that was shown, and what it changed.
ghost use Rattle.std.specs.Prelude.{◌≡◌, OnOk, OnErr, length, flat_map};
ghost use Rattle.ev_port.specs.Told.{GrowsBy, GrowsPart};
ghost use Rattle.ev_port.specs.Causes.{HasCause};
ghost use Rattle.ev_model.specs.Answer.{Shown};
ghost use Rattle.ev_model.specs.Text.{update_text, reply_text};
ghost use Rattle.ev_lang.specs.ReplyParts.{heading_text};

use crate::draft::Draft;
use crate::reply::{LINE, send};
use ev_geom::Rect;
use ev_port::{Failed, Sink};

/// Frame n was shown: `shown N W H K`, and a line for each of its K updates.
pub fn write_shown<K: Sink>(
    sink: &mut K,
    n: u64,
    w: u32,
    h: u32,
    updates: &[Rect],
) -> Result<(), Failed>
    ensures ok { OnOk result (GrowsBy (K.written sink.old) (K.written sink.new) (reply_text (Shown n w h updates.now))) }
    ensures err { OnErr result (GrowsPart (K.written sink.old) (K.written sink.new) (reply_text (Shown n w h updates.now))) }
    ensures cause { HasCause (K.faults sink.old) (K.faults sink.new) result }
{
    send(sink, &heading(n, w, h, updates.len() as u64))?;
    write_updates(sink, updates)
}

#[tactic(auto, unfolding(crate::specs::ReplyParts::heading_text))]
fn heading(n: u64, w: u32, h: u32, updates: u64) -> Draft<LINE>
    ensures { result ≡ heading_text n w h updates }
{
    let mut draft = Draft::new();
    draft.push(b"shown");
    draft.number(n);
    draft.number(u64::from(w));
    draft.number(u64::from(h));
    draft.number(updates);
    draft.push(b"\n");
    draft
}

fn write_updates<K: Sink>(sink: &mut K, updates: &[Rect]) -> Result<(), Failed>
    ensures ok { OnOk result (GrowsBy (K.written sink.old) (K.written sink.new) (flat_map update_text updates.now)) }
    ensures err { OnErr result (GrowsPart (K.written sink.old) (K.written sink.new) (flat_map update_text updates.now)) }
    ensures cause { HasCause (K.faults sink.old) (K.faults sink.new) result }
{
    for change in updates {
        send(sink, &update(change))?;
    }
    Ok(())
}

fn update(area: &Rect) -> Draft<LINE>
    ensures { result ≡ update_text area.now }
{
    let mut draft = Draft::new();
    draft.push(b"update");
    draft.signed(area.x());
    draft.signed(area.y());
    draft.signed(area.w());
    draft.signed(area.h());
    draft.push(b"\n");
    draft
}
