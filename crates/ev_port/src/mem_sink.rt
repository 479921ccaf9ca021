// A sink in memory.
ghost use Rattle.std.specs.Prelude.{◌≡◌, [], length, is_err, IfOk, OnOk, OnErr, Some};
ghost use Rattle.ev_port.specs.Calls.{no_calls};
ghost use Rattle.ev_port.specs.Causes.{HasCause};
ghost use Rattle.ev_port.specs.Memory.{write_fails, after_write};
ghost use Rattle.ev_port.specs.Told.{GrowsBy, GrowsPart};

use crate::calls::Calls;
use crate::room::append;
use crate::{Failed, NoMemory, Sink};
use std::alloc::Global;
use std::marker::Model;

/// A sink that keeps what is written, in room that it takes when it is made (docs/ARCHITECTURE.md, The
/// outside). It fails at the calls of `write` whose numbers it was given, counted from 1, and where a
/// piece is larger than the room that is left. Nothing is appended then.
#[derive(Drop)]
pub struct MemSink {
    bytes: Vec<u8>,
    room: usize,
    calls: Calls,
}

impl Model for MemSink {
    ghost use Rattle.std.specs.Prelude.{◌+◌, ◌≤◌, vec_len, vec_capacity};
    ghost use Rattle.ev_port.specs.Memory.{MemorySink};

    ghost Value = { MemorySink };

    ghost view = { λ s. record { written = s.bytes.items; room = s.room; calls = s.calls } };

    ghost invariant = { λ s. vec_len s.bytes + s.room ≤ vec_capacity s.bytes };
}

impl MemSink {
    /// A sink with room for so many bytes. `NoMemory`: the room found no memory.
    pub fn new(alloc: Global, room: usize, failing: Vec<u64>) -> Result<MemSink, NoMemory>
        ensures { IfOk result (λ sink. sink ≡ record { written = []; room = room; calls = no_calls failing.items }) }
    {
        Ok(MemSink {
            bytes: Vec::with_capacity(alloc, room)?,
            room,
            calls: Calls::new(failing),
        })
    }

    /// What was written.
    pub fn written(&self) -> &[u8]
        ensures { result.now ≡ self.now.written }
    {
        &self.bytes
    }
}

impl Sink for MemSink {
    ghost written = { λ s. Some s.written };

    ghost faults = { λ s. s.calls.faults };

    fn write(&mut self, piece: &[u8]) -> Result<(), Failed>
        ensures ok { OnOk result (GrowsBy (Some self.old.written) (Some self.new.written) piece.now) }
        ensures err { OnErr result (GrowsPart (Some self.old.written) (Some self.new.written) piece.now) }
        ensures cause { HasCause self.old.calls.faults self.new.calls.faults result }
        ensures fails { is_err result ≡ write_fails self.old piece.now }
        ensures after { self.new ≡ after_write self.old piece.now }
    {
        if self.calls.is_listed() || self.room < piece.len() {
            self.calls.fail();
            return Err(Failed);
        }
        self.calls.pass();
        append(&mut self.bytes, piece);
        self.room -= piece.len();
        Ok(())
    }

    fn faults(&self) -> u64 {
        self.calls.faults()
    }
}
