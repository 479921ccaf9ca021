// A source in memory.
ghost use Rattle.std.specs.Prelude.{◌≡◌, ◌≤◌, length, take, min, is_err, IfOk, OnErr, Some};
ghost use Rattle.ev_port.specs.Calls.{no_calls, is_listed};
ghost use Rattle.ev_port.specs.Causes.{HasCause};
ghost use Rattle.ev_port.specs.Memory.{moved, after_read};
ghost use Rattle.ev_port.specs.Told.{ReadMoves, counted};

use crate::calls::Calls;
use crate::{Failed, Source};
use std::marker::Model;

/// A source over bytes (docs/ARCHITECTURE.md, "The outside"). It fails at the calls of `read` whose
/// numbers it was given, counted from 1, and nothing else changes then.
#[derive(Drop)]
pub struct MemSource {
    bytes: Vec<u8>,
    at: usize,
    calls: Calls,
}

impl Model for MemSource {
    ghost use Rattle.std.specs.Prelude.{◌≤◌, drop, vec_len};
    ghost use Rattle.ev_port.specs.Memory.{MemorySource};

    ghost Value = { MemorySource };

    ghost view = { λ s. record { left = drop s.at s.bytes.items; taken = s.at; calls = s.calls } };

    ghost invariant = { λ s. s.at ≤ vec_len s.bytes };
}

impl MemSource {
    /// A source that has all of these bytes left.
    pub fn new(bytes: Vec<u8>, failing: Vec<u64>) -> MemSource
        ensures { result ≡ record { left = bytes.items; taken = 0; calls = no_calls failing.items } }
    {
        MemSource {
            bytes,
            at: 0,
            calls: Calls::new(failing),
        }
    }
}

impl Source for MemSource {
    ghost left = { λ s. Some s.left };

    ghost taken = { λ s. s.taken };

    ghost faults = { λ s. s.calls.faults };

    fn read(&mut self, buf: &mut [u8]) -> Result<usize, Failed>
        ensures bound { IfOk result (λ n. n ≤ length buf.new) }
        ensures bytes { ReadMoves (Some self.old.left) (Some self.new.left) result buf.new }
        ensures count { IfOk result (λ n. self.new.taken ≡ counted self.old.taken n) }
        ensures kept { OnErr result (self.new.taken ≡ self.old.taken) }
        ensures cause { HasCause self.old.calls.faults self.new.calls.faults result }
        ensures fails { is_err result ≡ is_listed self.old.calls }
        ensures moved { IfOk result (λ n. n ≡ moved self.old (length buf.new)) }
        ensures after { self.new ≡ after_read self.old (length buf.new) }
    {
        if self.calls.is_listed() {
            self.calls.fail();
            return Err(Failed);
        }
        self.calls.pass();
        let count = copy_front(&self.bytes[self.at..], buf);
        self.at += count;
        Ok(count)
    }

    fn taken(&self) -> u64 {
        self.at as u64
    }

    fn faults(&self) -> u64 {
        self.calls.faults()
    }
}

// Copies as many of the first bytes as there is room for.
fn copy_front(from: &[u8], into: &mut [u8]) -> usize
    ensures count { result ≡ min (length into.new) (length from.now) }
    ensures bytes { take result into.new ≡ take result from.now }
{
    let count = into.len().min(from.len());
    into[..count].copy_from_slice(&from[..count]);
    count
}
