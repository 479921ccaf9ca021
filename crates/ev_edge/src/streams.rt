// A source over a reader and a sink over a writer. They tell no content.
ghost use Rattle.std.specs.Prelude.{◌≡◌, ◌≤◌, length, is_err, IfOk, OnOk, OnErr, None, if◌then◌else◌};
ghost use Rattle.std.specs.Io.KnownBytes.{Appends, ReadConsumes};
ghost use Rattle.ev_port.specs.Causes.{HasCause};
ghost use Rattle.ev_port.specs.Told.{GrowsBy, GrowsPart, ReadMoves, counted};

use ev_port::{Failed, Sink, Source};
use std::io::{Read, Write};

/// A source over a reader, as standard input: `InSource::new(rt.reader())`. An error of the reader is a
/// fault (docs/ARCHITECTURE.md, "The outside").
#[derive(Drop)]
pub struct InSource<R: Read + Drop> {
    reader: R,
    taken: u64,
    faults: u64,
}

impl<R: Read + Drop> InSource<R> {
    /// A source that has given nothing yet and has not failed.
    pub fn new(reader: R) -> InSource<R>
        ensures { result ≡ record { reader = reader; taken = 0; faults = 0 } }
    {
        InSource {
            reader,
            taken: 0,
            faults: 0,
        }
    }
}

impl<R: Read + Drop> Source for InSource<R> {
    ghost left = { λ _. None };

    ghost taken = { λ s. s.taken };

    ghost faults = { λ s. s.faults };

    fn read(&mut self, buf: &mut [u8]) -> Result<usize, Failed>
        ensures bound { IfOk result (λ n. n ≤ length buf.new) }
        ensures bytes { ReadMoves None None result buf.new }
        ensures count { IfOk result (λ n. self.new.taken ≡ counted self.old.taken n) }
        ensures kept { OnErr result (self.new.taken ≡ self.old.taken) }
        ensures cause { HasCause self.old.faults self.new.faults result }
        ensures given { ReadConsumes (R.remaining self.old.reader) (R.remaining self.new.reader) result buf.new }
        ensures counted { self.new.faults ≡ (if is_err result then counted self.old.faults 1 else self.old.faults) }
    {
        match self.reader.read(buf) {
            Ok(count) => {
                self.taken = self.taken.saturating_add(count as u64);
                Ok(count)
            }
            Err(_) => {
                self.faults = self.faults.saturating_add(1);
                Err(Failed)
            }
        }
    }

    fn taken(&self) -> u64 {
        self.taken
    }

    fn faults(&self) -> u64 {
        self.faults
    }
}

/// A sink over a writer, as standard output: `OutSink::new(io::writer(&rt))`. Each piece goes out whole
/// before its call ends, and an error of the writer is a fault (docs/ARCHITECTURE.md, "The outside").
#[derive(Drop)]
pub struct OutSink<W: Write + Drop> {
    writer: W,
    faults: u64,
}

impl<W: Write + Drop> OutSink<W> {
    /// A sink that has not failed yet.
    pub fn new(writer: W) -> OutSink<W>
        ensures { result ≡ record { writer = writer; faults = 0 } }
    {
        OutSink { writer, faults: 0 }
    }
}

impl<W: Write + Drop> Sink for OutSink<W> {
    ghost written = { λ _. None };

    ghost faults = { λ s. s.faults };

    fn write(&mut self, piece: &[u8]) -> Result<(), Failed>
        ensures ok { OnOk result (GrowsBy None None piece.now) }
        ensures err { OnErr result (GrowsPart None None piece.now) }
        ensures cause { HasCause self.old.faults self.new.faults result }
        ensures given { OnOk result (Appends (W.contents self.old.writer) (W.contents self.new.writer) piece.now) }
        ensures counted { self.new.faults ≡ (if is_err result then counted self.old.faults 1 else self.old.faults) }
    {
        if self.writer.write_all(piece).is_err() || self.writer.flush().is_err() {
            self.faults = self.faults.saturating_add(1);
            return Err(Failed);
        }
        Ok(())
    }

    fn faults(&self) -> u64 {
        self.faults
    }
}
