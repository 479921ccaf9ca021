// The traits of the outside. Each object counts its faults, and what it holds it tells only optionally:
// clauses on content speak of what is told when a call ends, and that was told when the call began.
ghost use Rattle.std.specs.Prelude.{◌≡◌, ◌≤◌, ℕ, List, Option, [], ◌∷◌, length, IfOk, OnOk, OnErr};
ghost use Rattle.ev_argb.specs.Grid.{IsWhole};
ghost use Rattle.ev_port.specs.Causes.{HasCause, HasStoreCause};
ghost use Rattle.ev_port.specs.Told.{GrowsBy, GrowsPart, ReadMoves, counted};
ghost use Rattle.ev_port.specs.Files.{Fetches};
ghost use Rattle.ev_port.specs.Frame.{Frame, frame_of};
ghost use Rattle.ev_port.specs.declared.file.StoredFile.{StoredFile};

use crate::LARGEST_FILE;
use ev_argb::Picture;
use ev_geom::Rect;

/// The outside failed, and its count of faults rose, unless that stands at 2^64 - 1, where it stays.
#[derive(Clone, Copy, Debug, PartialEq, Eq)]
pub struct Failed;

/// Where a script comes from (docs/ARCHITECTURE.md, "The outside").
pub trait Source {
    /// The bytes that are left, where they are told.
    ghost left: { Self → Option (List ℕ) };

    /// How many bytes it gave so far. The number stays at 2^64 - 1.
    ghost taken: { Self → ℕ };

    /// How often it failed. The number stays at 2^64 - 1.
    ghost faults: { Self → ℕ };

    /// Moves the next bytes to the front of `buf` and answers how many they are. 0 for a `buf` that
    /// isn't empty is the end. `Failed`: the source failed, and no byte was moved.
    fn read(&mut self, buf: &mut [u8]) -> Result<usize, Failed>
        ensures bound { IfOk result (λ n. n ≤ length buf.new) }
        ensures bytes { ReadMoves (left self.old) (left self.new) result buf.new }
        ensures count { IfOk result (λ n. taken self.new ≡ counted (taken self.old) n) }
        ensures kept { OnErr result (taken self.new ≡ taken self.old) }
        ensures cause { HasCause (faults self.old) (faults self.new) result };

    /// How many bytes it gave so far.
    fn taken(&self) -> u64
        ensures { result ≡ taken self.now };

    /// How often it failed.
    fn faults(&self) -> u64
        ensures { result ≡ faults self.now };
}

/// Where a log goes (docs/ARCHITECTURE.md, "The outside").
pub trait Sink {
    /// The bytes that were written, where they are told.
    ghost written: { Self → Option (List ℕ) };

    /// How often it failed. The number stays at 2^64 - 1.
    ghost faults: { Self → ℕ };

    /// Appends the piece. `Failed`: the sink failed, and a front of the piece was appended.
    fn write(&mut self, piece: &[u8]) -> Result<(), Failed>
        ensures ok { OnOk result (GrowsBy (written self.old) (written self.new) piece.now) }
        ensures err { OnErr result (GrowsPart (written self.old) (written self.new) piece.now) }
        ensures cause { HasCause (faults self.old) (faults self.new) result };

    /// How often it failed.
    fn faults(&self) -> u64
        ensures { result ≡ faults self.now };
}

/// Why a store gave no file.
#[derive(Clone, Copy, Debug, PartialEq, Eq)]
pub enum StoreErr {
    /// No file has this key.
    Missing,
    /// The file has more than `LARGEST_FILE` bytes.
    TooLarge,
    /// The store failed, and its count of faults rose, unless that stands at 2^64 - 1, where it stays.
    Failed,
    /// The file's bytes found no memory.
    NoMemory,
}

/// Where images and fonts come from (docs/ARCHITECTURE.md, "The outside").
pub trait Store {
    /// The files, where they are told. They never change. A key that stands twice means its first file.
    ghost files: { Self → Option (List StoredFile) };

    /// How often it failed. The number stays at 2^64 - 1.
    ghost faults: { Self → ℕ };

    /// Appends the bytes of the key's file to `into`, which has to be empty and stays so at each error.
    /// `Missing`, `TooLarge`: exactly as they say, unless a fault or want of memory came first.
    /// `Failed`: the store failed. `NoMemory`: the bytes found no memory.
    fn fetch(&mut self, key: &[u8], into: &mut Vec<u8>) -> Result<(), StoreErr>
        requires { into.old.items ≡ [] }
        ensures bytes { Fetches (files self.old) key.now result into.new.items }
        ensures small { OnOk result (length into.new.items ≤ LARGEST_FILE) }
        ensures kept { OnErr result (into.new.items ≡ []) }
        ensures files { files self.new ≡ files self.old }
        ensures cause { HasStoreCause (faults self.old) (faults self.new) result };

    /// How often it failed.
    fn faults(&self) -> u64
        ensures { result ≡ faults self.now };
}

/// Where frames are shown (docs/ARCHITECTURE.md, "The outside").
pub trait Screen {
    /// The frames that were shown, where they are told.
    ghost shown: { Self → Option (List Frame) };

    /// How often it failed. The number stays at 2^64 - 1.
    ghost faults: { Self → ℕ };

    /// Shows frame n: its updates, in pixels of the frame, and its picture, which has to be whole.
    /// `Failed`: the screen failed, and nothing was shown.
    fn present(&mut self, n: u64, updates: &[Rect], picture: &Picture) -> Result<(), Failed>
        requires { IsWhole picture.now }
        ensures ok { OnOk result (GrowsBy (shown self.old) (shown self.new) (frame_of n updates.now picture.now ∷ [])) }
        ensures err { OnErr result (GrowsBy (shown self.old) (shown self.new) []) }
        ensures cause { HasCause (faults self.old) (faults self.new) result };

    /// How often it failed.
    fn faults(&self) -> u64
        ensures { result ≡ faults self.now };
}
