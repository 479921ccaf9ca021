// A state on the heap that several hold, each of which may write to it as if it were alone.
ghost use Rattle.std.specs.Prelude.{◌≡◌, ℕ, ◌+◌, ◌<◌, ◌^◌, ◌⊎◌, IfOk, OnOk, OnErr, if◌then◌else◌, ◌==◌};
ghost use Rattle.std.specs.Borrow.{sem};
ghost use Rattle.ev_state.specs.Held.{Held};
ghost use Rattle.ev_state.specs.Editing.{LendsState};

use crate::{NoMemory, Tally};
use std::alloc::Global;
use std::marker::Model;
use std::sync::Arc;

/// A value that can be copied as long as there is memory.
pub trait Copied {
    /// A value that equals this one, or `NoMemory` where its parts find no room.
    fn copied(&self) -> Result<Self, NoMemory>
        ensures { IfOk result (λ copy. copy ≡ self.now) };
}

// A value with its serial.
#[derive(Drop)]
struct Numbered<T> {
    value: T,
    serial: u64,
}

/// A state that may be shared. Contracts see its value and its serial, the number by which the
/// tally counted it (docs/ARCHITECTURE.md, "States").
#[derive(Drop)]
pub struct Shared<T> {
    state: Arc<Numbered<T>, Global>,
}

impl<T> Model for Shared<T> {
    ghost use Rattle.std.specs.Arc.{arc_value};
    ghost use Rattle.ev_state.specs.Held.{Held};

    ghost Value = { Held T };

    ghost view = { λ s. record { value = (arc_value s.state).value; serial = (arc_value s.state).serial } };
}

impl<T: Drop> Shared<T> {
    /// A new state, whose serial is the tally's count just after it was made.
    /// `NoMemory` where there is no room for it; then the tally stays.
    pub fn make(alloc: Global, value: T, tally: &mut Tally) -> Result<Shared<T>, NoMemory>
        requires { tally.old < 2 ^ 63 }
        ensures ok { IfOk result (λ s. s ≡ record { value = value; serial = tally.new }) }
        ensures counted { OnOk result (tally.new ≡ tally.old + 1) }
        ensures err { OnErr result (tally.new ≡ tally.old) }
    {
        let serial = tally.count() + 1;
        let state = Arc::new(alloc, Numbered { value, serial })?;
        tally.set(serial);
        Ok(Shared { state })
    }

    /// The value, to read.
    pub fn get(&self) -> &T
        ensures { result.now ≡ self.now.value }
    {
        &self.state.value
    }

    /// The same state once more, with the same serial. It copies nothing and takes no memory;
    /// `NoMemory` stands for more shares than can be counted.
    pub fn share(&self) -> Result<Shared<T>, NoMemory>
        ensures { IfOk result (λ s. s ≡ self.now) }
    {
        let state = Arc::try_clone(&self.state)?;
        Ok(Shared { state })
    }

    // The number that the tally gave to the state.
    fn serial(&self) -> u64
        ensures { result ≡ self.now.serial }
    {
        self.state.serial
    }

    // Whether nobody else holds the state.
    fn is_sole(&self) -> bool {
        Arc::strong_count(&self.state) == 1
    }
}

impl<T: Copied + Drop> Shared<T> {
    /// The value, to write to. Where others may hold the state it is copied first, and the copy
    /// takes the tally's next number as its serial; else serial and tally stay. No other share
    /// changes. `NoMemory` where there is no room for the copy; then all stays as it was.
    pub fn edit(&mut self, alloc: Global, tally: &mut Tally) -> Result<&mut T, NoMemory>
        requires { tally.old < 2 ^ 63 }

        // Writing changes the value of this share alone: others are not behind self.
        ensures* writes_back { sem 𝓛 (LendsState T.row self.entry result (if tally.new == tally.old then self.entry.now.serial else tally.new)) }
        ensures value { IfOk result (λ x. x.now ≡ self.old.value) }
        ensures kept_or_next { (tally.new ≡ tally.old) ⊎ (tally.new ≡ tally.old + 1) }
        ensures err { OnErr result (tally.new ≡ tally.old) }
    {
        let copied = self.own(alloc)?;
        let made = tally.count() + u64::from(copied);
        let serial = if copied { made } else { self.serial() };
        match Arc::get_mut(&mut self.state) {
            Some(state) => {
                state.serial = serial;
                tally.set(made);
                Ok(&mut state.value)
            }
            None => Err(NoMemory),
        }
    }

    // Makes this the sole holder of its state. Says whether it took a copy for that.
    fn own(&mut self, alloc: Global) -> Result<bool, NoMemory>
        ensures { self.new ≡ self.old }
    {
        if self.is_sole() {
            return Ok(false);
        }
        let value = self.get().copied()?;
        let serial = self.serial();
        let state = Arc::new(alloc, Numbered { value, serial })?;
        *self = Shared { state };
        Ok(true)
    }
}
