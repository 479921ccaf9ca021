// A count of states. Clauses see it as a number.
ghost use Rattle.std.specs.Prelude.{◌≡◌};

use std::marker::Model;

/// How many states were made. A session keeps one for all of its states.
#[derive(Debug, Drop)]
pub struct Tally {
    count: u64,
}

impl Model for Tally {
    ghost use Rattle.std.specs.Prelude.{ℕ};

    ghost Value = { ℕ };

    ghost view = { λ t. t.count };
}

impl Tally {
    /// A tally that stands at 0.
    pub fn new() -> Tally
        ensures { result ≡ 0 }
    {
        Tally { count: 0 }
    }

    /// How many states were made so far.
    pub fn count(&self) -> u64
        ensures { result ≡ self.now }
    {
        self.count
    }

    // Lets the tally stand at this number.
    pub(crate) fn set(&mut self, count: u64)
        ensures { self.new ≡ count }
    {
        self.count = count;
    }
}
