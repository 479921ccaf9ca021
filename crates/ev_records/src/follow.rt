// Numbers that follow an order of painting.
ghost use Rattle.std.specs.Prelude.{◌≡◌, ◌≢◌, ◌<◌, length, All, AllPairs, OnOk, OnErr, IfSome, slice_set};
ghost use Rattle.ev_records.specs.Standing.{Rises};

use crate::{NoMemory, Ranks};

// How far from the one below it a place gets its number where nothing bounds it from above.
const STEP: u64 = 1 << 20;

impl Ranks {
    /// Gives places other numbers where they need them, so that the numbers rise along this order. A
    /// place keeps its number if that is above those of all places before it; so one that has the
    /// number 0 gets another. Where no number is left, all places get new ones. `NoMemory`: then the
    /// numbers at the start before are as they were, and those now may be any (docs/ARCHITECTURE.md,
    /// "Records").
    pub fn follow(&mut self, order: &[usize]) -> Result<(), NoMemory>
        requires there { All (λ place. place < length self.old.stands) order.now }
        requires apart { AllPairs (λ i j. i ≢ j) order.now }
        ensures rises { OnOk result (Rises self.new.stands order.now) }
        ensures stood { self.new.stood ≡ self.old.stood }
        ensures same { length self.new.stands ≡ length self.old.stands }
    {
        let mut last = 0;
        for i in 0..order.len() {
            let Some(rank) = self.rank_above(order, i, last) else {
                return self.spread(order);
            };
            self.place_anew(order[i], rank)?;
            last = rank;
        }
        Ok(())
    }

    // Gives the places in this order numbers that lie far from one another.
    fn spread(&mut self, order: &[usize]) -> Result<(), NoMemory>
        requires there { All (λ place. place < length self.old.stands) order.now }
        requires apart { AllPairs (λ i j. i ≢ j) order.now }
        ensures rises { OnOk result (Rises self.new.stands order.now) }
        ensures stood { self.new.stood ≡ self.old.stood }
        ensures same { length self.new.stands ≡ length self.old.stands }
    {
        let gap = u64::MAX / (order.len() as u64 + 1);
        for i in 0..order.len() {
            self.place_anew(order[i], (i as u64 + 1) * gap)?;
        }
        Ok(())
    }

    // A place gets this number, if it hasn't it.
    fn place_anew(&mut self, place: usize, rank: u64) -> Result<(), NoMemory>
        requires { place < length self.old.stands }
        ensures ok { OnOk result (self.new ≡ record self.old { stands = slice_set self.old.stands place rank }) }
        ensures err { OnErr result (self.new ≡ self.old) }
    {
        if self.rank(place) == rank {
            Ok(())
        } else {
            self.place(place, rank)
        }
    }

    // A number above this one for a place of the order: its own, or one below that of the place that
    // follows it.
    fn rank_above(&self, order: &[usize], at: usize, low: u64) -> Option<u64>
        requires at { at < length order.now }
        requires there { All (λ place. place < length self.now.stands) order.now }
        ensures { IfSome result (λ rank. low < rank) }
    {
        let own = self.rank(order[at]);
        if low < own {
            return Some(own);
        }
        if at + 1 < order.len() {
            between(low, self.rank(order[at + 1]))
        } else {
            low.checked_add(STEP)
        }
    }
}

// A number above one and, if there is any, below another.
fn between(low: u64, high: u64) -> Option<u64>
    ensures { IfSome result (λ rank. low < rank) }
{
    if low < high && 1 < high - low {
        Some(low + (high - low) / 2)
    } else {
        low.checked_add(STEP)
    }
}
