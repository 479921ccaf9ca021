// The order in which places are painted.
ghost use Rattle.std.specs.Prelude.{◌≡◌, ◌≢◌, ℕ, true, ◌<◌, ◌++◌, ◌∷◌, [], length, All, AllPairs, OnOk, OnErr, slice_set};
ghost use Rattle.ev_damage.specs.Marked.{is_marked};
ghost use Rattle.ev_records.specs.Standing.{Rises, Stays, rank};
ghost use Rattle.ev_records.specs.Turned.{is_turned};
ghost use Rattle.ev_records.specs.Ranks.{stood_in, stands_in, have_turned, AreRanks, settled_rank, AreSettledRanks, IsNumbered, AreNumbered};

use crate::NoMemory;
use std::alloc::Global;
use std::marker::Model;

// The number of a place at the start before, and now. One that was given another number since then is moved.
#[derive(Drop)]
pub(crate) struct Rank {
    pub(crate) stood: u64,
    pub(crate) stands: u64,
    pub(crate) is_moved: bool,
}

/// Numbers of places that rise along the order in which these are painted, as they are and as they
/// were at the start before (docs/ARCHITECTURE.md, "Records").
#[derive(Drop)]
pub struct Ranks {
    ranks: Vec<Rank>,
    moved: Vec<usize>,
}

impl Model for Ranks {
    ghost use Rattle.ev_records.specs.Standing.{Standings};
    ghost use Rattle.ev_records.specs.Ranks.{AreRanks, standings};

    ghost Value = { Standings };

    ghost view = { λ r. standings r.ranks.items };

    ghost invariant = { λ r. AreRanks r.ranks.items r.moved.items };
}

impl Ranks {
    /// No places.
    pub fn new(alloc: Global) -> Ranks
        ensures { result ≡ record { stood = []; stands = [] } }
    {
        Ranks {
            ranks: Vec::new(alloc),
            moved: Vec::new(alloc),
        }
    }

    /// A number for one more place, now and at the start before. `NoMemory`: then nothing changes.
    pub fn add(&mut self, rank: u64) -> Result<(), NoMemory>
        ensures ok { OnOk result (self.new ≡ record { stood = self.old.stood ++ rank ∷ []; stands = self.old.stands ++ rank ∷ [] }) }
        ensures err { OnErr result (self.new ≡ self.old) }
    {
        self.ranks.push(Rank {
            stood: rank,
            stands: rank,
            is_moved: false,
        })?;
        Ok(())
    }

    /// A place gets this number. However often it does between two starts, it is looked at once.
    /// `NoMemory`: then nothing changes.
    pub fn place(&mut self, place: usize, rank: u64) -> Result<(), NoMemory>
        requires { place < length self.old.stands }
        ensures ok { OnOk result (self.new ≡ record self.old { stands = slice_set self.old.stands place rank }) }
        ensures err { OnErr result (self.new ≡ self.old) }
    {
        if !self.ranks[place].is_moved {
            self.moved.push(place)?;
        }
        let one = &mut self.ranks[place];
        one.stands = rank;
        one.is_moved = true;
        Ok(())
    }

    /// A start was accepted: the numbers now are from now on those of the start before.
    pub fn settle(&mut self)
        ensures { self.new ≡ record { stood = self.old.stands; stands = self.old.stands } }
    {
        settle_all(&mut self.ranks, &self.moved);
        self.moved.clear();
    }

    /// Gives the places in this order new numbers, far from one another, both now and at the start
    /// before. It is for a moment at which no place is moved: after `settle`.
    pub fn renumber(&mut self, order: &[usize])
        requires settled { self.old.stood ≡ self.old.stands }
        requires there { All (λ place. place < length self.old.stands) order.now }
        requires apart { AllPairs (λ i j. i ≢ j) order.now }
        ensures rises { Rises self.new.stands order.now }
        ensures settled { self.new.stood ≡ self.new.stands }
        ensures same { length self.new.stands ≡ length self.old.stands }
    {
        number_all(&mut self.ranks, order);
    }

    // The number of a place.
    pub(crate) fn rank(&self, place: usize) -> u64
        requires { place < length self.now.stands }
        ensures { result ≡ rank self.now.stands place }
    {
        self.ranks[place].stands
    }

    // The places that may have been given another number since the start before.
    pub(crate) fn moved(&self) -> &[usize]
        ensures stays { Stays self.now result.now }
        ensures within { (place : ℕ) → is_marked result.now place ≡ true → place < length self.now.stands }
    {
        &self.moved
    }

    // Whether two places changed their order.
    pub(crate) fn is_turned(&self, a: usize, b: usize) -> bool
        requires a { a < length self.now.stands }
        requires b { b < length self.now.stands }
        ensures { result ≡ is_turned self.now a b }
    {
        have_turned(&self.ranks[a], &self.ranks[b])
    }
}

// Whether the numbers of two changed their order.
fn have_turned(one: &Rank, other: &Rank) -> bool
    ensures { result ≡ have_turned one.now other.now }
{
    (one.stood < other.stood && other.stands < one.stands)
        || (other.stood < one.stood && one.stands < other.stands)
}

// The numbers of these places count from now on as those of the start before.
fn settle_all(ranks: &mut Vec<Rank>, moved: &[usize])
    requires are { AreRanks ranks.old.items moved.now }
    ensures { AreSettledRanks ranks.old.items ranks.new.items }
{
    for i in 0..moved.len() {
        settle(&mut ranks[moved[i]]);
    }
}

fn settle(rank: &mut Rank)
    ensures { rank.new ≡ settled_rank rank.old }
{
    rank.stood = rank.stands;
    rank.is_moved = false;
}

// The places in this order get numbers that rise, both now and at the start before.
fn number_all(ranks: &mut Vec<Rank>, order: &[usize])
    requires settled { stood_in ranks.old.items ≡ stands_in ranks.old.items }
    requires there { All (λ place. place < length ranks.old.items) order.now }
    requires apart { AllPairs (λ i j. i ≢ j) order.now }
    ensures { AreNumbered ranks.old.items order.now ranks.new.items }
{
    let gap = u64::MAX / (order.len() as u64 + 1);
    for i in 0..order.len() {
        number(ranks, order[i], (i as u64 + 1) * gap);
    }
}

// A place gets this number, both now and at the start before.
fn number(ranks: &mut Vec<Rank>, place: usize, rank: u64)
    requires { place < length ranks.old.items }
    ensures { IsNumbered ranks.old.items place rank ranks.new.items }
{
    let one = &mut ranks[place];
    one.stood = rank;
    one.stands = rank;
}
