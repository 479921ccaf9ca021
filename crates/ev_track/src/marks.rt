// Marks of places.
ghost use Rattle.std.specs.Prelude.{◌≡◌, ℕ, ◌≤◌, ◌<◌, true, false, if◌then◌else◌, ◌==◌, length, OnOk, OnErr, [], Some, None};
ghost use Rattle.ev_track.specs.Marked.{is_marked, Covers, Finds};

use crate::NoMemory;
use std::alloc::Global;
use std::marker::Model;

// So many places lie in one group.
const GROUP: usize = 64;

/// Marks of places. To mark takes no memory, and to find the next mark costs a look at each group of
/// 64 places on the way to it.
#[derive(Drop)]
pub struct Marks {
    places: Vec<bool>,
    // Whether a group may have a mark.
    groups: Vec<bool>,
}

impl Model for Marks {
    ghost use Rattle.std.specs.Prelude.{List, Bool};
    ghost use Rattle.ev_track.specs.Marked.{Covers};

    ghost Value = { List Bool };

    ghost view = { λ m. m.places.items };

    ghost invariant = { λ m. Covers m.places.items m.groups.items };
}

impl Marks {
    /// No places.
    pub fn new(alloc: Global) -> Marks
        ensures { result ≡ [] }
    {
        Marks {
            places: Vec::new(alloc),
            groups: Vec::new(alloc),
        }
    }

    /// How many places there are.
    pub fn len(&self) -> usize
        ensures { result ≡ length self.now }
    {
        self.places.len()
    }

    /// At least so many places. Those that are new have no mark. `NoMemory`: then no mark is lost.
    pub fn grow(&mut self, places: usize) -> Result<(), NoMemory>
        ensures ok { OnOk result (places ≤ length self.new) }
        ensures marks { (place : ℕ) → is_marked self.new place ≡ is_marked self.old place }
        ensures kept { length self.old ≤ length self.new }
    {
        lengthen(&mut self.groups, places / GROUP + 1)?;
        lengthen(&mut self.places, places)
    }

    /// Marks a place.
    pub fn mark(&mut self, place: usize)
        requires { place < length self.old }
        ensures marks { (other : ℕ) → is_marked self.new other ≡ (if other == place then true else is_marked self.old other) }
        ensures len { length self.new ≡ length self.old }
    {
        self.groups[place / GROUP] = true;
        self.places[place] = true;
    }

    /// The first place from here on that has a mark, if there is one.
    pub fn next(&self, from: usize) -> Option<usize>
        ensures { Finds self.now from result }
    {
        let mut place = from;
        while place < self.places.len() {
            if !self.groups[place / GROUP] {
                place = (place / GROUP + 1) * GROUP;
            } else if self.places[place] {
                return Some(place);
            } else {
                place += 1;
            }
        }
        None
    }

    /// Takes away all marks.
    pub fn clear(&mut self)
        ensures marks { (place : ℕ) → is_marked self.new place ≡ false }
        ensures len { length self.new ≡ length self.old }
    {
        let mut from = 0;
        while let Some(place) = self.next(from) {
            self.places[place] = false;
            from = place + 1;
        }
        self.groups.fill(false);
    }
}

// So many of them, those that are new without a mark.
fn lengthen(marks: &mut Vec<bool>, len: usize) -> Result<(), NoMemory>
    ensures ok { OnOk result (len ≤ length marks.new.items) }
    ensures marks { (place : ℕ) → is_marked marks.new.items place ≡ is_marked marks.old.items place }
    ensures kept { length marks.old.items ≤ length marks.new.items }
    ensures most { (n : ℕ) → length marks.old.items ≤ n → len ≤ n → length marks.new.items ≤ n }
{
    if marks.len() < len {
        marks.resize(len, false)?;
    }
    Ok(())
}
