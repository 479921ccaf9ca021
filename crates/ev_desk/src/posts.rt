//! A seat at the desk's table, as the asker and the loader have one.
ghost use Rattle.std.specs.Prelude.{◌≡◌, ◌*◌, ◌<◌, None};
ghost use Rattle.std.specs.Arc.{arc_value};
ghost use Rattle.ev_desk.specs.DeskSlots.{carried_by, end_word, place_of};

use crate::NoMemory;
use crate::errand::Errand;
use crate::plays::{
    Counting, Emptying, Ending, Errands, Freeing, Homing, Leaving, Looking, Parting, Returning,
    Ringing, Shutting, Trying, Withdrawing,
};
use crate::view::{Entry, View};
use atomic_table::{Seat, Table};
use ev_seats::low_bits;
use std::alloc::Global;
use std::sync::{Arc, Wait};

pub(crate) type Slot<J, E> = Option<Entry<J, E>>;

pub(crate) type Board<J, E> = Table<Slot<J, E>, View<J>, (), Errands, Global>;

/// How many places a desk has.
pub(crate) const PLACES: usize = 64;

// The words of the places lie 64 bytes apart, so that the asker at one place and the loader at another do not disturb each
// other. After them comes the bell. No rule speaks of it. It changes with each job that is left and with the close, so that
// a loader that rests on it misses none.
pub(crate) const WORDS: usize = 513;

const BELL: usize = 512;

fn word_index(place: usize) -> usize
    requires { place < 64 }
    ensures at { result ≡ place * 8 }
    ensures back { place_of result ≡ place }
{
    place * 8
}

// What the word of a place says.
const FREE: u64 = 0;

const ASKED: u64 = 1;

const TAKEN: u64 = 2;

const ENDED: u64 = 3;

pub(crate) const CLOSED: u64 = 4;

const FAULT: u64 = 5;

// The word of a place where this end lies.
fn word_of_end<J: Errand<E>, E: Drop>(end: &E) -> u64
    ensures { result ≡ end_word (J.faulty end.now) }
{
    if J::faulted(end) { FAULT } else { ENDED }
}

/// A seat at the table, with the table.
#[derive(Drop)]
pub struct Post<J: Errand<E>, E: Drop> {
    pub(crate) table: Arc<Board<J, E>, Global>,
    pub(crate) seat: Seat<Slot<J, E>, View<J>>,
    ghost word_count: { (arc_value table).shared.table_id.words ≡ 513 },
    ghost seated: { seat.table_id ≡ (arc_value table).shared.table_id },
    ghost carries: { seat.me.1 ≡ carried_by seat.me.0.counts.loader.held },
    ghost none_out: { seat.me.0.out ≡ None },
}

impl<J: Errand<E>, E: Drop> Post<J, E> {
    ghost use Rattle.std.specs.Prelude.{◌≤◌, Some, IfOk, MatchResult};
    ghost use Rattle.ev_desk.specs.declared.view.Role.TheVariants.{Asker, Loader};
    ghost use Rattle.ev_desk.specs.declared.view.Stage.TheVariants.{Free, Asked, Closed};
    ghost use Rattle.ev_desk.specs.DeskSeen.{IsSamePost, post_view};
    ghost use Rattle.ev_desk.specs.DeskSays.{stage_at, asked_at, Attempts, Ends, Backs};
    ghost use Rattle.ev_desk.specs.DeskSlots.{loader_view as new_loader_view};
    ghost use Rattle.ev_desk.specs.DeskSteps.{staged, ended_with};
    ghost use Rattle.ev_desk.specs.DeskMoves.{counting, doing, parted, both};

    /// Leaves a job at a free place.
    pub(crate) fn leave(&mut self, place: usize, job: J)
        requires asker { (post_view self.old).counts.role ≡ Asker }
        requires small { place < 64 }
        requires free { stage_at place (post_view self.old) ≡ Free }
        ensures post { IsSamePost self.old self.new }
        ensures view { post_view self.new ≡ asked_at place job (post_view self.old) }
    {
        let word = word_index(place);
        let shared = &self.table.shared;
        shared.load::<Emptying>(&mut self.seat, word);
        let entry = Some(Entry::Waiting { job });
        drop(shared.exchange(&mut self.seat, place, entry));
        shared.store::<Leaving>(&mut self.seat, word, ASKED);
        self.ring_bell();
    }

    /// Takes the end of a job that was asked, or tells the word of its place.
    pub(crate) fn collect(&mut self, place: usize) -> Result<(J, E), u64>
        requires asker { (post_view self.old).counts.role ≡ Asker }
        requires small { place < 64 }
        requires asked { stage_at place (post_view self.old) ≡ Asked }
        ensures post { IsSamePost self.old self.new }
        ensures answer { Ends J.belongs J.faulty place (post_view self.old) result (post_view self.new) }
    {
        let word = word_index(place);
        let shared = &self.table.shared;
        let found = shared.load::<Looking>(&mut self.seat, word);
        if found < ENDED {
            return Err(found);
        }
        let entry = shared.exchange(&mut self.seat, place, None);
        shared.store::<Freeing>(&mut self.seat, word, FREE);
        match entry {
            Some(Entry::Finished { job, end }) => Ok((job, end)),
            _ => unreachable!(),
        }
    }

    /// Takes a job back that still waits, or tells the word of its place.
    pub(crate) fn withdraw(&mut self, place: usize) -> Result<J, u64>
        requires asker { (post_view self.old).counts.role ≡ Asker }
        requires small { place < 64 }
        requires asked { stage_at place (post_view self.old) ≡ Asked }
        ensures post { IsSamePost self.old self.new }
        ensures answer { Backs place (post_view self.old) result (post_view self.new) }
    {
        let word = word_index(place);
        let shared = &self.table.shared;
        let found = shared.compare_exchange::<Withdrawing>(&mut self.seat, word, ASKED, FREE);
        if found != ASKED {
            return Err(found);
        }
        let entry = shared.exchange(&mut self.seat, place, None);
        shared.load::<Returning>(&mut self.seat, word);
        match entry {
            Some(Entry::Waiting { job }) => Ok(job),
            _ => unreachable!(),
        }
    }

    /// Closes a free place.
    pub(crate) fn shut(&mut self, place: usize)
        requires asker { (post_view self.old).counts.role ≡ Asker }
        requires small { place < 64 }
        requires free { stage_at place (post_view self.old) ≡ Free }
        ensures post { IsSamePost self.old self.new }
        ensures view { post_view self.new ≡ counting (post_view self.old) (staged place Closed (post_view self.old).counts) }
    {
        let word = word_index(place);
        let shared = &self.table.shared;
        shared.store::<Shutting>(&mut self.seat, word, CLOSED);
    }

    /// Tries to take the job of this place, or tells the word that it found there.
    pub(crate) fn attempt(&mut self, place: usize) -> Result<J, u64>
        requires loader { (post_view self.old).counts.role ≡ Loader }
        requires small { place < 64 }
        requires free { (post_view self.old).counts.loader.held ≡ None }
        ensures post { IsSamePost self.old self.new }
        ensures answer { Attempts place (post_view self.old) result (post_view self.new) }
    {
        let word = word_index(place);
        let shared = &self.table.shared;
        let found = shared.compare_exchange::<Trying>(&mut self.seat, word, ASKED, TAKEN);
        if found != ASKED {
            return Err(found);
        }
        let entry = shared.exchange(&mut self.seat, place, None);
        match entry {
            Some(Entry::Waiting { job }) => Ok(job),
            _ => unreachable!(),
        }
    }

    /// Gives the place that it holds back with the end of its job.
    pub(crate) fn finish(&mut self, place: usize, job: J, end: E)
        requires loader { (post_view self.old).counts.role ≡ Loader }
        requires small { place < 64 }
        requires held { (post_view self.old).counts.loader.held ≡ Some place }
        requires job { (post_view self.old).job ≡ Some job }
        requires end { J.belongs job end }
        ensures post { IsSamePost self.old self.new }
        ensures view { post_view self.new ≡ doing (post_view self.old) (ended_with (end_word (J.faulty end)) (post_view self.old).counts) None }
    {
        let end_word = word_of_end::<J, E>(&end);
        let word = word_index(place);
        let shared = &self.table.shared;
        let entry = Some(Entry::Finished { job, end });
        drop(shared.exchange(&mut self.seat, place, entry));
        shared.swap::<Ending>(&mut self.seat, word, end_word);
        shared.wake_one(word);
    }

    /// Wakes the loader where it rests.
    pub(crate) fn ring_bell(&mut self)
        ensures post { IsSamePost self.old self.new }
        ensures view { post_view self.new ≡ post_view self.old }
    {
        let shared = &self.table.shared;
        shared.fetch_add::<Ringing>(&mut self.seat, BELL, 1);
        shared.wake_all(BELL);
    }

    /// The bell as it is now.
    pub(crate) fn bell(&self) -> u64 {
        self.table.shared.peek(BELL)
    }

    /// Sleeps while the bell is as it was.
    pub(crate) fn rest_on_bell<R: Wait>(&self, rt: &R, bell: u64) {
        self.table.shared.park(rt, BELL, low_bits(bell));
    }

    /// Sleeps while no end lies at the place and its word stays as it is.
    pub(crate) fn rest_on_place<R: Wait>(&self, rt: &R, place: usize)
        requires { place < 64 }
    {
        let word = word_index(place);
        let found = self.table.shared.peek(word);
        if found < ENDED {
            self.table.shared.park(rt, word, low_bits(found));
        }
    }

    /// The loader's seat.
    pub(crate) fn part(&mut self) -> Result<Post<J, E>, NoMemory>
        requires asker { (post_view self.old).counts.role ≡ Asker }
        requires first { ((post_view self.old).counts.asker.loaders ≡ 0) × ((post_view self.old).counts.loader.faults ≡ 0) }
        ensures post { IsSamePost self.old self.new }
        ensures view { MatchResult result (λ _. post_view self.new ≡ parted (post_view self.old)) (λ _. post_view self.new ≡ post_view self.old) }
        ensures loader { IfOk result (λ h. (h.seat.table_id ≡ self.old.seat.table_id) × (post_view h ≡ new_loader_view)) }
    {
        let table = self.table.clone()?;
        let shared = &self.table.shared;
        let seat = shared.split_seat::<Parting>(&mut self.seat);
        Ok(Post { table, seat })
    }

    /// Takes in the loader's seat, and then learns of the faults.
    pub(crate) fn join(&mut self, loader: Post<J, E>)
        requires asker { (post_view self.old).counts.role ≡ Asker }
        requires loader { (loader.seat.table_id ≡ self.old.seat.table_id) × ((post_view loader).counts.role ≡ Loader) × ((post_view loader).counts.loader.held ≡ None) }
        ensures post { IsSamePost self.old self.new }
        ensures view { post_view self.new ≡ both (post_view self.old) (post_view loader) }
        ensures faults { (post_view self.old).counts.asker.taken ≤ (post_view loader).counts.loader.faults }
    {
        let Post { table: _, seat } = loader;
        let shared = &self.table.shared;
        shared.join_seat::<Homing>(&mut self.seat, seat);
        shared.load::<Counting>(&mut self.seat, BELL);
    }
}
