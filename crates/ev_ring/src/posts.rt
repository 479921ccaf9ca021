//! A seat at the ring's table, as the owner and each hand have one.
ghost use Rattle.std.specs.Prelude.{◌≡◌, ◌≢◌, ◌%◌, ◌≤◌, None};
ghost use Rattle.std.specs.Arc.{arc_value};
ghost use Rattle.ev_ring.specs.RingSlots.{carried_by, slot_of};
ghost use Rattle.ev_ring.specs.Says.{MAX_TICKETS};
ghost use Rattle.ev_ring.specs.Tally.{limit_word};
ghost use Rattle.ev_ring.specs.declared.view.Role.TheVariants.{Spent};

use crate::NoMemory;
use crate::answers::Claim;
use crate::plays::{
    Claiming, Closing, Collecting, Emptying, Giving, Homing, Parting, Publishing, Returning,
    Ringing, SeeClaim, SeeDone, SeeLimit, Ticketed, Tickets,
};
use crate::view::{Entry, View};
use crate::work::Work;
use atomic_table::{Seat, Table};
use ev_seats::low_bits;
use std::alloc::Global;
use std::sync::{Arc, Wait};

pub(crate) type Slot<J> = Option<Entry<J, <J as Work>::Done>>;

pub(crate) type Board<J> = Table<Slot<J>, View<J>, (), Tickets, Global>;

// The words of the table lie 64 bytes apart, so that seats that write different words do not disturb each other.
pub(crate) const WORDS: usize = 25;

/// The number of tickets published, with the top bit where the ring is closed. The owner writes it.
const LIMIT: usize = 0;

/// The number of tickets claimed. Each seat writes it.
const CLAIM: usize = 8;

/// The number of tickets given back. Each seat writes it.
const DONE: usize = 16;

/// No rule speaks of this word. It rises with each publish and close, so that a hand that rests on it misses none.
const BELL: usize = 24;

/// The bit of the limit's word that says that the ring is closed.
const TOP_BIT: u64 = 1 << 63;

/// How many slots a ring has. The slot of a ticket is the ticket modulo this number.
pub(crate) const SLOTS: u64 = 4096;

fn slot_index(ticket: u64) -> usize
    ensures { result ≡ slot_of ticket }
{
    (ticket % SLOTS) as usize
}

fn word_of_limit(limit: u64, closed: bool) -> u64
    requires { limit ≤ MAX_TICKETS }
    ensures { result ≡ limit_word closed limit }
{
    if closed { limit + TOP_BIT } else { limit }
}

/// A seat at the table, with the table.
#[derive(Drop)]
pub struct Post<J: Work> {
    pub(crate) table: Arc<Board<J>, Global>,
    pub(crate) seat: Seat<Slot<J>, View<J>>,
    ghost word_count: { (arc_value table).shared.table_id.words ≡ 25 },
    ghost seated: { seat.table_id ≡ (arc_value table).shared.table_id },
    ghost live: { seat.me.0.counts.role ≢ Spent },
    ghost carries: { seat.me.1 ≡ carried_by seat.me.0.counts.hand.held },
    ghost none_out: { seat.me.0.out ≡ None },
}

impl<J: Work> Post<J> {
    ghost use Rattle.std.specs.Prelude.{◌+◌, ◌<◌, ◌≤◌, ◌∷◌, ℕ, true, false, Some, IfOk, MatchResult};
    ghost use Rattle.ev_ring.specs.declared.view.Role.TheVariants.{Owner, Hand};
    ghost use Rattle.ev_seats.specs.Jobs.{job_of, without};
    ghost use Rattle.ev_ring.specs.RingSlots.{IsFree};
    ghost use Rattle.ev_ring.specs.Seen.{IsSamePost, post_view, Holds, HoldsNothing, IsQuiet};
    ghost use Rattle.ev_ring.specs.Says.{Claims, HasJobs, joined, saw_both, stocked, DoneSeen};
    ghost use Rattle.ev_ring.specs.Steps.{saw_done, saw_claim, published_to, closed_view, IsLater, HasAll};
    ghost use Rattle.ev_ring.specs.Moves.{counting, gave_job, parted, new_hand, both};

    // The limit, and then the claim.
    fn look(&mut self) -> (u64, u64)
        ensures post { IsSamePost self.old self.new }
        ensures view { post_view self.new ≡ saw_both result.0 result.1 (post_view self.old) }
        ensures later { IsLater (post_view self.old).counts result.1 }
    {
        let shared = &self.table.shared;
        let limit = shared.load::<SeeLimit>(&mut self.seat, LIMIT);
        let claim = shared.load::<SeeClaim>(&mut self.seat, CLAIM);
        (limit, claim)
    }

    /// Claims the next ticket below the limit.
    pub(crate) fn claim(&mut self) -> Claim<J>
        requires { HoldsNothing (post_view self.old) }
        ensures post { IsSamePost self.old self.new }
        ensures answer { Claims (post_view self.old) result (post_view self.new) }
    {
        let (limit, claim) = self.look();
        if limit >= TOP_BIT {
            return Claim::Closed;
        }
        if claim >= limit {
            return Claim::Empty { claim, limit };
        }
        let shared = &self.table.shared;
        let found = shared.compare_exchange::<Claiming>(&mut self.seat, CLAIM, claim, claim + 1);
        if found != claim {
            return Claim::Lost { found };
        }
        let entry = shared.exchange(&mut self.seat, slot_index(claim), None);
        match entry {
            Some(Entry::Waiting { ticket, job }) => Claim::Got { ticket, job },
            _ => unreachable!(),
        }
    }

    /// Gives the ticket back. The last one wakes the owner where it rests.
    pub(crate) fn give(&mut self, ticket: u64, done: J::Done)
        requires held { Holds (post_view self.old) ticket }
        requires done { (job : _) × ((post_view self.old).job ≡ Some job) × J.belongs job done }
        ensures post { IsSamePost self.old self.new }
        ensures view { post_view self.new ≡ gave_job (post_view self.old) }
    {
        let shared = &self.table.shared;
        let entry = Some(Entry::Finished { ticket, done });
        drop(shared.exchange(&mut self.seat, slot_index(ticket), entry));
        let before = shared.fetch_add::<Giving>(&mut self.seat, DONE, 1);
        if before.wrapping_add(1) == shared.peek(LIMIT) {
            shared.wake_one(DONE);
        }
    }

    /// The number of tickets done.
    pub(crate) fn done(&mut self) -> u64
        requires { (post_view self.old).counts.role ≡ Owner }
        ensures post { IsSamePost self.old self.new }
        ensures answer { DoneSeen (post_view self.old) result (post_view self.new) }
    {
        let shared = &self.table.shared;
        shared.load::<SeeDone>(&mut self.seat, DONE)
    }

    /// Puts the job of this ticket into its slot.
    pub(crate) fn put<T: Ticketed>(&mut self, ticket: u64, job: J)
        requires named { ticket ≡ T.ticket }
        requires owner { ((post_view self.old).counts.role ≡ Owner) × IsQuiet (post_view self.old) }
        requires later { (post_view self.old).counts.owner.limit ≤ ticket }
        requires near { (u : ℕ) (other : _) → job_of u (post_view self.old).jobs ≡ Some other → (ticket < u) × (u < ticket + 4096) }
        ensures post { IsSamePost self.old self.new }
        ensures view { post_view self.new ≡ stocked ((ticket, job) ∷ (post_view self.old).jobs) (post_view self.old) }
    {
        let shared = &self.table.shared;
        shared.load::<Emptying<T>>(&mut self.seat, DONE);
        let entry = Some(Entry::Waiting { ticket, job });
        drop(shared.exchange(&mut self.seat, slot_index(ticket), entry));
        shared.load::<Returning>(&mut self.seat, DONE);
    }

    /// Takes what belongs to the job of this ticket.
    pub(crate) fn collect<T: Ticketed>(&mut self, ticket: u64) -> J::Done
        requires named { ticket ≡ T.ticket }
        requires owner { ((post_view self.old).counts.role ≡ Owner) × IsQuiet (post_view self.old) }
        requires published { ticket < (post_view self.old).counts.owner.limit }
        requires there { (job : _) × (job_of ticket (post_view self.old).jobs ≡ Some job) }
        ensures post { IsSamePost self.old self.new }
        ensures done { (job : _) × (job_of ticket (post_view self.old).jobs ≡ Some job) × J.belongs job result }
        ensures view { post_view self.new ≡ stocked (without ticket (post_view self.old).jobs) (post_view self.old) }
    {
        let shared = &self.table.shared;
        shared.load::<Collecting<T>>(&mut self.seat, DONE);
        let entry = shared.exchange(&mut self.seat, slot_index(ticket), None);
        shared.load::<Returning>(&mut self.seat, DONE);
        match entry {
            Some(Entry::Finished { ticket: _, done }) => done,
            _ => unreachable!(),
        }
    }

    /// Raises the limit.
    pub(crate) fn publish(&mut self, limit: u64, closed: bool)
        requires owner { ((post_view self.old).counts.role ≡ Owner) × IsQuiet (post_view self.old) }
        requires closed { closed ≡ (post_view self.old).counts.owner.is_closed }
        requires room { ((post_view self.old).counts.owner.limit ≤ limit) × (limit ≤ MAX_TICKETS) }
        requires jobs { HasJobs (post_view self.old).counts.owner.limit limit (post_view self.old).jobs }
        ensures post { IsSamePost self.old self.new }
        ensures view { post_view self.new ≡ counting (post_view self.old) (published_to limit (post_view self.old).counts) }
    {
        let word = word_of_limit(limit, closed);
        let shared = &self.table.shared;
        shared.store::<Publishing>(&mut self.seat, LIMIT, word);
        self.ring_bell();
    }

    // Wakes the hands that rest.
    fn ring_bell(&mut self)
        ensures post { IsSamePost self.old self.new }
        ensures view { post_view self.new ≡ post_view self.old }
    {
        let shared = &self.table.shared;
        shared.fetch_add::<Ringing>(&mut self.seat, BELL, 1);
        shared.wake_all(BELL);
    }

    /// The bell as it is now.
    pub(crate) fn bell(&self) -> u64 {
        self.table.shared.peek(BELL)
    }

    /// Sleeps while the bell is as it was.
    pub(crate) fn rest_on_bell<R: Wait>(&self, rt: &R, bell: u64) {
        self.table.shared.park(rt, BELL, low_bits(bell));
    }

    /// Sleeps while the number of tickets done is as it was.
    pub(crate) fn rest_on_done<R: Wait>(&self, rt: &R, done: u64) {
        self.table.shared.park(rt, DONE, low_bits(done));
    }

    /// Sets the top bit of the limit's word.
    pub(crate) fn close(&mut self, limit: u64)
        requires owner { (post_view self.old).counts.role ≡ Owner }
        requires limit { (limit ≡ (post_view self.old).counts.owner.limit) × (limit ≤ MAX_TICKETS) }
        ensures post { IsSamePost self.old self.new }
        ensures view { post_view self.new ≡ counting (post_view self.old) (closed_view (post_view self.old).counts) }
    {
        let word = word_of_limit(limit, true);
        let shared = &self.table.shared;
        shared.store::<Closing>(&mut self.seat, LIMIT, word);
        self.ring_bell();
    }

    /// A new hand's seat.
    pub(crate) fn part(&mut self) -> Result<Post<J>, NoMemory>
        requires { (post_view self.old).counts.role ≡ Owner }
        ensures post { IsSamePost self.old self.new }
        ensures view { MatchResult result (λ _. post_view self.new ≡ parted (post_view self.old)) (λ _. post_view self.new ≡ post_view self.old) }
        ensures hand { IfOk result (λ h. (h.seat.table_id ≡ self.old.seat.table_id) × (post_view h ≡ new_hand)) }
    {
        let table = self.table.clone()?;
        let shared = &self.table.shared;
        let seat = shared.split_seat::<Parting>(&mut self.seat);
        Ok(Post { table, seat })
    }

    /// Takes in a hand's seat, and then loads the claim.
    pub(crate) fn join(&mut self, hand: Post<J>) -> u64
        requires owner { (post_view self.old).counts.role ≡ Owner }
        requires hand { (hand.seat.table_id ≡ self.old.seat.table_id) × ((post_view hand).counts.role ≡ Hand) × HoldsNothing (post_view hand) }
        ensures post { IsSamePost self.old self.new }
        ensures view { post_view self.new ≡ joined result (post_view self.old) (post_view hand) }
        ensures all { HasAll (post_view self.new).counts result }
    {
        let Post { table: _, seat } = hand;
        let shared = &self.table.shared;
        shared.join_seat::<Homing>(&mut self.seat, seat);
        shared.load::<SeeClaim>(&mut self.seat, CLAIM)
    }
}
