//! The owner of the ring.
ghost use Rattle.std.specs.Prelude.{◌≡◌, ◌^◌, ◌≤◌, [], true};
ghost use Rattle.ev_ring.specs.declared.view.Role.TheVariants.{Owner as IsOwner};

use crate::NoMemory;
use crate::answers::{Claim, Ready};
use crate::hands::Hand;
use crate::posts::Post;
use crate::work::Work;
use std::marker::Brand;
use std::sync::Wait;

/// The owner, which publishes jobs and takes back what came of them. It is a hand as well (docs/THREADS.md, The ring).
#[derive(Drop)]
pub struct Owner<J: Work> {
    pub(crate) post: Post<J>,
    pub(crate) limit: u64,
    pub(crate) closed: bool,
    // The number of tickets done that it saw last.
    pub(crate) done: u64,
    ghost is_owner: { post.seat.me.0.counts.role ≡ IsOwner },
    ghost limit_is: { limit ≡ post.seat.me.0.counts.owner.limit },
    ghost room: { limit ≤ 2 ^ 62 },
    ghost closed_is: { closed ≡ post.seat.me.0.counts.owner.is_closed },
    // An owner that took all back is quiet.
    ghost rested: { post.seat.me.0.jobs ≡ [] → post.seat.me.0.counts.owner.is_quiet ≡ true },
}

impl<J: Work> Owner<J> {
    ghost use Rattle.std.specs.Prelude.{◌+◌, ◌<◌, ℕ, Some, IfOk, MatchResult, vec_len};
    ghost use Rattle.ev_seats.specs.Jobs.{job_of, without};
    ghost use Rattle.ev_seats.specs.Weights.{IsEachBelow};
    ghost use Rattle.ev_ring.specs.Seen.{hand_view, owner_view, IsSameOwner, IsOf, IsFresh, Holds, HoldsNothing, IsQuiet};
    ghost use Rattle.ev_ring.specs.Says.{Claims, Readies, MAX_TICKETS, joined, stocked, filled, raised};
    ghost use Rattle.ev_ring.specs.Steps.{closed_view};
    ghost use Rattle.ev_ring.specs.Moves.{counting, gave_job, parted};

    // A new hand.
    pub(crate) fn part(&mut self) -> Result<Hand<J>, NoMemory>
        ensures owner { IsSameOwner self.old self.new }
        ensures view { MatchResult result (λ _. owner_view self.new ≡ parted (owner_view self.old)) (λ _. owner_view self.new ≡ owner_view self.old) }
        ensures hand { IfOk result (λ h. IsFresh self.new h) }
    {
        let post = self.post.part()?;
        Ok(Hand { post, bell: 0 })
    }

    /// Publishes at most 4,096 jobs, in the order of the Vec, which is left empty. Their tickets follow those that were
    /// published before. All earlier tickets are taken back (docs/THREADS.md, The ring).
    pub fn publish(&mut self, jobs: &mut Vec<J>)
        requires back { (owner_view self.old).jobs ≡ [] }
        requires few { vec_len jobs.old ≤ 4096 }
        requires room { (owner_view self.old).counts.owner.limit + vec_len jobs.old ≤ MAX_TICKETS }
        ensures owner { IsSameOwner self.old self.new }
        ensures empty { jobs.new.items ≡ [] }
        ensures view { owner_view self.new ≡ raised jobs.old.items (owner_view self.old) }
    {
        let limit = self.limit + jobs.len() as u64;
        self.fill(jobs);
        self.post.publish(limit, self.closed);
        self.limit = limit;
    }

    // Puts the jobs into the slots of the tickets from the limit on.
    fn fill(&mut self, jobs: &mut Vec<J>)
        requires quiet { IsQuiet (owner_view self.old) }
        requires back { (owner_view self.old).jobs ≡ [] }
        requires few { vec_len jobs.old ≤ 4096 }
        ensures owner { IsSameOwner self.old self.new }
        ensures empty { jobs.new.items ≡ [] }
        ensures view { owner_view self.new ≡ filled (owner_view self.old).counts.owner.limit jobs.old.items (owner_view self.old) }
    {
        while let Some(job) = jobs.pop() {
            let ticket = self.limit + jobs.len() as u64;
            self.post.put::<Brand>(ticket, job);
        }
    }

    /// Whether each published ticket was given back: No exactly where the number of tickets done that this call loaded is
    /// below the limit. After Yes no hand holds a ticket, as `quiet_rings_are_idle` tells.
    pub fn ready(&mut self) -> Ready
        ensures owner { IsSameOwner self.old self.new }
        ensures answer { Readies (owner_view self.old) result (owner_view self.new) }
    {
        let done = self.post.done();
        self.done = done;
        let limit = self.limit;
        if done == limit {
            Ready::Yes
        } else {
            Ready::No { done, limit }
        }
    }

    /// Takes back what came of the job that was published with this ticket. The ticket was not taken back before, and
    /// `ready` answered Yes since the last publish.
    pub fn take(&mut self, ticket: u64) -> J::Done
        requires quiet { IsQuiet (owner_view self.old) }
        requires published { ticket < (owner_view self.old).counts.owner.limit }
        requires there { (job : _) × (job_of ticket (owner_view self.old).jobs ≡ Some job) }
        ensures owner { IsSameOwner self.old self.new }
        ensures done { (job : _) × (job_of ticket (owner_view self.old).jobs ≡ Some job) × J.belongs job result }
        ensures view { owner_view self.new ≡ stocked (without ticket (owner_view self.old).jobs) (owner_view self.old) }
    {
        self.post.collect::<Brand>(ticket)
    }

    /// As `Hand::claim`.
    pub fn claim(&mut self) -> Claim<J>
        requires { HoldsNothing (owner_view self.old) }
        ensures owner { IsSameOwner self.old self.new }
        ensures answer { Claims (owner_view self.old) result (owner_view self.new) }
    {
        self.post.claim()
    }

    /// As `Hand::give`.
    pub fn give(&mut self, ticket: u64, done: J::Done)
        requires held { Holds (owner_view self.old) ticket }
        requires done { (job : _) × ((owner_view self.old).job ≡ Some job) × J.belongs job done }
        ensures owner { IsSameOwner self.old self.new }
        ensures view { owner_view self.new ≡ gave_job (owner_view self.old) }
    {
        self.post.give(ticket, done);
    }

    /// Takes in a hand of this ring that holds no ticket, and its list. Once all hands are in, the owner's list has each
    /// ticket below the claim that this call loaded, once.
    pub fn join(&mut self, hand: Hand<J>)
        requires ring { IsOf self.old hand }
        requires free { HoldsNothing (hand_view hand) }
        ensures owner { IsSameOwner self.old self.new }
        ensures view { owner_view self.new ≡ joined (owner_view self.new).counts.hand.claim_read (owner_view self.old) (hand_view hand) }
        ensures all { let after = (owner_view self.new).counts in after.owner.hands_out ≡ 0 → IsEachBelow after.hand.claim_read after.hand.got }
    {
        let Hand { post, bell: _ } = hand;
        self.post.join(post);
    }

    /// Closes the ring, of which nothing is out. From then on each claim finds it closed. What is published later is
    /// claimed by nobody.
    pub fn close(&mut self)
        requires { IsQuiet (owner_view self.old) }
        ensures owner { IsSameOwner self.old self.new }
        ensures view { owner_view self.new ≡ counting (owner_view self.old) (closed_view (owner_view self.old).counts) }
    {
        self.post.close(self.limit);
        self.closed = true;
    }

    /// Sleeps until each published ticket was given back, and not at all where the last `ready` saw that. It may also return
    /// for no reason (docs/THREADS.md, Resting).
    pub fn rest<R: Wait>(&mut self, rt: &R)
        ensures owner { IsSameOwner self.old self.new }
        ensures view { owner_view self.new ≡ owner_view self.old }
    {
        if self.done != self.limit {
            self.post.rest_on_done(rt, self.done);
        }
    }
}
