//! A hand of the ring.
ghost use Rattle.std.specs.Prelude.{◌≡◌};
ghost use Rattle.ev_ring.specs.declared.view.Role.TheVariants.{Hand as IsHand};

use crate::answers::Claim;
use crate::posts::Post;
use crate::work::Work;
use std::sync::Wait;

/// A hand, which claims tickets and gives them back (docs/THREADS.md, The ring). It may be dropped where it holds none.
#[derive(Drop)]
pub struct Hand<J: Work> {
    pub(crate) post: Post<J>,
    // The bell before its last claim.
    pub(crate) bell: u64,
    ghost is_hand: { post.seat.me.0.counts.role ≡ IsHand },
}

impl<J: Work> Hand<J> {
    ghost use Rattle.std.specs.Prelude.{Some};
    ghost use Rattle.ev_ring.specs.Seen.{hand_view, IsSameHand, Holds, HoldsNothing};
    ghost use Rattle.ev_ring.specs.Says.{Claims};
    ghost use Rattle.ev_ring.specs.Moves.{gave_job};

    /// Claims the next ticket. It loads the limit and then the claim: Closed where the limit loaded has its top bit, else
    /// Empty where the claim loaded is not below it. Lost where another seat claimed the ticket meanwhile.
    pub fn claim(&mut self) -> Claim<J>
        requires { HoldsNothing (hand_view self.old) }
        ensures hand { IsSameHand self.old self.new }
        ensures answer { Claims (hand_view self.old) result (hand_view self.new) }
    {
        self.bell = self.post.bell();
        self.post.claim()
    }

    /// Gives the ticket that it holds back with what came of the ticket's job, and counts it as done.
    pub fn give(&mut self, ticket: u64, done: J::Done)
        requires held { Holds (hand_view self.old) ticket }
        requires done { (job : _) × ((hand_view self.old).job ≡ Some job) × J.belongs job done }
        ensures hand { IsSameHand self.old self.new }
        ensures view { hand_view self.new ≡ gave_job (hand_view self.old) }
    {
        self.post.give(ticket, done);
    }

    /// Sleeps until the owner published jobs or closed the ring since the last claim. It may also return for no reason
    /// (docs/THREADS.md, Resting).
    pub fn rest<R: Wait>(&mut self, rt: &R)
        ensures hand { IsSameHand self.old self.new }
        ensures view { hand_view self.new ≡ hand_view self.old }
    {
        self.post.rest_on_bell(rt, self.bell);
    }
}
