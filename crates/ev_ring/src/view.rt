//! What a seat at the ring's table knows. No value of these types is made.
use std::collections::LinkedList;

/// What a seat is to the ring.
pub enum Role {
    Owner,
    Hand,
    /// It was joined to the owner's seat.
    Spent,
}

/// What a seat knows as a hand. The owner's seat works as a hand too.
pub struct HandView {
    /// The limit that it read last, with its top bit.
    pub limit_read: u64,
    /// How often it loaded the limit.
    pub limit_looks: u64,
    /// The claim that it read last.
    pub claim_read: u64,
    /// How often it loaded the claim.
    pub claim_looks: u64,
    /// The claim that its last try found in post of the one that it had read.
    pub found: u64,
    /// The tickets that it got, in their order, and those of the hands that were joined to it.
    pub got: LinkedList<u64>,
    /// The ticket that it holds.
    pub held: Option<u64>,
}

/// What the owner's seat knows besides.
pub struct OwnerView {
    /// The number of tickets that it published.
    pub limit: u64,
    pub is_closed: bool,
    /// Its last load of the number of tickets done equalled the limit, and it published no job since.
    pub is_quiet: bool,
    /// How many seats it split off and did not join again.
    pub hands_out: u64,
    /// How often it loaded the number of tickets done.
    pub done_looks: u64,
    /// The number of tickets done that it saw last.
    pub done_seen: u64,
    /// The limit before its last publish.
    pub base: u64,
    /// How many tickets it gave back itself since.
    pub own_given: u64,
}

/// The view of one seat.
pub struct Counts {
    pub role: Role,
    pub hand: HandView,
    pub owner: OwnerView,
}

/// The view of one seat, with the jobs that it knows.
pub struct View<J> {
    pub counts: Counts,
    /// The job of the ticket that it holds.
    pub job: Option<J>,
    /// The jobs that the owner put into slots and did not take back, by ticket.
    pub jobs: LinkedList<(u64, J)>,
    /// The slot that the owner has out, to put a job into it or to take a result from it.
    pub out: Option<u64>,
}

/// What is in a slot that is not empty.
#[derive(Drop)]
pub enum Entry<J, D> {
    /// A job that nobody claimed yet.
    Waiting { ticket: u64, job: J },
    /// What came of the job.
    Finished { ticket: u64, done: D },
}
