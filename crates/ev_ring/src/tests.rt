//! Four threads share a ring.
ghost use Rattle.std.specs.Prelude.{◌≡◌, ◌+◌, ◌*◌, ◌<◌, ◌≤◌, ◌^◌, ℕ, List, [], None, true, length, vec_len, IfOk};
ghost use Rattle.std.specs.List.{All};
ghost use Rattle.ev_seats.specs.Jobs.{numbered};
ghost use Rattle.ev_ring.specs.Seen.{hand_view, owner_view, owner_ring, hand_ring, HoldsNothing, IsQuiet, IsFreeHand};

use crate::{Claim, Hand, Owner, Ready, Work, ring};
use std::alloc::{AllocError, Global};
use std::process::Abort;
use std::sync::Wait;
use std::test::Fail;
use std::thread;
use std::thread::Threads;

// A number whose square is wanted.
#[derive(Drop)]
struct Square {
    number: u32,
}

impl Work for Square {
    type Done = u64;

    ghost belongs = { λ job done. done ≡ job.number * job.number };

    fn work(self) -> u64 {
        let number = self.number as u64;
        number * number
    }
}

// A worker: it does jobs until the ring is closed.
fn work_until_closed<R: Wait>(rt: &R, mut hand: Hand<Square>)
    requires { HoldsNothing (hand_view hand) }
{
    for _ in rt.forever() {
        match hand.claim() {
            Claim::Got { ticket, job } => hand.give(ticket, job.work()),
            Claim::Empty { .. } => hand.rest(rt),
            Claim::Lost { .. } => {}
            Claim::Closed => return,
        }
    }
}

// The owner does jobs too, until all are done.
fn work_until_ready<R: Wait>(rt: &R, owner: &mut Owner<Square>)
    requires { HoldsNothing (owner_view owner.old) }
    ensures quiet { IsQuiet (owner_view owner.new) }
    ensures limit { (owner_view owner.new).counts.owner.limit ≡ (owner_view owner.old).counts.owner.limit }
    ensures jobs { (owner_view owner.new).jobs ≡ (owner_view owner.old).jobs }
    ensures free { HoldsNothing (owner_view owner.new) }
{
    for _ in rt.forever() {
        match owner.claim() {
            Claim::Got { ticket, job } => owner.give(ticket, job.work()),
            Claim::Lost { .. } => {}
            Claim::Empty { .. } | Claim::Closed => match owner.ready() {
                Ready::Yes => return,
                Ready::No { .. } => owner.rest(rt),
            },
        }
    }
    unreachable!()
}

// Jobs of the numbers from `first` on.
fn jobs_from(alloc: Global, first: u32, count: u32) -> Result<Vec<Square>, AllocError>
    requires { first + count < 2 ^ 32 }
    ensures { IfOk result (λ jobs. vec_len jobs ≡ count) }
{
    let mut jobs = Vec::new(alloc);
    for i in 0..count {
        jobs.push(Square { number: first + i })?;
    }
    Ok(jobs)
}

// One point for the square of the number.
fn score(square: u64, number: u64) -> u64
    ensures { result ≤ 1 }
{
    (square == number.wrapping_mul(number)) as u64
}

// Takes back what came of so many jobs, and counts the right answers. The number of a job is its ticket.
fn take_all(owner: &mut Owner<Square>, first: u64, count: u64) -> u64
    requires quiet { IsQuiet (owner_view owner.old) }
    requires limit { (first + count ≡ (owner_view owner.old).counts.owner.limit) × (first + count < 2 ^ 32) }
    requires jobs { (js : List Square) × ((owner_view owner.old).jobs ≡ numbered first js) × (length js ≡ count) }
    ensures quiet { IsQuiet (owner_view owner.new) }
    ensures limit { (owner_view owner.new).counts.owner.limit ≡ (owner_view owner.old).counts.owner.limit }
    ensures back { (owner_view owner.new).jobs ≡ [] }
    ensures held { (owner_view owner.new).counts.hand.held ≡ (owner_view owner.old).counts.hand.held }
    ensures right { result ≤ count }
{
    let mut right = 0;
    for i in 0..count {
        let ticket = first + i;
        right += score(owner.take(ticket), ticket);
    }
    right
}

// Passes 25 times 4,000 jobs through the ring, and counts the right answers.
fn pass_jobs<R: Wait>(rt: &R, alloc: Global, owner: &mut Owner<Square>) -> Result<u64, AllocError>
    requires fresh { ((owner_view owner.old).counts.owner.limit ≡ 0) × IsQuiet (owner_view owner.old) × HoldsNothing (owner_view owner.old) × ((owner_view owner.old).jobs ≡ []) }
    ensures quiet { IsQuiet (owner_view owner.new) }
{
    let mut right = 0;
    for round in 0..25 {
        let first: u32 = round * 4000;
        let mut jobs = jobs_from(alloc, first, 4000)?;
        owner.publish(&mut jobs);
        work_until_ready(rt, owner);
        right += take_all(owner, first as u64, 4000);
    }
    Ok(right)
}

// The owner passes the jobs, and a thread for each hand helps it.
fn pass_in_threads<R: Threads + Wait + Sync>(
    rt: &R,
    alloc: Global,
    owner: Owner<Square>,
    hands: Vec<Hand<Square>>,
) -> Result<u64, AllocError>
    requires fresh { ((owner_view owner).counts.owner.limit ≡ 0) × IsQuiet (owner_view owner) × HoldsNothing (owner_view owner) × ((owner_view owner).jobs ≡ []) }
    requires hands { All IsFreeHand hands.items }
{
    thread::scope(
        thread::scope_env(),
        rt,
        |scope| -> Result<u64, AllocError>
            requires { ((owner_view owner).counts.owner.limit ≡ 0) × IsQuiet (owner_view owner) × HoldsNothing (owner_view owner) × ((owner_view owner).jobs ≡ []) × All IsFreeHand hands.items }
        {
            let mut owner = owner;
            let mut hands = hands;
            while let Some(hand) = hands.pop() {
                let _ = scope.spawn(
                    move || -> ()
                        requires { IsFreeHand hand }
                    {
                        work_until_closed(rt, hand);
                    },
                );
            }
            let right = pass_jobs(rt, alloc, &mut owner);
            owner.close();
            right
        },
    )
}

#[test]
fn four_threads_pass_a_hundred_thousand_jobs(rt: HostRuntime) -> Result<(), Fail> {
    let (owner, hands) = ring::<Square>(rt.alloc(), 3)?;
    assert_eq!(rt; hands.len(), 3);
    assert_eq!(rt; pass_in_threads(&rt, rt.alloc(), owner, hands)?, 100_000);
    Ok(())
}

#[test]
fn the_owner_alone_passes_a_hundred_thousand_jobs(rt: HostRuntime) -> Result<(), Fail> {
    let (mut owner, hands) = ring::<Square>(rt.alloc(), 0)?;
    assert!(rt; hands.is_empty());
    assert_eq!(rt; pass_jobs(&rt, rt.alloc(), &mut owner)?, 100_000);
    owner.close();
    Ok(())
}

// Does the one job of the number 7, and gives the hand back.
fn do_the_only_job<R: Abort>(rt: &R, mut hand: Hand<Square>) -> Hand<Square>
    requires { HoldsNothing (hand_view hand) }
    ensures ring { hand_ring result ≡ hand_ring hand }
    ensures free { HoldsNothing (hand_view result) }
{
    match hand.claim() {
        Claim::Got { ticket, job } => {
            assert!(rt; ticket == 0 && job.number == 7);
            hand.give(ticket, job.work());
        }
        _ => panic!(rt; "the job was not there"),
    }
    hand
}

#[test]
fn one_job_goes_through_the_ring(rt: HostRuntime) -> Result<(), Fail> {
    let (mut owner, mut hands) = ring::<Square>(rt.alloc(), 1)?;
    assert_eq!(rt; hands.len(), 1);
    let hand = hands.pop().unwrap();
    assert!(rt; matches!(owner.ready(), Ready::Yes));
    let mut jobs = jobs_from(rt.alloc(), 7, 1)?;
    owner.publish(&mut jobs);
    assert!(rt; jobs.is_empty());
    assert!(rt; matches!(owner.ready(), Ready::No { done: 0, limit: 1 }));
    let hand = do_the_only_job(&rt, hand);
    assert!(rt; matches!(owner.ready(), Ready::Yes));
    owner.join(hand);
    owner.close();
    assert!(rt; matches!(owner.claim(), Claim::Closed));
    Ok(())
}
