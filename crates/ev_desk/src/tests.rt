//! An asker and a loader share a desk.
ghost use Rattle.std.specs.Prelude.{◌≡◌, ◌*◌, ◌≤◌, None, MatchOption};
ghost use Rattle.ev_desk.specs.DeskSeen.{asker_view, asker_desk, loader_view, loader_desk, IsOf};
ghost use Rattle.ev_desk.specs.DeskSays.{IsIdle, IsOnlyAsked};

use crate::{Ask, Asker, Collect, Errand, Loader, TakeJob, Withdraw, desk};
use std::sync::Wait;
use std::test::Fail;
use std::thread::{Threads, join};

// A number whose square is wanted.
#[derive(Drop)]
struct Root {
    number: u32,
}

// The square. That it is large counts as a fault.
#[derive(Drop)]
struct Square {
    value: u64,
    large: bool,
}

impl Errand<Square> for Root {
    ghost belongs = { λ job end. end.value ≡ job.number * job.number };

    ghost faulty = { λ end. end.large };

    fn faulted(end: &Square) -> bool {
        end.large
    }
}

fn squared(job: &Root) -> Square
    ensures { result.value ≡ job.now.number * job.now.number }
{
    let number = job.number as u64;
    let value = number * number;
    Square {
        value,
        large: value >= 1 << 32,
    }
}

// The loader does jobs until the desk is closed.
fn load_until_closed<R: Wait>(rt: &R, mut loader: Loader<Root, Square>) -> Loader<Root, Square>
    requires { (loader_view loader).counts.loader.held ≡ None }
    ensures desk { loader_desk result ≡ loader_desk loader }
    ensures free { (loader_view result).counts.loader.held ≡ None }
{
    for _ in rt.forever() {
        match loader.take_job() {
            TakeJob::Got { place, job } => {
                let end = squared(&job);
                loader.finish(place, job, end);
            }
            TakeJob::Nothing => loader.rest(rt),
            TakeJob::Closed => break,
        }
    }
    loader
}

fn ask_for(asker: &mut Asker<Root, Square>, number: u32) -> u32
    requires { IsIdle (asker_view asker.old) }
    ensures desk { asker_desk asker.new ≡ asker_desk asker.old }
    ensures asked { IsOnlyAsked result (asker_view asker.new) }
{
    let Ask::Placed { place } = asker.ask(Root { number }) else {
        unreachable!()
    };
    place
}

fn wait_for<R: Wait>(rt: &R, asker: &mut Asker<Root, Square>, place: u32) -> (Root, Square)
    requires { IsOnlyAsked place (asker_view asker.old) }
    ensures desk { asker_desk asker.new ≡ asker_desk asker.old }
    ensures idle { IsIdle (asker_view asker.new) }
{
    for _ in rt.forever() {
        match asker.collect(place) {
            Collect::End { job, end } => return (job, end),
            Collect::NotYet { .. } => asker.rest(rt, place),
            Collect::Free => unreachable!(),
        }
    }
    unreachable!()
}

fn take_back(asker: &mut Asker<Root, Square>, place: u32) -> Option<Root>
    requires { IsOnlyAsked place (asker_view asker.old) }
    ensures desk { asker_desk asker.new ≡ asker_desk asker.old }
    ensures stages { MatchOption result (IsOnlyAsked place (asker_view asker.new)) (λ _. IsIdle (asker_view asker.new)) }
{
    match asker.withdraw(place) {
        Withdraw::Back { job } => Some(job),
        Withdraw::Late { .. } => None,
    }
}

// One point where the job came back, and its square where it came with one.
fn collect_point<R: Wait>(rt: &R, asker: &mut Asker<Root, Square>, place: u32, number: u32) -> u64
    requires { IsOnlyAsked place (asker_view asker.old) }
    ensures desk { asker_desk asker.new ≡ asker_desk asker.old }
    ensures idle { IsIdle (asker_view asker.new) }
    ensures one { result ≤ 1 }
{
    let (job, end) = wait_for(rt, asker, place);
    let wanted = number as u64;
    (job.number == number && end.value == wanted.wrapping_mul(wanted)) as u64
}

fn withdraw_point<R: Wait>(rt: &R, asker: &mut Asker<Root, Square>, place: u32, number: u32) -> u64
    requires { IsOnlyAsked place (asker_view asker.old) }
    ensures desk { asker_desk asker.new ≡ asker_desk asker.old }
    ensures idle { IsIdle (asker_view asker.new) }
    ensures one { result ≤ 1 }
{
    match take_back(asker, place) {
        Some(job) => (job.number == number) as u64,
        None => collect_point(rt, asker, place, number),
    }
}

// Each third job is withdrawn, if the loader is not faster.
fn errand<R: Wait>(rt: &R, asker: &mut Asker<Root, Square>, number: u32) -> u64
    requires { IsIdle (asker_view asker.old) }
    ensures desk { asker_desk asker.new ≡ asker_desk asker.old }
    ensures idle { IsIdle (asker_view asker.new) }
    ensures one { result ≤ 1 }
{
    let place = ask_for(asker, number);
    if number % 3 == 0 {
        withdraw_point(rt, asker, place, number)
    } else {
        collect_point(rt, asker, place, number)
    }
}

fn ask_until_done<R: Wait>(rt: &R, mut asker: Asker<Root, Square>) -> (Asker<Root, Square>, u64)
    requires { IsIdle (asker_view asker) }
    ensures { asker_desk result.0 ≡ asker_desk asker }
{
    let mut points = 0;
    for i in 0..10_000 {
        let number: u32 = i * 16;
        points += errand(rt, &mut asker, number);
    }
    asker.close();
    (asker, points)
}

fn pass_in_threads<R: Threads + Wait + Sync>(
    rt: &R,
    asker: Asker<Root, Square>,
    loader: Loader<Root, Square>,
) -> u64
    requires idle { IsIdle (asker_view asker) }
    requires loader { IsOf asker loader × ((loader_view loader).counts.loader.held ≡ None) }
{
    let (loader, asked) = join(
        rt,
        || load_until_closed(rt, loader),
        || ask_until_done(rt, asker),
    );
    let (mut asker, points) = asked;
    asker.join(loader);
    points
}

#[test]
fn two_threads_pass_ten_thousand_errands(rt: HostRuntime) -> Result<(), Fail> {
    let (asker, loader) = desk::<Root, Square>(rt.alloc())?;
    assert_eq!(rt; pass_in_threads(&rt, asker, loader), 10_000);
    Ok(())
}

#[test]
fn a_job_that_waits_is_withdrawn(rt: HostRuntime) -> Result<(), Fail> {
    let (mut asker, mut loader) = desk::<Root, Square>(rt.alloc())?;
    let Ask::Placed { place } = asker.ask(Root { number: 3 }) else {
        return Err(Fail::new("no place is free"));
    };
    assert!(rt; matches!(asker.collect(place), Collect::NotYet { word: 1 }));
    let Withdraw::Back { job } = asker.withdraw(place) else {
        return Err(Fail::new("it was late"));
    };
    assert!(rt; job.number == 3);
    assert!(rt; matches!(asker.collect(place), Collect::Free));
    assert!(rt; matches!(loader.take_job(), TakeJob::Nothing));
    Ok(())
}
