// What two places owe after a few changes.
ghost use Rattle.std.specs.Prelude.{◌≡◌, ◌≢◌, ◌≤◌, ◌<◌, ◌%◌, OnOk, IfOk};
ghost use Rattle.ev_records.specs.TwoPlaces.{IsSmall, MayBeSmall, IsBoard};

use crate::{NoMemory, Ranks, Records};
use ev_argb::Pixel;
use ev_geom::Rect;
use ev_model::{Content, Name, Object, Op, Record};
use ev_state::{Shared, Tally};
use std::alloc::Global;
use std::test::Fail;

// A record of a rectangle of w by 4 at 0, 0.
fn record(alloc: Global, name: Name, id: u64, w: u32) -> Result<Record, NoMemory>
    requires { w ≤ 100 }
    ensures { IfOk result (IsSmall id) }
{
    let rect = Rect::at_origin(w, 4);
    let object = Object {
        id,
        name,
        rect,
        shown: true,
        color: Pixel::CLEAR,
        op: Op::Blend,
        layer: 0,
        clipper: None,
        parent: None,
        content: Content::Rect,
    };
    let mut tally = Tally::new();
    let object = Shared::make(alloc, object, &mut tally)?;
    Ok(Record {
        id,
        area: rect,
        color: Pixel::CLEAR,
        object,
    })
}

// Two places: a rectangle 2 wide of object 10 below one 4 wide of object 11.
#[derive(Drop)]
struct Board {
    records: Records,
    ranks: Ranks,
}

fn empty(alloc: Global) -> Result<Board, NoMemory>
    ensures { IfOk result (λ board. IsBoard board.records board.ranks) }
{
    let mut records = Records::new(alloc);
    records.add()?;
    records.add()?;
    let mut ranks = Ranks::new(alloc);
    ranks.add(5)?;
    ranks.add(9)?;
    Ok(Board { records, ranks })
}

fn filled(alloc: Global) -> Result<Board, Fail>
    ensures { IfOk result (λ board. IsBoard board.records board.ranks) }
{
    let mut board = empty(alloc)?;
    board.show(alloc, 0, 10, 2)?;
    board.show(alloc, 1, 11, 4)?;
    board.settle();
    Ok(board)
}

impl Board {
    fn put(&mut self, place: usize, id: u64, one: Option<Record>) -> Result<(), NoMemory>
        requires board { IsBoard self.old.records self.old.ranks }
        requires there { place < 2 }
        requires digit { id % 10 ≡ place }
        requires small { MayBeSmall id one }
        ensures { OnOk result (IsBoard self.new.records self.new.ranks) }
    {
        self.records.put(place, one)
    }

    fn show(&mut self, alloc: Global, place: usize, id: u64, w: u32) -> Result<(), Fail>
        requires board { IsBoard self.old.records self.old.ranks }
        requires there { place < 2 }
        requires digit { id % 10 ≡ place }
        requires width { w ≤ 100 }
        ensures { OnOk result (IsBoard self.new.records self.new.ranks) }
    {
        let name = Name::read(b"o").ok_or("name")?;
        let one = record(alloc, name, id, w)?;
        self.put(place, id, Some(one))?;
        Ok(())
    }

    fn rank(&mut self, place: usize, rank: u64) -> Result<(), NoMemory>
        requires board { IsBoard self.old.records self.old.ranks }
        requires there { place < 2 }
        ensures { OnOk result (IsBoard self.new.records self.new.ranks) }
    {
        self.ranks.place(place, rank)
    }

    // Lets one of the two places be painted above the other.
    fn raise(&mut self, above: usize, below: usize) -> Result<(), NoMemory>
        requires board { IsBoard self.old.records self.old.ranks }
        requires there { (above < 2) × (below < 2) }
        requires apart { below ≢ above }
        ensures { OnOk result (IsBoard self.new.records self.new.ranks) }
    {
        self.ranks.follow(&[below, above])
    }

    fn settle(&mut self)
        requires board { IsBoard self.old.records self.old.ranks }
        ensures { IsBoard self.new.records self.new.ranks }
    {
        self.records.settle();
        self.ranks.settle();
        self.ranks.renumber(&[0, 1]);
    }

    // How many pixels are owed.
    fn owes(&self) -> Result<u64, NoMemory>
        requires { IsBoard self.now.records self.now.ranks }
    {
        let damage = self.records.damage(&self.ranks)?;
        Ok(damage.area())
    }
}

#[test]
fn away_and_back_owes_nothing(rt: HostRuntime) -> Result<(), Fail> {
    let alloc = rt.alloc();
    let mut board = filled(alloc)?;
    board.show(alloc, 1, 11, 5)?;
    assert_eq!(rt; board.owes()?, 20);
    board.show(alloc, 1, 11, 4)?;
    assert_eq!(rt; board.owes()?, 0);
    Ok(())
}

#[test]
fn settled_changes_owe_nothing(rt: HostRuntime) -> Result<(), Fail> {
    let alloc = rt.alloc();
    let mut board = filled(alloc)?;
    board.put(0, 10, None)?;
    assert_eq!(rt; board.owes()?, 8);
    board.settle();
    assert_eq!(rt; board.owes()?, 0);
    Ok(())
}

#[test]
fn another_object_in_a_place_owes(rt: HostRuntime) -> Result<(), Fail> {
    let alloc = rt.alloc();
    let mut board = filled(alloc)?;
    board.show(alloc, 0, 20, 2)?;
    assert_eq!(rt; board.owes()?, 8);
    Ok(())
}

#[test]
fn restacked_pairs_owe_what_they_share(rt: HostRuntime) -> Result<(), Fail> {
    let mut board = filled(rt.alloc())?;
    board.rank(0, 7)?;
    assert_eq!(rt; board.owes()?, 0);
    board.rank(0, u64::MAX)?;
    assert_eq!(rt; board.owes()?, 8);
    Ok(())
}

#[test]
fn numbers_follow_the_order(rt: HostRuntime) -> Result<(), Fail> {
    let mut board = filled(rt.alloc())?;
    board.raise(0, 1)?;
    assert_eq!(rt; board.owes()?, 8);
    board.raise(1, 0)?;
    assert_eq!(rt; board.owes()?, 0);
    Ok(())
}
