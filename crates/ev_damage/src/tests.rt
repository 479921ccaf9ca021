// What two lists of two records damage.
ghost use Rattle.std.specs.Prelude.{◌≡◌, ◌≢◌, ◌≤◌, ◌∷◌, [], IfOk};
ghost use Rattle.ev_damage.specs.SmallLists.{IsSmall, AreComparable, DifferIn};
ghost use Rattle.ev_model.specs.Look.{look_of};

use crate::{NoMemory, between, between_marked};
use ev_argb::Pixel;
use ev_geom::Rect;
use ev_model::{Content, Name, Object, Op, Record};
use ev_state::{Shared, Tally};
use std::alloc::Global;
use std::test::Fail;

// A record of a rectangle of w by 4 at 0, 0.
fn record(alloc: Global, name: Name, id: u64, w: u32) -> Result<Record, NoMemory>
    requires { w ≤ 100 }
    ensures { IfOk result (IsSmall id) }
{
    let rect = Rect::at_origin(w, 4);
    let object = Object {
        id,
        name,
        rect,
        shown: true,
        color: Pixel::CLEAR,
        op: Op::Blend,
        layer: 0,
        clipper: None,
        parent: None,
        content: Content::Rect,
    };
    let mut tally = Tally::new();
    let object = Shared::make(alloc, object, &mut tally)?;
    Ok(Record {
        id,
        area: rect,
        color: Pixel::CLEAR,
        object,
    })
}

// Two such records, each given by its id and its width.
fn pair(
    alloc: Global,
    lower: u64,
    lower_w: u32,
    upper: u64,
    upper_w: u32,
) -> Result<[Record; 2], Fail>
    requires ids { lower ≢ upper }
    requires lower_width { lower_w ≤ 100 }
    requires upper_width { upper_w ≤ 100 }
    ensures { IfOk result AreComparable }
{
    let name = Name::read(b"o").ok_or("name")?;
    let first = record(alloc, name, lower, lower_w)?;
    let second = record(alloc, name, upper, upper_w)?;
    Ok([first, second])
}

// The record once more.
fn again(one: &Record) -> Result<Record, NoMemory>
    ensures { IfOk result (λ r. look_of r ≡ look_of one.now) }
{
    let object = one.object.share()?;
    Ok(Record {
        id: one.id,
        area: one.area,
        color: one.color,
        object,
    })
}

// Two lists of two records, of which that of object 2 has another width in the new one.
#[derive(Drop)]
struct Lists {
    old: [Record; 2],
    new: [Record; 2],
}

fn widened(alloc: Global, from: u32, to: u32) -> Result<Lists, Fail>
    requires old_width { from ≤ 100 }
    requires new_width { to ≤ 100 }
    ensures { IfOk result (λ lists. DifferIn (2 ∷ []) lists.old lists.new) }
{
    let name = Name::read(b"o").ok_or("name")?;
    let lower = record(alloc, name, 1, 2)?;
    let upper = record(alloc, name, 2, from)?;
    let same = again(&lower)?;
    let wider = record(alloc, name, 2, to)?;
    Ok(Lists {
        old: [lower, upper],
        new: [same, wider],
    })
}

#[test]
fn pairs_damage_what_differs(rt: HostRuntime) -> Result<(), Fail> {
    let alloc = rt.alloc();
    let old = pair(alloc, 1, 2, 2, 4)?;
    let widened = pair(alloc, 1, 2, 2, 5)?;
    let restacked = pair(alloc, 2, 4, 1, 2)?;
    let replaced = pair(alloc, 1, 2, 3, 4)?;
    assert_eq!(rt; between(alloc, &old, &old)?.area(), 0);
    assert_eq!(rt; between(alloc, &old, &widened)?.area(), 20);
    assert_eq!(rt; between(alloc, &old, &restacked)?.area(), 8);
    assert_eq!(rt; between(alloc, &old, &replaced)?.area(), 16);
    Ok(())
}

#[test]
fn marks_leave_the_damage(rt: HostRuntime) -> Result<(), Fail> {
    let alloc = rt.alloc();
    let lists = widened(alloc, 4, 5)?;
    assert_eq!(rt; between(alloc, &lists.old, &lists.new)?.area(), 20);
    assert_eq!(rt;
        between_marked(alloc, &lists.old, &lists.new, &[2], &[])?.area(),
        20
    );
    Ok(())
}
