// What is seen of a rectangle that lies across the edge of the canvas.
ghost use Rattle.std.specs.Prelude.{◌≡◌, None, IfOk};
ghost use Rattle.ev_sights.specs.Alone.{IsAlone};

use crate::{NoMemory, records};
use ev_argb::Pixel;
use ev_geom::Rect;
use ev_model::{Content, Name, Object, Objects, Op};
use ev_slots::Slots;
use ev_state::{Shared, Tally};
use std::alloc::Global;
use std::test::Fail;

#[derive(Drop)]
struct Scene {
    slots: Slots<Shared<Object>>,
    objects: Objects,
}

// A scene of one object, over which nothing stands.
fn alone(alloc: Global, object: Object) -> Result<Scene, NoMemory>
    requires id { object.id ≡ 1 }
    requires clipper { object.clipper ≡ None }
    requires parent { object.parent ≡ None }
    ensures { IfOk result (λ scene. IsAlone scene.slots.slots scene.objects) }
{
    let state = Shared::make(alloc, object, &mut Tally::new())?;
    let mut objects = Objects::new(alloc);
    objects.push(state.share()?)?;
    let mut slots = Slots::new(alloc);
    slots.reserve()?;
    slots.push(state);
    Ok(Scene { slots, objects })
}

// The first column that is seen of a rectangle, and how many are.
fn columns(alloc: Global, name: Name, rect: Rect) -> Result<Option<(i32, i32)>, NoMemory> {
    let object = Object {
        id: 1,
        name,
        rect,
        shown: true,
        color: Pixel::new(255, 128, 128, 128),
        op: Op::Blend,
        layer: 0,
        clipper: None,
        parent: None,
        content: Content::Rect,
    };
    let scene = alone(alloc, object)?;
    let records = records(alloc, 20, 10, &scene.slots, &scene.objects)?;
    match records.first() {
        Some(record) => Ok(Some((record.area.x(), record.area.w()))),
        None => Ok(None),
    }
}

#[test]
fn what_is_seen_lies_on_the_canvas(rt: HostRuntime) -> Result<(), Fail> {
    let alloc = rt.alloc();
    let name = Name::read(b"r").ok_or("a name")?;
    let across = Rect::new(-4, 0, 10, 10).ok_or("a rectangle")?;
    let beyond = Rect::new(20, 0, 10, 10).ok_or("a rectangle")?;
    assert_eq!(rt; columns(alloc, name, across)?, Some((0, 6)));
    assert_eq!(rt; columns(alloc, name, beyond)?, None);
    Ok(())
}
