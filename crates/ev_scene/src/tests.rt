// A scene that is edited and captured. Each edit stands in a function of its own, which tells
// nothing, so that no proof carries what the others promise.
ghost use Rattle.ev_model.specs.Limits.{IsEdit};

use crate::{Captured, NoMemory, SceneBox};
use ev_argb::Pixel;
use ev_geom::Rect;
use ev_model::{Edit, Kind, Name, Objects, Record};
use std::alloc::Global;
use std::test::Fail;

fn name(text: &[u8]) -> Result<Name, Fail> {
    Ok(Name::read(text).ok_or("a name")?)
}

// Whether an edit is carried out.
fn is_done(scene: &mut SceneBox, edit: &Edit) -> bool
    requires { IsEdit edit.now }
{
    scene.edit(edit).is_ok()
}

fn make(scene: &mut SceneBox, name: &Name, kind: Kind) -> bool {
    is_done(scene, &Edit::Make { name: *name, kind })
}

fn delete(scene: &mut SceneBox, name: &Name) -> bool {
    is_done(scene, &Edit::Delete { name: *name })
}

fn move_to(scene: &mut SceneBox, name: &Name, x: i64, y: i64) -> bool {
    is_done(scene, &Edit::Move { name: *name, x, y })
}

fn resize(scene: &mut SceneBox, name: &Name, w: i64, h: i64) -> bool {
    is_done(scene, &Edit::Resize { name: *name, w, h })
}

fn color(scene: &mut SceneBox, name: &Name, (r, g, b, a): (i64, i64, i64, i64)) -> bool {
    let name = *name;
    is_done(scene, &Edit::Color { name, r, g, b, a })
}

fn show(scene: &mut SceneBox, name: &Name) -> bool {
    is_done(
        scene,
        &Edit::Show {
            name: *name,
            on: true,
        },
    )
}

fn raise(scene: &mut SceneBox, name: &Name) -> bool {
    is_done(
        scene,
        &Edit::Raise {
            name: *name,
            up: true,
        },
    )
}

fn clip(scene: &mut SceneBox, name: &Name, clipper: &Name) -> bool {
    let (name, clipper) = (*name, *clipper);
    is_done(scene, &Edit::Clip { name, clipper })
}

fn member(scene: &mut SceneBox, name: &Name, smart: &Name) -> bool {
    let (name, smart) = (*name, *smart);
    is_done(scene, &Edit::Member { name, smart })
}

fn has_id(scene: &SceneBox, name: &Name, id: u64) -> bool {
    scene.find(name) == Some(id)
}

fn id_of(scene: &SceneBox, name: &Name) -> Option<u64> {
    scene.find(name)
}

// The id of the object at a place, the lowest first, or 0.
fn id_at(objects: &Objects, place: usize) -> u64 {
    match objects.as_slice().get(place) {
        Some(state) => state.get().id,
        None => 0,
    }
}

fn ids(objects: &Objects) -> (u64, u64, u64) {
    (id_at(objects, 0), id_at(objects, 1), id_at(objects, 2))
}

// The only record, or none.
fn only(records: &[Record]) -> Option<&Record> {
    match records {
        [record] => Some(record),
        _ => None,
    }
}

fn area(records: &[Record]) -> Option<Rect> {
    Some(only(records)?.area)
}

fn color_of(records: &[Record]) -> Option<Pixel> {
    Some(only(records)?.color)
}

// The ids of the objects that were captured in their order, and the area and the colour of the only
// record.
type Seen = ((u64, u64, u64), Option<Rect>, Option<Pixel>);

fn seen(captured: &Captured) -> Seen {
    let records = captured.records();
    (
        ids(&captured.scene().objects),
        area(records),
        color_of(records),
    )
}

fn is_area(area: Option<Rect>, x: i64, y: i64, w: i64, h: i64) -> bool {
    area.is_some() && area == Rect::new(x, y, w, h)
}

// Whether a colour has this alpha, red and green, and no blue.
fn is_color(color: Option<Pixel>, a: u8, r: u8, g: u8) -> bool {
    color == Some(Pixel::new(a, r, g, 0))
}

fn capture(scene: &SceneBox) -> Result<Seen, NoMemory> {
    Ok(seen(&scene.capture()?))
}

// Makes two rectangles, and gives the first a place, a size and a colour.
fn is_made(scene: &mut SceneBox, a: &Name, b: &Name) -> bool {
    let first = make(scene, a, Kind::Rect);
    let second = make(scene, b, Kind::Rect);
    let moved = move_to(scene, a, 300, -5);
    let sized = resize(scene, a, 30, 20);
    let coloured = color(scene, a, (200, 10, 0, 100));
    first && second && moved && sized && coloured
}

// Shows the first and raises it.
fn is_raised(scene: &mut SceneBox, a: &Name) -> bool {
    let shown = show(scene, a);
    let raised = raise(scene, a);
    shown && raised
}

// Two rectangles, of which the first one is raised, or none where an edit was refused.
fn two(alloc: Global, a: &Name, b: &Name) -> Result<Option<SceneBox>, NoMemory> {
    let mut scene = SceneBox::new(alloc)?;
    let made = is_made(&mut scene, a, b);
    let raised = is_raised(&mut scene, a);
    Ok((made && raised).then_some(scene))
}

#[test]
fn a_scene_is_captured_in_order_and_cut_by_the_canvas(rt: HostRuntime) -> Result<(), Fail> {
    let (a, b) = (name(b"a")?, name(b"b")?);
    let scene = two(rt.alloc(), &a, &b)?.ok_or("edits")?;
    assert!(rt; has_id(&scene, &b, 2));
    let (ids, area, color) = capture(&scene)?;
    assert_eq!(rt; ids, (2, 1, 0));
    assert!(rt; is_area(area, 300, 0, 20, 15));
    assert!(rt; is_color(color, 100, 100, 10));
    Ok(())
}

// Puts a into a new group g, which b clips, and moves the group.
fn is_grouped(scene: &mut SceneBox, g: &Name, a: &Name, b: &Name) -> bool {
    let made = make(scene, g, Kind::Smart);
    let shown = show(scene, g);
    let joined = member(scene, a, g);
    let clipped = clip(scene, g, b);
    let moved = move_to(scene, g, -300, 5);
    made && shown && joined && clipped && moved
}

// Gives the clipper a size, and shows both rectangles.
fn is_shown(scene: &mut SceneBox, a: &Name, b: &Name) -> bool {
    let sized = resize(scene, b, 8, 9);
    let first = show(scene, a);
    let second = show(scene, b);
    sized && first && second
}

// A group of one rectangle, which another one clips.
fn grouped(alloc: Global, g: &Name, a: &Name, b: &Name) -> Result<Option<SceneBox>, NoMemory> {
    let mut scene = SceneBox::new(alloc)?;
    let made = is_made(&mut scene, a, b);
    let grouped = is_grouped(&mut scene, g, a, b);
    let shown = is_shown(&mut scene, a, b);
    Ok((made && grouped && shown).then_some(scene))
}

#[test]
fn a_group_is_clipped_and_moved(rt: HostRuntime) -> Result<(), Fail> {
    let (a, b, g) = (name(b"a")?, name(b"b")?, name(b"g")?);
    let mut scene = grouped(rt.alloc(), &g, &a, &b)?.ok_or("edits")?;
    let (ids, area, _) = capture(&scene)?;
    assert_eq!(rt; ids, (2, 3, 1));
    assert!(rt; is_area(area, 0, 0, 8, 9));
    assert!(rt; delete(&mut scene, &g));
    assert_eq!(rt; id_of(&scene, &a), None);
    Ok(())
}
