// What the frame of a start owes.
ghost use Rattle.std.specs.Prelude.{◌≡◌, ◌≤◌, ◌&&◌, IfOk, OnOk, Some, option_map};
ghost use Rattle.ev_geom.specs.Area.{holds};
ghost use Rattle.ev_geom.specs.Bands.{has_pixel, IsBandsOf, FitsRegion};
ghost use Rattle.ev_model.specs.Capture.{capture_of};
ghost use Rattle.ev_model.specs.Stage.{stage, canvas_on};
ghost use Rattle.ev_damage.specs.Places.{Adds};
ghost use Rattle.ev_canvas.specs.Starts.{touched, has_size_of, OwesOn, OwesAll, Owes};
ghost use Rattle.ev_canvas.specs.Drawings.{latest_of};

use crate::NoMemory;
use crate::newest::Newest;
use ev_damage::between;
use ev_geom::Rect;
use ev_model::Scene;
use ev_region::Region;
use ev_scene::Captured;
use std::alloc::Global;

/// The whole canvas of a scene.
pub(crate) fn canvas(scene: &Scene) -> Rect
    requires width { scene.now.w ≤ 4096 }
    requires height { scene.now.h ≤ 4096 }
    ensures canvas { result ≡ canvas_on scene.now.w scene.now.h }
    ensures fits { FitsRegion result }
{
    Rect::at_origin(scene.w, scene.h)
}

/// The pixels of the rectangles that lie on the canvas.
pub(crate) fn on_canvas(alloc: Global, areas: &[Rect], canvas: &Rect) -> Result<Region, NoMemory>
    requires { FitsRegion canvas.now }
    ensures { IfOk result (IsBandsOf (λ x y. has_pixel areas.now x y && holds canvas.now x y)) }
{
    let mut region = Region::new(alloc);
    for area in areas {
        add_meet(&mut region, area, canvas)?;
    }
    Ok(region)
}

// Adds the common pixels of two rectangles.
fn add_meet(region: &mut Region, one: &Rect, other: &Rect) -> Result<(), NoMemory>
    requires { FitsRegion other.now }
    ensures { OnOk result
        (Adds (λ x y. holds one.now x y && holds other.now x y) region.old region.new) }
{
    let both = one.meet(other);
    if !both.is_empty() {
        region.add_rect(&both)?;
    }
    Ok(())
}

/// What a start owes after the one before, with cells of this size and the rectangles given since
/// then (docs/CANVAS.md, "Frames").
pub(crate) fn owed(
    alloc: Global,
    cell: u32,
    before: &Option<Newest>,
    now: &Captured,
    given: &[Rect],
) -> Result<Region, NoMemory>
    requires low { 1 ≤ cell }
    requires high { cell ≤ 64 }
    ensures { IfOk result (Owes cell (option_map latest_of before.now)
        (capture_of (stage now.now.scene)) given.now) }
{
    match before {
        None => whole(alloc, now),
        Some(before) => owed_after(alloc, cell, before, now, given),
    }
}

// The whole canvas.
fn whole(alloc: Global, now: &Captured) -> Result<Region, NoMemory>
    ensures { IfOk result (OwesAll (capture_of (stage now.now.scene))) }
{
    let mut region = Region::new(alloc);
    region.add_rect(&canvas(now.scene()))?;
    Ok(region)
}

/// Whether two scenes have one size.
pub(crate) fn have_one_size(a: &Scene, b: &Scene) -> bool
    ensures { result ≡ has_size_of (capture_of (stage a.now)) (capture_of (stage b.now)) }
{
    a.w == b.w && a.h == b.h
}

// What a start owes that isn't the first.
fn owed_after(
    alloc: Global,
    cell: u32,
    before: &Newest,
    now: &Captured,
    given: &[Rect],
) -> Result<Region, NoMemory>
    requires low { 1 ≤ cell }
    requires high { cell ≤ 64 }
    ensures { IfOk result (Owes cell (Some (latest_of before.now))
        (capture_of (stage now.now.scene)) given.now) }
{
    if have_one_size(before.shot.scene(), now.scene()) {
        owed_on(alloc, cell, before, now, given)
    } else {
        whole(alloc, now)
    }
}

// What was touched, in whole cells, and what the frame before left.
fn owed_on(
    alloc: Global,
    cell: u32,
    before: &Newest,
    now: &Captured,
    given: &[Rect],
) -> Result<Region, NoMemory>
    requires low { 1 ≤ cell }
    requires high { cell ≤ 64 }
    ensures { IfOk result (OwesOn cell (latest_of before.now) (capture_of (stage now.now.scene))
        given.now) }
{
    let touched = touched(alloc, &before.shot, now, given)?;
    let scene = now.scene();
    let mut owed = touched.snap(cell, scene.w, scene.h)?;
    owed.unite(&before.left()?)?;
    Ok(owed)
}

// What may look different or was given, on the canvas.
fn touched(
    alloc: Global,
    before: &Captured,
    now: &Captured,
    given: &[Rect],
) -> Result<Region, NoMemory>
    ensures { IfOk result (IsBandsOf (touched (capture_of (stage before.now.scene))
        (capture_of (stage now.now.scene)) given.now)) }
{
    let canvas = canvas(now.scene());
    let given = on_canvas(alloc, given, &canvas)?;
    let mut touched = between(alloc, before.records(), now.records())?;
    touched.meet_rect(&canvas)?;
    touched.unite(&given)?;
    Ok(touched)
}
