// Frames of a canvas of which a part is hidden, and loads.
ghost use Rattle.std.specs.Prelude.{◌≡◌, [], true, IfOk};
ghost use Rattle.ev_model.specs.Limits.{IsEdit};
ghost use Rattle.ev_canvas.specs.CanvasFrames.{finish_of, IsFrame};

use crate::{Canvas, Event, Finish, Flushed, NoPicture, Setup};
use ev_geom::Rect;
use ev_model::{Edit, Kind, Name, Refusal};
use ev_port::{MemScreen, ScreenRoom};
use ev_preload::LoadEnd;
use std::alloc::{AllocError, Global};
use std::test::Fail;

// A canvas with cells of 8 and two buffers, on which nothing was done yet.
fn new(alloc: Global) -> Result<Canvas, AllocError>
    ensures taken { IfOk result (λ canvas. canvas.events ≡ []) }
    ensures idle { IfOk result (λ canvas. canvas.loads.running ≡ []) }
    ensures first { IfOk result (λ canvas. canvas.loads.begun ≡ 0) }
{
    let setup = Setup {
        buffers: 2,
        cell: 8,
    };
    Canvas::create(alloc, setup)
}

// Whether an edit is carried out, while nothing is loaded.
fn is_edited(canvas: &mut Canvas, edit: &Edit) -> bool
    requires text { IsEdit edit.now }
    requires taken { canvas.old.events ≡ [] }
    requires idle { canvas.old.loads.running ≡ [] }
    ensures taken { canvas.new.events ≡ [] }
    ensures idle { canvas.new.loads.running ≡ [] }
    ensures same { canvas.new.loads.begun ≡ canvas.old.loads.begun }
{
    canvas.edit(edit).is_ok()
}

// A canvas of w by h pixels.
fn sized(alloc: Global, w: i64, h: i64) -> Result<Canvas, AllocError> {
    let mut canvas = new(alloc)?;
    if is_edited(&mut canvas, &Edit::Size { w, h }) {
        Ok(canvas)
    } else {
        Err(AllocError)
    }
}

// A screen that fails at these frames.
fn screen(alloc: Global, failing: Vec<u64>) -> Result<MemScreen, AllocError> {
    let room = ScreenRoom {
        frames: 4,
        updates: 9,
        pixels: 33_280,
    };
    MemScreen::new(alloc, room, failing)
}

// Starts a frame, and says how many tiles it draws.
fn started(canvas: &mut Canvas) -> Option<u32> {
    if canvas.frames() >= 8 || canvas.painted() >= 1_000_000 {
        return None;
    }
    match canvas.start() {
        Ok(started) => Some(started.tiles),
        Err(_) => None,
    }
}

// Whether all jobs of the running frame are drawn.
fn is_drawn(canvas: &Canvas) -> bool
    ensures { result ≡ true → IsFrame (finish_of canvas.now.frames) }
{
    match canvas.finish() {
        Finish::Frame { .. } => true,
        Finish::Pending { .. } | Finish::Idle => false,
    }
}

// Whether the running frame is drawn and shown.
fn is_shown(canvas: &mut Canvas, screen: &mut MemScreen) -> bool {
    canvas.step(u32::MAX);
    if !is_drawn(canvas) {
        return false;
    }
    match canvas.flush(screen) {
        Flushed::Shown => true,
        Flushed::Lost { .. } => false,
    }
}

// Whether the running frame is shown, and updates so many rectangles.
fn is_shown_with(canvas: &mut Canvas, screen: &mut MemScreen, updates: usize) -> bool {
    is_shown(canvas, screen) && canvas.updates().len() == updates
}

// Whether a frame is started and shown, where the frame drawn last updates so many rectangles
// before the flush, and so many after it.
fn shows(canvas: &mut Canvas, screen: &mut MemScreen, before: usize, after: usize) -> bool {
    started(canvas).is_some()
        && canvas.updates().len() == before
        && is_shown_with(canvas, screen, after)
}

// Whether a frame is started and lost.
fn loses(canvas: &mut Canvas, screen: &mut MemScreen) -> bool {
    started(canvas).is_some() && !is_shown(canvas, screen)
}

// Hides half of the canvas, and no rectangle with numbers out of their ranges.
fn hide_half(canvas: &mut Canvas) -> bool {
    let bad = canvas.hide_area(0, 0, -1, 1);
    bad == Err(Refusal::Range) && canvas.hide_area(4, 0, 4, 8) == Ok(())
}

// Hides nothing any more, and gives a pixel.
fn give_pixel(canvas: &mut Canvas) -> bool {
    canvas.clear_areas();
    canvas.damage(0, 0, 1, 1) == Ok(())
}

// Whether the frame drawn last updates the left half first.
fn has_left_half(canvas: &Canvas) -> bool {
    canvas.updates().first().copied() == Rect::new(0, 0, 8, 8)
}

// Whether a half that was hidden, and a frame that was lost, are updated by the frames after them.
fn owes_later(canvas: &mut Canvas, screen: &mut MemScreen) -> bool {
    hide_half(canvas)
        && shows(canvas, screen, 0, 2)
        && give_pixel(canvas)
        && loses(canvas, screen)
        && shows(canvas, screen, 1, 1)
        && has_left_half(canvas)
        && shows(canvas, screen, 1, 0)
}

#[test]
fn what_was_hidden_or_lost_is_owed_later(rt: HostRuntime) -> Result<(), Fail> {
    let alloc = rt.alloc();
    let mut screen = screen(alloc, [2].to_vec(alloc)?)?;
    let mut canvas = sized(alloc, 16, 8)?;
    assert!(rt; owes_later(&mut canvas, &mut screen));
    Ok(())
}

// Whether the first frame is running, and has neither a picture nor hidden pixels yet.
fn is_undrawn(canvas: &Canvas) -> bool {
    canvas.picture().err() == Some(NoPicture::Busy)
        && canvas.finish()
            == (Finish::Pending {
                n: 1,
                done: 0,
                limit: 1,
            })
        && canvas.hidden().rects().is_empty()
}

// Whether there is no picture before the first start, nor while its frame is running.
fn is_drawn_at_the_flush(canvas: &mut Canvas) -> bool {
    canvas.picture().err() == Some(NoPicture::NoFrame)
        && hide_half(canvas)
        && started(canvas) == Some(1)
        && is_undrawn(canvas)
}

#[test]
fn a_running_frame_has_no_picture_yet(rt: HostRuntime) -> Result<(), Fail> {
    let mut canvas = sized(rt.alloc(), 16, 8)?;
    assert!(rt; is_drawn_at_the_flush(&mut canvas));
    Ok(())
}

// Whether a frame is started that draws so many tiles, and shown.
fn draws(canvas: &mut Canvas, screen: &mut MemScreen, tiles: u32) -> bool {
    started(canvas) == Some(tiles) && is_shown(canvas, screen)
}

// Whether each frame draws the tiles that its buffer has missed, and no others.
fn draws_what_was_missed(canvas: &mut Canvas, screen: &mut MemScreen) -> bool {
    draws(canvas, screen, 3)
        && canvas.damage(0, 0, 1, 1) == Ok(())
        && draws(canvas, screen, 3)
        && draws(canvas, screen, 1)
        && draws(canvas, screen, 0)
}

#[test]
fn a_buffer_is_drawn_where_it_missed_something(rt: HostRuntime) -> Result<(), Fail> {
    let alloc = rt.alloc();
    let mut screen = screen(alloc, Vec::new(alloc))?;
    let mut canvas = sized(alloc, 130, 64)?;
    assert!(rt; draws_what_was_missed(&mut canvas, &mut screen));
    Ok(())
}

// Whether an image object is made that names a file.
fn has_image(canvas: &mut Canvas, name: &Name) -> bool
    requires taken { canvas.old.events ≡ [] }
    requires idle { canvas.old.loads.running ≡ [] }
    ensures taken { canvas.new.events ≡ [] }
    ensures same { canvas.new.loads.begun ≡ canvas.old.loads.begun }
{
    let kind = Kind::Image;
    if !is_edited(canvas, &Edit::Make { name: *name, kind }) {
        return false;
    }
    let key = *name;
    is_edited(canvas, &Edit::File { name: *name, key })
}

// A canvas with such an object.
fn with_image(alloc: Global, name: &Name) -> Result<Canvas, AllocError>
    ensures taken { IfOk result (λ canvas. canvas.events ≡ []) }
    ensures first { IfOk result (λ canvas. canvas.loads.begun ≡ 0) }
{
    let mut canvas = new(alloc)?;
    if has_image(&mut canvas, name) {
        Ok(canvas)
    } else {
        Err(AllocError)
    }
}

// Begins a load, whose file turns out to be missing. Gives the event of its end.
#[tactic(auto, using(crate::proofs::Loading::missing_suits))]
fn load_missing(canvas: &mut Canvas, name: &Name) -> Option<Event>
    requires taken { canvas.old.events ≡ [] }
    requires first { canvas.old.loads.begun ≡ 0 }
{
    if canvas.preload(name).is_err() {
        return None;
    }
    canvas.hold(1, LoadEnd::Missing);
    if !canvas.collect(1) {
        return None;
    }
    canvas.next_event()
}

// Whether the only event of such a load tells that it failed.
fn tells_failure(alloc: Global, name: &Name) -> Result<bool, AllocError> {
    let mut canvas = with_image(alloc, name)?;
    let event = load_missing(&mut canvas, name);
    Ok(matches!(event, Some(Event::PreloadFailed { .. })) && canvas.next_event().is_none())
}

// An end that is held for a preload is taken, and tells how it ended, once.
#[test]
fn a_load_makes_its_event(rt: HostRuntime) -> Result<(), Fail> {
    let name = Name::read(b"i").expect(&rt, "a name");
    assert!(rt; tells_failure(rt.alloc(), &name)?);
    Ok(())
}
