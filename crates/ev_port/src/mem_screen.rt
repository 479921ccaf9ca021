// A screen in memory. The parts of its frames lie one after the other in three lists.
ghost use Rattle.std.specs.Prelude.{◌≡◌, ◌+◌, ◌*◌, ◌≤◌, ◌++◌, [], ◌∷◌, length, is_err, false, IfOk, OnOk, OnErr, Some, vec_len, vec_capacity};
ghost use Rattle.ev_argb.specs.Grid.{IsWhole};
ghost use Rattle.ev_port.specs.Calls.{no_calls};
ghost use Rattle.ev_port.specs.Causes.{HasCause};
ghost use Rattle.ev_port.specs.FlatFrames.{marks_from, all_updates, all_pixels};
ghost use Rattle.ev_port.specs.Frame.{frame_of, pixels_of};
ghost use Rattle.ev_port.specs.Memory.{is_too_small, present_fails, room_after, after_present};
ghost use Rattle.ev_port.specs.Told.{GrowsBy};

use crate::calls::Calls;
use crate::room::append;
use crate::{Failed, NoMemory, Screen};
use ev_argb::{MAX_SIDE, Picture, Pixel};
use ev_geom::Rect;
use std::alloc::Global;
use std::marker::Model;

/// How much a screen in memory can take, in all its frames together.
#[derive(Clone, Copy, Debug, PartialEq, Eq)]
pub struct ScreenRoom {
    pub frames: usize,
    pub updates: usize,
    pub pixels: usize,
}

/// A frame that was shown: its number and its size in pixels. Among the updates and pixels of all frames
/// it has `updates` rectangles from `updates_at` on, and w*h pixels, rows first, from `pixels_at` on.
#[derive(Clone, Copy, Debug, PartialEq, Eq)]
pub struct ShownFrame {
    pub n: u64,
    pub w: u32,
    pub h: u32,
    pub updates_at: usize,
    pub updates: usize,
    pub pixels_at: usize,
}

/// A screen that keeps its frames, in room that it takes when it is made (docs/ARCHITECTURE.md, The
/// outside). It fails at the calls of `present` whose numbers it was given, counted from 1, and where a
/// frame is larger than the room that is left. Nothing is shown then.
#[derive(Drop)]
pub struct MemScreen {
    frames: Vec<ShownFrame>,
    updates: Vec<Rect>,
    pixels: Vec<Pixel>,
    room: ScreenRoom,
    calls: Calls,
}

impl Model for MemScreen {
    ghost use Rattle.std.specs.Prelude.{◌+◌, ◌≤◌, vec_len, vec_capacity};
    ghost use Rattle.ev_port.specs.FlatFrames.{LieFlat, frames_of};
    ghost use Rattle.ev_port.specs.Memory.{MemoryScreen};

    ghost Value = { MemoryScreen };

    ghost view = { λ s. record { frames = frames_of s.frames.items s.updates.items s.pixels.items; room = s.room; calls = s.calls } };

    ghost invariant = { λ s. LieFlat (frames_of s.frames.items s.updates.items s.pixels.items) s.frames.items s.updates.items s.pixels.items
        × (vec_len s.frames + s.room.frames ≤ vec_capacity s.frames)
        × (vec_len s.updates + s.room.updates ≤ vec_capacity s.updates)
        × (vec_len s.pixels + s.room.pixels ≤ vec_capacity s.pixels) };
}

impl MemScreen {
    /// A screen with this room. `NoMemory`: the room found no memory.
    pub fn new(alloc: Global, room: ScreenRoom, failing: Vec<u64>) -> Result<MemScreen, NoMemory>
        ensures { IfOk result (λ screen. screen ≡ record { frames = []; room = room; calls = no_calls failing.items }) }
    {
        Ok(MemScreen {
            frames: Vec::with_capacity(alloc, room.frames)?,
            updates: Vec::with_capacity(alloc, room.updates)?,
            pixels: Vec::with_capacity(alloc, room.pixels)?,
            room,
            calls: Calls::new(failing),
        })
    }

    /// The frames that were shown.
    pub fn shown(&self) -> &[ShownFrame]
        ensures { result.now ≡ marks_from 0 0 self.now.frames }
    {
        &self.frames
    }

    /// The updates of all frames, one after the other, in pixels of their frame.
    pub fn updates(&self) -> &[Rect]
        ensures { result.now ≡ all_updates self.now.frames }
    {
        &self.updates
    }

    /// The pixels of all frames, one after the other, rows first.
    pub fn pixels(&self) -> &[Pixel]
        ensures { result.now ≡ all_pixels self.now.frames }
    {
        &self.pixels
    }

    // Appends a frame for which there is room.
    fn show(&mut self, n: u64, updates: &[Rect], picture: &Picture)
        requires whole { IsWhole picture.now }
        requires room { is_too_small self.old.room (length updates.now) (picture.now.w * picture.now.h) ≡ false }
        ensures { let frame = frame_of n updates.now picture.now in
            self.new ≡ record self.old { frames = self.old.frames ++ frame ∷ []; room = room_after self.old.room frame } }
    {
        let frame = ShownFrame {
            n,
            w: picture.width(),
            h: picture.height(),
            updates_at: self.updates.len(),
            updates: updates.len(),
            pixels_at: self.pixels.len(),
        };
        append(&mut self.frames, &[frame]);
        append(&mut self.updates, updates);
        append_pixels(&mut self.pixels, picture);
        self.room.frames -= 1;
        self.room.updates -= updates.len();
        self.room.pixels -= frame.w as usize * frame.h as usize;
    }
}

impl Screen for MemScreen {
    ghost shown = { λ s. Some s.frames };

    ghost faults = { λ s. s.calls.faults };

    fn present(&mut self, n: u64, updates: &[Rect], picture: &Picture) -> Result<(), Failed>
        requires { IsWhole picture.now }
        ensures ok { OnOk result (GrowsBy (Some self.old.frames) (Some self.new.frames) (frame_of n updates.now picture.now ∷ [])) }
        ensures err { OnErr result (GrowsBy (Some self.old.frames) (Some self.new.frames) []) }
        ensures cause { HasCause self.old.calls.faults self.new.calls.faults result }
        ensures fails { is_err result ≡ present_fails self.old (frame_of n updates.now picture.now) }
        ensures after { self.new ≡ after_present self.old (frame_of n updates.now picture.now) }
    {
        let pixels = picture.width() as usize * picture.height() as usize;
        if self.calls.is_listed() || is_too_small(self.room, updates.len(), pixels) {
            self.calls.fail();
            return Err(Failed);
        }
        self.calls.pass();
        self.show(n, updates, picture);
        Ok(())
    }

    fn faults(&self) -> u64 {
        self.calls.faults()
    }
}

// Whether the room is too small for one more frame with so many updates and pixels.
fn is_too_small(room: ScreenRoom, updates: usize, pixels: usize) -> bool
    ensures { result ≡ is_too_small room updates pixels }
{
    room.frames < 1 || room.updates < updates || room.pixels < pixels
}

// Appends the pixels of a picture, row by row from the top, where there is room for them.
fn append_pixels(pixels: &mut Vec<Pixel>, picture: &Picture)
    requires whole { IsWhole picture.now }
    requires room { vec_len pixels.old + picture.now.w * picture.now.h ≤ vec_capacity pixels.old }
    ensures items { pixels.new.items ≡ pixels.old.items ++ pixels_of picture.now }
    ensures len { vec_len pixels.new ≡ vec_len pixels.old + picture.now.w * picture.now.h }
    ensures capacity { vec_capacity pixels.old ≤ vec_capacity pixels.new }
{
    let mut row = [Pixel::CLEAR; MAX_SIDE as usize];
    let width = picture.width() as usize;
    for y in 0..picture.height() {
        picture.row(y, &mut row[..width]);
        append(pixels, &row[..width]);
    }
}
