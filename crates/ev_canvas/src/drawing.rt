// The newest start, what was drawn before it, and how its frame is drawn.
ghost use Rattle.std.specs.Prelude.{◌≡◌, ◌≤◌, ◌<◌, ◌^◌, ℕ, min, true, false, None, Some, IfOk, OnErr, option_map};
ghost use Rattle.ev_buffers.specs.Kept.{IsNew};
ghost use Rattle.ev_canvas.specs.CanvasFrames.{drawn_by, runs};
ghost use Rattle.ev_canvas.specs.Drawings.{latest_of, captured, capture_in};

use crate::NoMemory;
use crate::begun::Begun;
use crate::newest::{Drawn, Newest};
use ev_frames::Easel;
use std::alloc::Global;

/// The newest start, if there is one, and the updates and hidden pixels of the frame drawn before it.
#[derive(Drop)]
pub(crate) struct Drawing {
    pub(crate) newest: Option<Newest>,
    pub(crate) before: Drawn,
}

impl Drawing {
    ghost use Rattle.ev_canvas.specs.Drawings.{IsDrawing, IsBegun, StandsNow, StepsOn, latest_in, last_drawn, painted_of, jobs_left, keeps_size};

    /// Before the first start.
    pub(crate) fn nothing(alloc: Global) -> Drawing
        ensures { result ≡ record { newest = None; before = drawn_by None } }
    {
        Drawing {
            newest: None,
            before: Drawn::nothing(alloc),
        }
    }

    /// A start becomes the newest: its frame is set up on the next of the buffers, or on so many new ones
    /// where their size is new. Says how many tiles it draws. `NoMemory` where there is no room, and
    /// then nothing changes.
    pub(crate) fn start(
        &mut self,
        alloc: Global,
        buffers: u32,
        begun: Begun,
    ) -> Result<u32, NoMemory>
        requires is { IsDrawing buffers self.old }
        requires idle { runs (latest_in self.old) ≡ false }
        requires begun { IsBegun self.old.newest begun }
        requires painted { painted_of self.old.newest < 2 ^ 63 }
        ensures is { IfOk result (λ tiles. IsDrawing buffers self.new) }
        ensures stands { IfOk result (λ tiles. StandsNow buffers self.old begun tiles self.new) }
        ensures same { OnErr result (self.new ≡ self.old) }
    {
        if self.keeps_size(&begun) {
            self.follow(alloc, begun)
        } else {
            self.open(alloc, buffers, begun)
        }
    }

    // Whether the newest start has the size of this one.
    fn keeps_size(&self, begun: &Begun) -> bool
        ensures { result ≡ keeps_size self.now.newest begun.now }
    {
        match &self.newest {
            Some(newest) => newest.has_size_of(begun),
            None => false,
        }
    }

    // The start becomes the newest on the same buffers.
    fn follow(&mut self, alloc: Global, begun: Begun) -> Result<u32, NoMemory>
        requires idle { runs (latest_in self.old) ≡ false }
        requires size { keeps_size self.old.newest begun ≡ true }
        requires is { (buffers : ℕ) × IsDrawing buffers self.old }
        requires begun { IsBegun self.old.newest begun }
        requires painted { painted_of self.old.newest < 2 ^ 63 }
        ensures is { IfOk result (λ tiles. (buffers : ℕ) → IsDrawing buffers self.old
            → IsDrawing buffers self.new) }
        ensures stands { IfOk result (λ tiles. (buffers : ℕ) → IsDrawing buffers self.old
            → StandsNow buffers self.old begun tiles self.new) }
        ensures same { OnErr result (self.new ≡ self.old) }
    {
        match &mut self.newest {
            Some(newest) => {
                let tiles = begun.set_up(alloc, &mut newest.easel)?;
                self.before = newest.renew(begun, tiles);
                Ok(tiles)
            }
            None => unreachable!(),
        }
    }

    // The start becomes the newest on new buffers, which are all there before the old ones go.
    fn open(&mut self, alloc: Global, buffers: u32, begun: Begun) -> Result<u32, NoMemory>
        requires is { IsDrawing buffers self.old }
        requires idle { runs (latest_in self.old) ≡ false }
        requires size { keeps_size self.old.newest begun ≡ false }
        requires begun { IsBegun self.old.newest begun }
        requires painted { painted_of self.old.newest < 2 ^ 63 }
        ensures is { IfOk result (λ tiles. IsDrawing buffers self.new) }
        ensures stands { IfOk result (λ tiles. StandsNow buffers self.old begun tiles self.new) }
        ensures same { OnErr result (self.new ≡ self.old) }
    {
        let mut easel = self.new_easel(alloc, buffers, &begun)?;
        let tiles = begun.set_up(alloc, &mut easel)?;
        self.retire();
        self.newest = Some(begun.into_newest(tiles, easel));
        Ok(tiles)
    }

    // What was drawn last stays, and its start is the newest no more.
    fn retire(&mut self)
        requires { runs (latest_in self.old) ≡ false }
        ensures { self.new ≡ record {
          newest = None;
          before = last_drawn self.old.newest self.old.before;
        } }
    {
        if let Some(last) = self.newest.take() {
            self.before = last.into_drawn();
        }
    }

    // New buffers of the size of this start, in place of those that there are.
    fn new_easel(&self, alloc: Global, buffers: u32, begun: &Begun) -> Result<Easel, NoMemory>
        requires is { IsDrawing buffers self.now }
        requires painted { painted_of self.now.newest < 2 ^ 63 }
        ensures new { IfOk result (λ easel. IsNew buffers begun.now.shot.scene.w
            begun.now.shot.scene.h easel.chain) }
        ensures idle { IfOk result (λ easel. easel.frame ≡ None) }
        ensures given_up { IfOk result (λ easel. easel.given_up ≡ painted_of self.now.newest) }
    {
        let scene = begun.shot.scene();
        match &self.newest {
            Some(last) => last.easel.resized(alloc, scene.w, scene.h),
            None => Easel::create(alloc, buffers, scene.w, scene.h),
        }
    }

    /// Draws up to so many jobs of the running frame, the first of those that are left, and says how
    /// many. It takes no memory.
    pub(crate) fn step(&mut self, most: u32) -> u32
        ensures count { result ≡ min most (jobs_left self.old.newest) }
        ensures steps { StepsOn self.old result self.new }
        ensures is { (buffers : ℕ) → IsDrawing buffers self.old → IsDrawing buffers self.new }
    {
        match &mut self.newest {
            Some(newest) => newest.easel.step(most),
            None => 0,
        }
    }
}
