// Starts of frames.
ghost use Rattle.std.specs.Prelude.{◌≡◌, ◌≤◌, ◌<◌, ◌+◌, ◌^◌, OnOk, OnErr};
ghost use Rattle.ev_model.specs.Capture.{capture_of};
ghost use Rattle.ev_scene.specs.Board.{board, stage_of};

use crate::Canvas;
use crate::begun::Begun;

/// A start that was accepted: its number, counted from 1, and how many tiles its frame draws, each in
/// one job.
#[derive(Clone, Copy, Debug, PartialEq, Eq)]
pub struct Started {
    pub n: u64,
    pub tiles: u32,
}

/// Why a start was refused. The first that holds is told.
#[derive(Clone, Copy, Debug, PartialEq, Eq)]
pub enum StartErr {
    /// A frame is running.
    Busy,
    /// There is no room for what the start keeps or for its frame.
    NoMemory,
}

impl Canvas {
    ghost use Rattle.ev_canvas.specs.Starts.{last_number, pixels_opened};
    ghost use Rattle.ev_canvas.specs.CanvasCalls.{MayStart};
    ghost use Rattle.ev_canvas.specs.Canvas.{now_of};

    /// Starts a frame of the scene as it stands, which later edits leave alone. `Busy` exactly where a
    /// frame is running; `NoMemory` where there is no room for it, and no later call on the frame takes
    /// memory (docs/CANVAS.md, "Frames"). Fewer than 2^40 starts were accepted and fewer than 2^63
    /// pixels painted.
    pub fn start(&mut self) -> Result<Started, StartErr>
        requires count { last_number self.old.frames.newest < 2 ^ 40 }
        requires painted { self.old.painted < 2 ^ 63 }
        ensures starts { MayStart self.old.setup (now_of self.old) result (now_of self.new) }
        ensures alone { self.new
            ≡ record self.old { frames = self.new.frames; painted = self.new.painted } }
        ensures painted { OnOk result (self.new.painted ≡ self.old.painted
            + pixels_opened self.old.setup.buffers self.old.frames.newest
            (capture_of (stage_of (board self.old.scene)))) }
        ensures most { self.new.painted ≤ self.old.painted + 2 ^ 26 }
        ensures same { OnErr result (self.new ≡ self.old) }
    {
        if self.is_running() {
            return Err(StartErr::Busy);
        }
        self.scene.list_order();
        let Ok(shot) = self.scene.capture() else {
            return Err(StartErr::NoMemory);
        };
        let Ok(begun) = Begun::of(
            self.alloc,
            self.setup.cell,
            &self.drawing.newest,
            &self.given,
            &self.areas,
            shot,
        ) else {
            return Err(StartErr::NoMemory);
        };
        begun.tell_limits();
        let n = begun.number;
        let Ok(tiles) = self.drawing.start(self.alloc, self.setup.buffers, begun) else {
            return Err(StartErr::NoMemory);
        };
        self.given.clear();
        Ok(Started { n, tiles })
    }
}
