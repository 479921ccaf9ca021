// Frames that are drawn, and end: they are shown, or lost.
ghost use Rattle.std.specs.Prelude.{◌≡◌, ◌≤◌, true};
ghost use Rattle.ev_canvas.specs.CanvasFrames.{end_of, IsFlushed};
ghost use Rattle.ev_canvas.specs.Drawings.{entry_of, IsDone, IsDrawnWhole, FlushesTo};

use crate::Canvas;
use crate::newest::{End, Newest};
use ev_port::Screen;

/// What there is to flush.
#[derive(Clone, Copy, Debug, PartialEq, Eq)]
pub enum Finish {
    /// Frame n is drawn.
    Frame { n: u64 },
    /// Of the jobs of frame n, `done` of `limit` are done.
    Pending { n: u64, done: u64, limit: u64 },
    /// No frame is running.
    Idle,
}

/// How a flush ended.
#[derive(Clone, Copy, Debug, PartialEq, Eq)]
pub enum Flushed {
    /// The frame was shown.
    Shown,
    /// The screen failed, and its count of faults went from `before` to `after`. The frame is lost:
    /// the next start owes what it owed.
    Lost { before: u64, after: u64 },
}

impl Canvas {
    ghost use Rattle.std.specs.Prelude.{◌+◌, ◌*◌, IfSome};
    ghost use Rattle.ev_cmds.specs.Cuts.{most_painted};
    ghost use Rattle.ev_canvas.specs.CanvasFrames.{finish_of, IsFrame};
    ghost use Rattle.ev_canvas.specs.CanvasCalls.{MayStep, MayFlush};
    ghost use Rattle.ev_canvas.specs.Canvas.{now_of};

    /// Draws up to so many jobs of the running frame, the first of those that are left, and says how
    /// many: none where no frame is running. It takes no memory (docs/CANVAS.md, "Frames").
    pub fn step(&mut self, most: u32) -> u32
        ensures steps { MayStep (now_of self.old) most result (now_of self.new) }
        ensures alone { self.new ≡ record self.old { frames = self.new.frames } }
    {
        self.drawing.step(most)
    }

    /// What there is to flush: the running frame, once all its jobs are drawn, or nothing.
    pub fn finish(&self) -> Finish
        ensures { result ≡ finish_of self.now.frames }
    {
        match &self.drawing.newest {
            Some(newest) if newest.end.is_running() => newest.finish(),
            _ => Finish::Idle,
        }
    }

    /// Shows the running frame, whose jobs are all drawn, or loses it where the screen fails. It takes
    /// no memory (docs/CANVAS.md, "Frames").
    pub fn flush<P: Screen>(&mut self, screen: &mut P) -> Flushed
        requires drawn { IsFrame (finish_of self.old.frames) }
        ensures flushes { MayFlush (now_of self.old) result (now_of self.new) }
        ensures shows { IfSome self.old.frames.newest (λ latest. IsFlushed latest.entry
            (record { shown = P.shown screen.old; faults = P.faults screen.old }) result
            (record { shown = P.shown screen.new; faults = P.faults screen.new })) }
        ensures alone { self.new
            ≡ record self.old { frames = self.new.frames; painted = self.new.painted } }
        ensures painted { self.new.painted ≤ self.old.painted + 4096 * most_painted }
        ensures later { P.faults screen.old ≤ P.faults screen.new }
    {
        match &mut self.drawing.newest {
            Some(newest) => newest.flush(screen),
            None => unreachable!(),
        }
    }
}

impl Newest {
    ghost use Rattle.std.specs.Prelude.{Some};
    ghost use Rattle.ev_frames.specs.Stand.{drawn_of};
    ghost use Rattle.ev_canvas.specs.Starts.{is_running};
    ghost use Rattle.ev_canvas.specs.CanvasFrames.{finishing};
    ghost use Rattle.ev_canvas.specs.Drawings.{latest_of};

    // What there is to flush while its frame is running.
    fn finish(&self) -> Finish
        requires { is_running self.now.end ≡ true }
        ensures { result ≡ finishing (drawn_of self.now.easel.frame) (Some (latest_of self.now)) }
    {
        let n = self.number;
        let done = u64::from(self.easel.drawn());
        let limit = u64::from(self.tiles);
        if done == limit {
            Finish::Frame { n }
        } else {
            Finish::Pending { n, done, limit }
        }
    }

    // Shows its frame, whose jobs are all drawn, or loses it.
    fn flush<P: Screen>(&mut self, screen: &mut P) -> Flushed
        requires drawn { IsDrawnWhole self.old }
        ensures ends { FlushesTo self.old (end_of result) self.new }
        ensures shows { IsFlushed (entry_of self.old)
            (record { shown = P.shown screen.old; faults = P.faults screen.old }) result
            (record { shown = P.shown screen.new; faults = P.faults screen.new }) }
        ensures later { P.faults screen.old ≤ P.faults screen.new }
    {
        self.easel.close();
        let flushed = self.present(screen);
        self.end = end_of(flushed);
        flushed
    }

    // Shows its picture.
    fn present<P: Screen>(&self, screen: &mut P) -> Flushed
        requires { IsDone self.now }
        ensures flushed { IsFlushed (entry_of self.now)
            (record { shown = P.shown screen.old; faults = P.faults screen.old }) result
            (record { shown = P.shown screen.new; faults = P.faults screen.new }) }
        ensures later { P.faults screen.old ≤ P.faults screen.new }
    {
        let before = screen.faults();
        match screen.present(self.number, self.updates.rects(), self.picture()) {
            Ok(()) => Flushed::Shown,
            Err(_) => Flushed::Lost {
                before,
                after: screen.faults(),
            },
        }
    }
}

// How a frame ended.
fn end_of(flushed: Flushed) -> End
    ensures { result ≡ end_of flushed }
{
    match flushed {
        Flushed::Shown => End::Shown,
        Flushed::Lost { .. } => End::Lost,
    }
}
