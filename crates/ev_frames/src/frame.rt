// A frame that is running, job by job.
ghost use Rattle.std.specs.Prelude.{◌≡◌, ◌+◌, ◌<◌, ◌≤◌, ◌^◌, length, []};
ghost use Rattle.std.specs.Arc.{arc_value};
ghost use Rattle.ev_argb.specs.Grid.{IsWhole, painted_of};
ghost use Rattle.ev_buffers.specs.BufferChain.{FitsChain};

use crate::room::Room;
use ev_buffers::Loan;
use ev_cmds::Commands;
use ev_draw::{TileDone, TileJob, draw};
use std::alloc::Global;
use std::marker::Model;
use std::sync::Arc;

/// A frame that is running: the buffer that it is drawn on, the jobs that nobody drew yet, of which
/// the last stands first, and those that were drawn. `lent` pixels counted as painted on its planes
/// when they went out.
#[derive(Drop)]
pub(crate) struct Frame {
    commands: Arc<Commands, Global>,
    loan: Loan,
    jobs: Vec<TileJob>,
    done: Vec<TileDone>,
    lent: u64,
}

impl Model for Frame {
    ghost use Rattle.std.specs.Prelude.{◌+◌, ◌≤◌, length, vec_capacity};
    ghost use Rattle.std.specs.Arc.{arc_value};
    ghost use Rattle.ev_frames.specs.Running.{Running, IsRunning};

    ghost Value = { Running };

    ghost view = { λ f. record { cut = arc_value f.commands; loan = f.loan; jobs = f.jobs.items; done = f.done.items; lent = f.lent } };

    ghost invariant = { λ f. IsRunning (record { cut = arc_value f.commands; loan = f.loan; jobs = f.jobs.items; done = f.done.items; lent = f.lent })
        × (length f.done.items + length f.jobs.items ≤ vec_capacity f.done) };
}

impl Frame {
    ghost use Rattle.std.specs.Prelude.{ℕ, ℤ, Bool, ◌*◌, min};
    ghost use Rattle.ev_argb.specs.Argb.{Argb};
    ghost use Rattle.ev_cmds.specs.Cuts.{IsCutOf, most_painted};
    ghost use Rattle.ev_model.specs.Capture.{Capture};
    ghost use Rattle.ev_cmds.specs.TileJobs.{tiles_of};
    ghost use Rattle.ev_frames.specs.Running.{AreOn, Keeps, Lends, Returns, frame_cost};
    ghost use Rattle.ev_frames.specs.Rooms.{IsRoom};

    /// A frame whose jobs are all left, on a picture that was lent for it. This takes no memory.
    pub(crate) fn begin(room: Room, lent: Loan) -> Frame
        requires room { IsRoom room }
        requires width { lent.picture.w ≤ 4096 }
        requires height { lent.picture.h ≤ 4096 }
        requires fits { FitsChain (arc_value room.commands).w (arc_value room.commands).h lent.picture }
        requires work { (work : ℤ → ℤ → Bool) × AreOn lent.picture.w lent.picture.h work (arc_value room.commands) }
        requires tiles { tiles_of (arc_value room.commands).jobs ≡ lent.tiles }
        requires painted { painted_of lent.picture < 2 ^ 63 }
        ensures cut { result.cut ≡ arc_value room.commands }
        ensures left { length result.jobs ≡ length lent.tiles }
        ensures none { result.done ≡ [] }
        ensures painted { painted_of result.loan.picture + result.lent ≡ painted_of lent.picture }
        ensures kept { (paint : ℕ → ℕ → Argb) (hidden : ℤ → ℤ → Bool) → Lends paint hidden (arc_value room.commands) lent → Keeps paint hidden result }
    {
        let Room {
            commands,
            mut shares,
            mut jobs,
            done,
        } = room;
        let mut loan = lent;
        let mut painted = 0;
        let mut k = commands.tiles();
        while 0 < k {
            k -= 1;
            let Some(share) = shares.pop() else {
                unreachable!()
            };
            let Some(plane) = loan.take(k as u32) else {
                unreachable!()
            };
            painted += plane.painted();
            jobs.push_reserved(TileJob::new(share, k, plane));
        }
        Frame {
            commands,
            loan,
            jobs,
            done,
            lent: painted,
        }
    }

    /// How many jobs are drawn.
    pub(crate) fn drawn(&self) -> u32
        ensures { result ≡ length self.now.done }
    {
        self.done.len() as u32
    }

    /// How many jobs are left.
    pub(crate) fn left(&self) -> u32
        ensures { result ≡ length self.now.jobs }
    {
        self.jobs.len() as u32
    }

    /// How many pixels counted as painted on its planes when they went out.
    pub(crate) fn lent(&self) -> u64
        ensures { result ≡ self.now.lent }
    {
        self.lent
    }

    /// Draws the first of the jobs that are left. This takes no memory.
    pub(crate) fn step(&mut self)
        requires { 0 < length self.old.jobs }
        ensures cut { self.new.cut ≡ self.old.cut }
        ensures loan { self.new.loan ≡ self.old.loan }
        ensures lent { self.new.lent ≡ self.old.lent }
        ensures drawn { length self.new.done ≡ length self.old.done + 1 }
        ensures left { length self.new.jobs + 1 ≡ length self.old.jobs }
        ensures kept { (paint : ℕ → ℕ → Argb) (hidden : ℤ → ℤ → Bool) → Keeps paint hidden self.old → Keeps paint hidden self.new }
    {
        if let Some(job) = self.jobs.pop() {
            self.done.push_reserved(draw(job));
        }
    }

    /// Draws up to so many of the jobs that are left, and says how many.
    pub(crate) fn steps(&mut self, most: u32) -> u32
        ensures count { result ≡ min most (length self.old.jobs) }
        ensures cut { self.new.cut ≡ self.old.cut }
        ensures loan { self.new.loan ≡ self.old.loan }
        ensures lent { self.new.lent ≡ self.old.lent }
        ensures drawn { length self.new.done ≡ length self.old.done + result }
        ensures left { length self.new.jobs + result ≡ length self.old.jobs }
        ensures kept { (paint : ℕ → ℕ → Argb) (hidden : ℤ → ℤ → Bool) → Keeps paint hidden self.old → Keeps paint hidden self.new }
    {
        let count = most.min(self.left());
        for _ in 0..count {
            self.step();
        }
        count
    }

    /// The picture of a frame whose jobs are all drawn, with all its planes, and how many pixels count
    /// as painted on those that were drawn. This takes no memory.
    pub(crate) fn close(self) -> (Loan, u64)
        requires none { self.jobs ≡ [] }
        requires painted { self.lent < 2 ^ 63 + 2 ^ 26 }
        ensures tiles { tiles_of self.cut.jobs ≡ result.0.tiles }
        ensures width { result.0.picture.w ≡ self.cut.w }
        ensures height { result.0.picture.h ≡ self.cut.h }
        ensures whole { IsWhole result.0.picture }
        ensures painted { painted_of result.0.picture ≡ painted_of self.loan.picture + result.1 }
        ensures few { result.1 ≤ self.lent + 4096 * most_painted }
        ensures costs { (work : ℤ → ℤ → Bool) (capture : Capture) → IsCutOf work capture self.cut → result.1 ≤ self.lent + frame_cost work capture }
        ensures kept { (paint : ℕ → ℕ → Argb) (hidden : ℤ → ℤ → Bool) → Keeps paint hidden self → Returns paint hidden self.cut result.0 }
    {
        let Frame {
            commands: _,
            mut loan,
            jobs: _,
            mut done,
            lent: _,
        } = self;
        let mut painted = 0;
        while let Some(tile) = done.pop() {
            let plane = tile.plane();
            painted += plane.painted();
            loan.put(done.len() as u32, plane);
        }
        (loan, painted)
    }
}
