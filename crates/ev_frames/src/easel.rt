// Buffers, and the frame that is running on one of them.
ghost use Rattle.std.specs.Prelude.{◌≡◌, ◌+◌, ◌*◌, ◌<◌, ◌≤◌, ◌^◌, min, true, length, is_some, Some, None, IfOk, OnOk, OnErr, IfSome, IsSome, MatchOption};
ghost use Rattle.ev_geom.specs.Bands.{has_pixel};
ghost use Rattle.ev_geom.specs.Tiles.{jobs_of};
ghost use Rattle.ev_region.specs.Count.{LiesWithin};
ghost use Rattle.ev_cmds.specs.Cuts.{most_painted};
ghost use Rattle.ev_buffers.specs.BufferChain.{IsPlanOf, IsPlanned, FitsChain, drawn, last_updates, lent_by, painted_on_all};
ghost use Rattle.ev_buffers.specs.Kept.{IsNew, Repairs, ShowsLast};

use crate::NoMemory;
use crate::frame::Frame;
use crate::room::Room;
use ev_argb::Picture;
use ev_buffers::{Buffers, Plan};
use ev_cmds::Commands;
use ev_region::Region;
use std::alloc::Global;
use std::marker::Model;

/// One to three pictures of one size that are drawn in turn, and the frame that is running on one of
/// them, if any is (docs/ARCHITECTURE.md, Running frames).
#[derive(Drop)]
pub struct Easel {
    buffers: Buffers,
    frame: Option<Frame>,
    given_up: u64,
    painted: u64,
}

impl Model for Easel {
    ghost use Rattle.ev_frames.specs.Stand.{Stand, FitsStand};

    ghost Value = { Stand };

    ghost view = { λ e. record { chain = e.buffers; frame = e.frame; given_up = e.given_up } };

    ghost invariant = { λ e. FitsStand e.painted (record { chain = e.buffers; frame = e.frame; given_up = e.given_up }) };
}

impl Easel {
    ghost use Rattle.ev_frames.specs.Running.{AreOn};
    ghost use Rattle.ev_frames.specs.Stand.{Costs, KeepsByStart, cut_of, KeepsOn, drawn_of, left_of, painted_by};

    /// From 1 to 3 clear pictures of w by h pixels, from 1 to 4096 each way, and no frame. NoMemory
    /// where there is no room (docs/ARCHITECTURE.md, Running frames).
    pub fn create(alloc: Global, n: u32, w: u32, h: u32) -> Result<Easel, NoMemory>
        requires some { 1 ≤ n }
        requires few { n ≤ 3 }
        requires width_low { 1 ≤ w }
        requires width_high { w ≤ 4096 }
        requires height_low { 1 ≤ h }
        requires height_high { h ≤ 4096 }
        ensures new { IfOk result (λ easel. IsNew n w h easel.chain) }
        ensures idle { IfOk result (λ easel. easel.frame ≡ None) }
        ensures given_up { IfOk result (λ easel. easel.given_up ≡ 0) }
    {
        Easel::after(alloc, 0, n, w, h)
    }

    /// As many pictures of another size, in place of these, which they count as given up. These stay
    /// as they are until they are let go. NoMemory where there is no room (docs/ARCHITECTURE.md,
    /// Running frames).
    pub fn resized(&self, alloc: Global, w: u32, h: u32) -> Result<Easel, NoMemory>
        requires width_low { 1 ≤ w }
        requires width_high { w ≤ 4096 }
        requires height_low { 1 ≤ h }
        requires height_high { h ≤ 4096 }
        requires painted { painted_by self.now < 2 ^ 63 }
        ensures new { IfOk result (λ easel. IsNew (length self.now.chain.marks) w h easel.chain) }
        ensures idle { IfOk result (λ easel. easel.frame ≡ None) }
        ensures given_up { IfOk result (λ easel. easel.given_up ≡ painted_by self.now) }
    {
        Easel::after(alloc, self.painted, self.buffers.count(), w, h)
    }

    // New pictures, where so many pixels were painted on others before.
    fn after(alloc: Global, given_up: u64, n: u32, w: u32, h: u32) -> Result<Easel, NoMemory>
        requires some { 1 ≤ n }
        requires few { n ≤ 3 }
        requires width_low { 1 ≤ w }
        requires width_high { w ≤ 4096 }
        requires height_low { 1 ≤ h }
        requires height_high { h ≤ 4096 }
        requires painted { given_up < 2 ^ 63 }
        ensures new { IfOk result (λ easel. IsNew n w h easel.chain) }
        ensures idle { IfOk result (λ easel. easel.frame ≡ None) }
        ensures given_up { IfOk result (λ easel. easel.given_up ≡ given_up) }
    {
        let buffers = Buffers::create(alloc, n, w, h)?;
        let painted = given_up + u64::from(n) * (u64::from(w) * u64::from(h));
        Ok(Easel {
            buffers,
            frame: None,
            given_up,
            painted,
        })
    }

    /// What a frame with these updates, which lie in the pictures, has to draw on the next picture: what
    /// is stale there or updated now, but for the hidden pixels. NoMemory where there is no room for
    /// the plan (docs/ARCHITECTURE.md, Buffers).
    pub fn plan(&self, alloc: Global, updates: &Region, hidden: &Region) -> Result<Plan, NoMemory>
        requires within { LiesWithin self.now.chain.w self.now.chain.h (has_pixel updates.now) }
        ensures made { IfOk result (IsPlanOf self.now.chain updates.now (has_pixel hidden.now)) }
        ensures repairs { IfOk result (Repairs self.now.chain updates.now (has_pixel hidden.now)) }
        ensures work { IfOk result
            (λ plan. LiesWithin self.now.chain.w self.now.chain.h (has_pixel plan.work)) }
    {
        self.buffers.plan(alloc, updates, hidden)
    }

    /// Starts a frame by a plan that was made with nothing started since, with the commands of a
    /// capture for its work region: a job for each tile that the work region meets. No frame is
    /// running, and fewer than 2^63 pixels were painted, those of new pictures not counted. NoMemory
    /// where there is no room for the jobs, and then nothing changes; no later call on the frame takes
    /// memory (docs/ARCHITECTURE.md, Running frames).
    pub fn start(&mut self, alloc: Global, plan: Plan, commands: Commands) -> Result<(), NoMemory>
        requires idle { self.old.frame ≡ None }
        requires planned { IsPlanned self.old.chain plan }
        requires commands { AreOn self.old.chain.w self.old.chain.h (has_pixel plan.work) commands }
        requires here { painted_on_all self.old.chain < 2 ^ 63 }
        requires painted { painted_by self.old < 2 ^ 63 + 2 ^ 26 }
        ensures lent { OnOk result (self.new.chain ≡ lent_by self.old.chain plan) }
        ensures running { OnOk result (IsSome self.new.frame) }
        ensures commands { OnOk result (cut_of self.new.frame ≡ Some commands) }
        ensures drawn { OnOk result (drawn_of self.new.frame ≡ 0) }
        ensures left { OnOk result (left_of self.new.frame ≡ length (jobs_of (has_pixel plan.work) self.old.chain.w self.old.chain.h)) }
        ensures given_up { OnOk result (self.new.given_up ≡ self.old.given_up) }
        ensures painted { OnOk result (painted_by self.new ≡ painted_by self.old) }
        ensures kept { OnOk result (KeepsByStart self.old plan commands self.new) }
        ensures same { OnErr result (self.new ≡ self.old) }
    {
        let room = Room::new(alloc, commands)?;
        let loan = self.buffers.lend(plan);
        self.frame = Some(Frame::begin(room, loan));
        Ok(())
    }

    /// Draws up to so many of the jobs that are left, the first ones, and says how many. It takes no
    /// memory (docs/ARCHITECTURE.md, Running frames).
    pub fn step(&mut self, most: u32) -> u32
        ensures count { result ≡ min most (left_of self.old.frame) }
        ensures drawn { drawn_of self.new.frame ≡ drawn_of self.old.frame + result }
        ensures left { left_of self.new.frame + result ≡ left_of self.old.frame }
        ensures running { is_some self.new.frame ≡ is_some self.old.frame }
        ensures commands { cut_of self.new.frame ≡ cut_of self.old.frame }
        ensures buffers { self.new.chain ≡ self.old.chain }
        ensures given_up { self.new.given_up ≡ self.old.given_up }
        ensures painted { painted_by self.new ≡ painted_by self.old }
        ensures kept { KeepsOn self.old self.new }
    {
        let Some(frame) = &mut self.frame else {
            return 0;
        };
        frame.steps(most)
    }

    /// How many jobs of the running frame are drawn; 0 where none is running (docs/ARCHITECTURE.md,
    /// Running frames).
    pub fn drawn(&self) -> u32
        ensures { result ≡ drawn_of self.now.frame }
    {
        match &self.frame {
            Some(frame) => frame.drawn(),
            None => 0,
        }
    }

    /// How many of its jobs are left; 0 where none is running (docs/ARCHITECTURE.md, Running frames).
    pub fn left(&self) -> u32
        ensures { result ≡ left_of self.now.frame }
    {
        match &self.frame {
            Some(frame) => frame.left(),
            None => 0,
        }
    }

    /// How many pixels were painted on these pictures, their making included, and on those that were
    /// given up. A plane that is out counts as when it went out (docs/ARCHITECTURE.md, Running frames).
    pub fn painted(&self) -> u64
        ensures { result ≡ painted_by self.now }
    {
        self.painted
    }

    /// Ends the running frame, whose jobs are all drawn: its picture is what `last` gives from now on.
    /// It takes no memory (docs/ARCHITECTURE.md, Running frames).
    pub fn close(&mut self)
        requires running { IsSome self.old.frame }
        requires drawn { left_of self.old.frame ≡ 0 }
        ensures idle { self.new.frame ≡ None }
        ensures width { self.new.chain.w ≡ self.old.chain.w }
        ensures height { self.new.chain.h ≡ self.old.chain.h }
        ensures marks { self.new.chain.marks ≡ self.old.chain.marks }
        ensures given_up { self.new.given_up ≡ self.old.given_up }
        ensures painted { painted_by self.new ≤ painted_by self.old + 4096 * most_painted }
        ensures costs { Costs self.old self.new }
        ensures kept { KeepsOn self.old self.new }
    {
        if let Some(frame) = self.frame.take() {
            let lent = frame.lent();
            let (loan, painted) = frame.close();
            self.painted = self.painted - lent + painted;
            self.buffers.give_back(loan);
        }
    }

    /// The picture that was drawn last. None exactly where no frame was drawn on these pictures, or one
    /// is running (docs/ARCHITECTURE.md, Buffers).
    pub fn last(&self) -> Option<&Picture>
        ensures drawn { MatchOption result (drawn self.now.chain ≡ None) (λ picture. drawn self.now.chain ≡ Some picture.now) }
        ensures size { IfSome result (λ picture. FitsChain self.now.chain.w self.now.chain.h picture.now) }
        ensures shows { IfSome result (λ picture. ShowsLast self.now.chain picture.now) }
        ensures some { self.now.frame ≡ None → is_some (last_updates self.now.chain.marks) ≡ true → IsSome result }
    {
        self.buffers.last()
    }
}
