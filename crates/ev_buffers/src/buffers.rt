// Buffers: one to three pictures that are drawn in turn.
ghost use Rattle.std.specs.Prelude.{◌≡◌, ◌+◌, ◌≤◌, ◌||◌, ◌&&◌, not, drop, length, true, false, Some, None, IfOk, IfSome, MatchOption};
ghost use Rattle.ev_argb.specs.Grid.{IsWhole, painted_of};
ghost use Rattle.ev_geom.specs.Bands.{has_pixel, IsBandsOf};
ghost use Rattle.ev_region.specs.Count.{LiesWithin};

use crate::NoMemory;
use crate::jobs::jobs;
use crate::loan::Loan;
use crate::mark::Mark;
use crate::plan::Plan;
use ev_argb::Picture;
use ev_region::Region;
use std::alloc::Global;
use std::marker::Model;

/// One to three pictures of one size that are drawn in turn, and the stale region of each: the
/// pixels in which it may differ from what was drawn last. The buffer that is lent next stands first,
/// the one that was lent last stands at the end (docs/ARCHITECTURE.md, Buffers).
#[derive(Drop)]
pub struct Buffers {
    width: u32,
    height: u32,
    pictures: Vec<Option<Picture>>,
    marks: Vec<Mark>,
}

impl Model for Buffers {
    ghost use Rattle.ev_buffers.specs.BufferChain.{Chain, IsChain};

    ghost Value = { Chain };

    ghost view = { λ b. record { w = b.width; h = b.height; pictures = b.pictures.items; marks = b.marks.items } };

    ghost invariant = { λ b. IsChain (record { w = b.width; h = b.height; pictures = b.pictures.items; marks = b.marks.items }) };
}

impl Buffers {
    ghost use Rattle.ev_buffers.specs.BufferChain.{is_lent, drawn, next_picture, painted_on_all, FitsChain, IsPlanOf, IsPlanned, lent_by, given_back};
    ghost use Rattle.ev_buffers.specs.Kept.{IsNew, Repairs, ShowsLast, KeepsByLending, KeepsByReturn, KeepsWhenDone};

    /// From 1 to 3 buffers with clear pictures of w by h pixels, from 1 to 4096 each way. All of each
    /// is stale. NoMemory where there is no room for the pictures and their regions.
    pub fn create(alloc: Global, n: u32, w: u32, h: u32) -> Result<Buffers, NoMemory>
        requires some { 1 ≤ n }
        requires few { n ≤ 3 }
        requires width_low { 1 ≤ w }
        requires width_high { w ≤ 4096 }
        requires height_low { 1 ≤ h }
        requires height_high { h ≤ 4096 }
        ensures { IfOk result (IsNew n w h) }
    {
        let mut pictures = Vec::new(alloc);
        let mut marks = Vec::new(alloc);
        for k in 0..n {
            pictures.push(Some(Picture::new(alloc, w, h)?))?;
            marks.push(Mark::unused(alloc, w, h)?)?;
        }
        Ok(Buffers {
            width: w,
            height: h,
            pictures,
            marks,
        })
    }

    /// How many buffers there are.
    pub fn count(&self) -> u32
        ensures count { result ≡ length self.now.marks }
        ensures some { 1 ≤ result }
        ensures few { result ≤ 3 }
    {
        self.marks.len() as u32
    }

    /// What a frame with these updates, which lie in the pictures, has to draw on the next buffer: what
    /// is stale there and what was updated now, but for the hidden pixels. The plan has all the memory
    /// that lending takes. NoMemory where there is no room for it (docs/ARCHITECTURE.md, Buffers).
    pub fn plan(&self, alloc: Global, updates: &Region, hidden: &Region) -> Result<Plan, NoMemory>
        requires within { LiesWithin self.now.w self.now.h (has_pixel updates.now) }
        ensures made { IfOk result (IsPlanOf self.now updates.now (has_pixel hidden.now)) }
        ensures repairs { IfOk result (Repairs self.now updates.now (has_pixel hidden.now)) }
        ensures work { IfOk result
            (λ plan. LiesWithin self.now.w self.now.h (has_pixel plan.work)) }
    {
        let work = work_region(&self.marks[0].stale, updates, hidden)?;
        let marks = Mark::next_marks(alloc, &self.marks[1..], updates)?;
        let tiles = jobs(alloc, &work, self.width, self.height)?;
        Ok(Plan { work, marks, tiles })
    }

    /// Lends the picture of the next buffer, with all its planes, by a plan that these buffers made
    /// with nothing lent or given back since. No buffer is lent. The buffer stands last from now on,
    /// with nothing stale, and the plan's updates are stale in each other one. This takes no memory.
    pub fn lend(&mut self, plan: Plan) -> Loan
        requires home { is_lent self.old ≡ false }
        requires planned { IsPlanned self.old plan }
        ensures picture { Some result.picture ≡ next_picture self.old.pictures }
        ensures size { FitsChain self.old.w self.old.h result.picture }
        ensures tiles { result.tiles ≡ plan.tiles }
        ensures left { self.new ≡ lent_by self.old plan }
        ensures lent { is_lent self.new ≡ true }
        ensures painted { painted_on_all self.old ≡ painted_on_all self.new + painted_of result.picture }
        ensures kept { KeepsByLending self.old plan self.new result }
    {
        let Plan {
            work: _,
            marks,
            tiles,
        } = plan;
        let picture = self.pictures[0].take().unwrap();
        self.pictures.rotate_left(1);
        self.marks = marks;
        Loan { picture, tiles }
    }

    /// Takes the picture back that these buffers lent, once all its planes are in it. From now on it
    /// is what `last` answers.
    pub fn give_back(&mut self, loan: Loan)
        requires lent { is_lent self.old ≡ true }
        requires width { loan.picture.w ≡ self.old.w }
        requires height { loan.picture.h ≡ self.old.h }
        requires whole { IsWhole loan.picture }
        ensures back { self.new ≡ given_back self.old loan.picture }
        ensures home { is_lent self.new ≡ false }
        ensures painted { painted_on_all self.new ≡ painted_on_all self.old + painted_of loan.picture }
        ensures kept { KeepsByReturn self.old loan.picture self.new }
        ensures done { KeepsWhenDone self.old loan self.new }
    {
        let Loan { picture, tiles: _ } = loan;
        let last = self.pictures.len() - 1;
        self.pictures[last] = Some(picture);
    }

    /// The picture that was drawn last. None exactly where no frame was drawn on these buffers, or
    /// one is lent.
    pub fn last(&self) -> Option<&Picture>
        ensures drawn { MatchOption result (drawn self.now ≡ None) (λ picture. drawn self.now ≡ Some picture.now) }
        ensures size { IfSome result (λ picture. FitsChain self.now.w self.now.h picture.now) }
        ensures shows { IfSome result (λ picture. ShowsLast self.now picture.now) }
    {
        let last = self.marks.len() - 1;
        if self.marks[last].updates.is_none() {
            return None;
        }
        self.pictures[last].as_ref()
    }
}

// What is stale or updated, and not hidden.
fn work_region(stale: &Region, updates: &Region, hidden: &Region) -> Result<Region, NoMemory>
    ensures { IfOk result (IsBandsOf (λ x y. (has_pixel stale.now x y || has_pixel updates.now x y) && not (has_pixel hidden.now x y))) }
{
    let mut work = stale.copied()?;
    work.unite(updates)?;
    work.cut(hidden)?;
    Ok(work)
}
