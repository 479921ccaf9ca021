// Which places are looked at again.
ghost use Rattle.std.specs.Prelude.{◌≡◌, ℕ, ◌≤◌, ◌<◌, ◌⊎◌, true, false, length, IfOk, OnOk, None, Some, option_copied};
ghost use Rattle.ev_records.specs.Cells.{look_in};
ghost use Rattle.ev_track.specs.Tracks.{slots_in};
ghost use Rattle.ev_looks.specs.Reached.{left_by};
ghost use Rattle.ev_looks.specs.Seated.{AreSeated};
ghost use Rattle.ev_looks.specs.PlacedStates.{state_at, states_now, seen};
ghost use Rattle.ev_looks.specs.Grounds.{IsGround, stage_on};
ghost use Rattle.ev_looks.specs.Refreshes.{IsStill, IsShallow, IsRight, LooksAt, IsRightOf, clipper_in, IsLookedAt, FindsNext};

use crate::NoMemory;
use crate::walk::Ground;
use ev_argb::Pixel;
use ev_geom::Rect;
use ev_model::{Object, Record};
use ev_records::Records;
use ev_state::Shared;

impl Ground<'_> {
    // Looks at all places.
    pub(crate) fn look_at_all(&self, records: &mut Records) -> Result<(), NoMemory>
        requires ground { IsGround self.now }
        requires enough { self.now.objects.now.places ≤ length records.old }
        requires seated { AreSeated (slots_in self.now.objects.now) records.old }
        ensures looks { LooksAt self.now records.old records.new }
        ensures ok { OnOk result ((place : ℕ) → IsRight self.now records.new place) }
    {
        for place in 0..records.len() {
            self.look_at(records, place)?;
        }
        Ok(())
    }

    // Looks at each place that changed, and at those of the clippers that it got or lost.
    pub(crate) fn look_at_changes(&self, records: &mut Records) -> Result<(), NoMemory>
        requires ground { IsGround self.now }
        requires enough { self.now.objects.now.places ≤ length records.old }
        requires seated { AreSeated (slots_in self.now.objects.now) records.old }
        ensures looks { LooksAt self.now records.old records.new }
        ensures ok { OnOk result ((place : ℕ) → place < length records.old
            → IsStill self.now.objects.now place ⊎ IsLookedAt self.now records.new place) }
    {
        let len = records.len();
        let mut from = 0;
        while let Some(place) = self.next_changed(from, len) {
            self.look_at_change(records, place)?;
            from = place + 1;
        }
        Ok(())
    }

    // Looks at a place, and at those of its clippers if it has another one than before.
    fn look_at_change(&self, records: &mut Records, place: usize) -> Result<(), NoMemory>
        requires ground { IsGround self.now }
        requires enough { self.now.objects.now.places ≤ length records.old }
        requires seated { AreSeated (slots_in self.now.objects.now) records.old }
        ensures looks { LooksAt self.now records.old records.new }
        ensures ok { OnOk result (IsLookedAt self.now records.new place) }
    {
        self.look_at(records, place)?;
        let was = clipper_in(self.objects.was(place));
        let now = clipper_in(self.state_in(place));
        if was != now {
            self.look_at_clipper(records, was)?;
            self.look_at_clipper(records, now)?;
        }
        Ok(())
    }

    // Looks at the place of an id, if there is one.
    fn look_at_clipper(&self, records: &mut Records, id: Option<u64>) -> Result<(), NoMemory>
        requires ground { IsGround self.now }
        requires enough { self.now.objects.now.places ≤ length records.old }
        requires seated { AreSeated (slots_in self.now.objects.now) records.old }
        ensures looks { LooksAt self.now records.old records.new }
        ensures ok { OnOk result (IsRightOf self.now records.new id) }
    {
        let Some(id) = id else {
            return Ok(());
        };
        let Some(place) = self.objects.place(id) else {
            return Ok(());
        };
        self.look_at(records, place)
    }

    // Looks at a place: it shows from now on what is seen of the object that stands in it.
    fn look_at(&self, records: &mut Records, place: usize) -> Result<(), NoMemory>
        requires ground { IsGround self.now }
        requires enough { self.now.objects.now.places ≤ length records.old }
        requires seated { AreSeated (slots_in self.now.objects.now) records.old }
        ensures looks { LooksAt self.now records.old records.new }
        ensures ok { OnOk result (IsRight self.now records.new place) }
    {
        if place >= records.len() {
            return Ok(());
        }
        let one = self.record_in(place)?;
        records.put(place, one)
    }

    // The record of what stands in a place, if anything is seen of it.
    fn record_in(&self, place: usize) -> Result<Option<Record>, NoMemory>
        requires ground { IsGround self.now }
        ensures { IfOk result (λ one. look_in one
            ≡ seen (stage_on self.now) (state_at (states_now self.now.objects.now) place)) }
    {
        match self.state_in(place) {
            Some(state) => self.record(state),
            None => Ok(None),
        }
    }

    // Whether an object that changed may leave something else than before to one below it.
    pub(crate) fn reaches(&self, len: usize) -> bool
        requires ground { IsGround self.now }
        ensures { result ≡ false → (place : ℕ) → place < len
            → IsStill self.now.objects.now place ⊎ IsShallow self.now.objects.now place }
    {
        let mut from = 0;
        while let Some(place) = self.next_changed(from, len) {
            if self.is_deep(place) {
                return true;
            }
            from = place + 1;
        }
        false
    }

    // Whether the object in a place leaves something else than before, and others may be below it.
    fn is_deep(&self, place: usize) -> bool
        requires ground { IsGround self.now }
        ensures { result ≡ false → IsShallow self.now.objects.now place }
    {
        let Some(state) = self.state_in(place) else {
            return false;
        };
        let now = state.get();
        if let Some(was) = self.objects.was(place) {
            if leaves_same(was.get(), now) {
                return false;
            }
        }
        now.is_smart() || self.clips(now.id)
    }

    // The first place from here on and below so many that may have changed.
    fn next_changed(&self, from: usize, len: usize) -> Option<usize>
        ensures { FindsNext self.now.objects.now from len result }
    {
        let place = self.objects.next_changed(from)?;
        if place < len { Some(place) } else { None }
    }

    // What stands in a place.
    fn state_in(&self, place: usize) -> Option<&Shared<Object>>
        ensures { option_copied result ≡ state_at (states_now self.now.objects.now) place }
    {
        let id = self.objects.id_in(place)?;
        self.objects.get(id)
    }
}

// The clipper of what stands in a place.
fn clipper_in(state: Option<&Shared<Object>>) -> Option<u64>
    ensures { result ≡ clipper_in (option_copied state.entry) }
{
    state?.get().clipper
}

// Whether an object leaves the same to those below it as another one of its id.
fn leaves_same(was: &Object, now: &Object) -> bool
    ensures id { result ≡ true → was.now.id ≡ now.now.id }
    ensures left { result ≡ true → left_by was.now ≡ left_by now.now }
{
    was.id == now.id
        && cuts_same(was, now)
        && tints_same(was, now)
        && was.clipper.or(was.parent) == now.clipper.or(now.parent)
}

// Whether two objects cut what is below them in the same way.
fn cuts_same(was: &Object, now: &Object) -> bool
    ensures { result ≡ true → (left_by was.now).area ≡ (left_by now.now).area }
{
    if now.is_smart() {
        was.is_smart()
    } else {
        !was.is_smart() && same_rect(&was.rect, &now.rect)
    }
}

// Whether two objects tint what is below them and hide it in the same way.
fn tints_same(was: &Object, now: &Object) -> bool
    ensures color { result ≡ true → was.now.color ≡ now.now.color }
    ensures shown { result ≡ true → was.now.shown ≡ now.now.shown }
{
    same_color(was.color, now.color) && was.shown == now.shown
}

#[tactic(auto, using(crate::proofs::Reaching::rect_is))]
fn same_rect(one: &Rect, other: &Rect) -> bool
    ensures { result ≡ true → one.now ≡ other.now }
{
    one == other
}

#[tactic(auto, using(crate::proofs::Reaching::color_is))]
fn same_color(one: Pixel, other: Pixel) -> bool
    ensures { result ≡ true → one ≡ other }
{
    one == other
}
