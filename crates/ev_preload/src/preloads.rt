// All running preloads.
ghost use Rattle.std.specs.Prelude.{◌≡◌, ◌^◌, ◌<◌, [], true, length, IfOk, OnErr, IfSome, IfNone, false};
ghost use Rattle.std.specs.List.{list_any, position, All};
ghost use Rattle.ev_preload.specs.Job.{is_loadable};
ghost use Rattle.ev_preload.specs.Loads.{is_for, is_open, is_held, begun_job, after_begin, Suits, after_hold, collected, after_collect, cancelled, after_cancel, to_serve, first_held, job_at, FitsKind, IsSound};

use crate::preload::Preload;
use crate::{LoadEnd, LoadJob, NoMemory};
use ev_model::{Kind, Name, Refusal};
use std::alloc::Global;
use std::marker::Model;

/// The most preloads that run at once.
pub const MAX_RUNNING: usize = 64;

/// The running preloads, in the order in which they began, each with the end that is held for it
/// (docs/CANVAS.md, "Loads"). Preloads are numbered from 1. A preload runs from its beginning until
/// its end is collected, and then its number never comes back.
#[derive(Drop)]
pub struct Preloads {
    running: Vec<Preload>,
    begun: u64,
}

impl Model for Preloads {
    ghost use Rattle.std.specs.Prelude.{◌≤◌, vec_capacity};
    ghost use Rattle.ev_preload.specs.Loads.{Loads, IsSound};

    ghost Value = { Loads };

    ghost view = { λ p. record { running = p.running.items; begun = p.begun } };

    ghost invariant = { λ p. IsSound (record { running = p.running.items; begun = p.begun }) × (64 ≤ vec_capacity p.running) };
}

impl Preloads {
    /// No preloads, with room for 64. No other call takes memory. `NoMemory` where there is no room.
    pub fn new(alloc: Global) -> Result<Preloads, NoMemory>
        ensures { IfOk result (λ loads. loads ≡ record { running = []; begun = 0 }) }
    {
        Ok(Preloads {
            running: Vec::with_capacity(alloc, MAX_RUNNING)?,
            begun: 0,
        })
    }

    /// Begins a preload for the object of this id, name and kind, of the file with this key, and
    /// gives its job. `NoFile`: there is no key. `Loading`: a preload for the object runs. `Full`: 64
    /// preloads run. The first of these is answered, and nothing changes then.
    pub fn begin(
        &mut self,
        id: u64,
        name: Name,
        kind: Kind,
        key: Option<Name>,
    ) -> Result<LoadJob, Refusal>
        requires kind { is_loadable kind ≡ true }
        requires few { self.old.begun < 2 ^ 62 }
        ensures answer { result ≡ begun_job self.old id name kind key }
        ensures after { self.new ≡ after_begin self.old result }
    {
        let Some(key) = key else {
            return Err(Refusal::NoFile);
        };
        if self.is_loading(id) {
            return Err(Refusal::Loading);
        }
        if self.running.len() >= MAX_RUNNING {
            return Err(Refusal::Full);
        }
        let job = LoadJob::new(self.begun + 1, id, name, kind, key);
        self.running.push_reserved(Preload { job, end: None });
        self.begun += 1;
        Ok(job)
    }

    /// Holds an end for the preload of this number. The end is dropped where that doesn't run, and
    /// where an end is held for it already.
    pub fn hold(&mut self, number: u64, end: LoadEnd)
        requires { Suits self.old.running number end }
        ensures after { self.new ≡ after_hold self.old number end }
    {
        if let Some(place) = self.open_place(number) {
            self.running[place].keep(end);
        }
    }

    /// Takes out the preload of this number, with the end that is held for it. None exactly where no
    /// end of that number is held, and nothing changes then.
    pub fn collect(&mut self, number: u64) -> Option<(LoadJob, LoadEnd)>
        ensures answer { result ≡ collected self.old.running number }
        ensures after { self.new ≡ after_collect self.old number }
        ensures kind { IfSome result (λ taken. FitsKind taken.0.kind taken.1) }
    {
        let place = self.held_place(number)?;
        self.running.remove(place).into_held()
    }

    /// Takes out the preload for the object of this id, whether an end is held for it or not, and
    /// gives its job. `NotLoading`: none runs, and nothing changes then.
    pub fn cancel(&mut self, id: u64) -> Result<LoadJob, Refusal>
        ensures answer { result ≡ cancelled self.old id }
        ensures after { self.new ≡ after_cancel self.old id }
        ensures own { IfOk result (λ job. job.id ≡ id) }
        ensures same { OnErr result (self.new ≡ self.old) }
    {
        let Some(place) = self.place_for(id) else {
            return Err(Refusal::NotLoading);
        };
        Ok(self.running.remove(place).into_job())
    }

    /// The job of the earliest preload without a held end. None exactly where there is none.
    pub fn to_serve(&self) -> Option<LoadJob>
        ensures { result ≡ to_serve self.now.running }
    {
        let preload = self.running.iter().find(|preload| !preload.is_served())?;
        Some(preload.job)
    }

    /// The number of the earliest preload whose end is held. None exactly where no end is held.
    pub fn first_held(&self) -> Option<u64>
        ensures { result ≡ first_held self.now.running }
    {
        let preload = self.running.iter().find(|preload| preload.is_served())?;
        Some(preload.job.number())
    }

    /// The job of the preload at a place, counted from 0 in the order of beginnings. None exactly
    /// where the place isn't below `running`.
    pub fn running_at(&self, place: u32) -> Option<LoadJob>
        ensures { result ≡ job_at self.now.running place }
    {
        let preload = self.running.get(place as usize)?;
        Some(preload.job)
    }

    /// How many preloads run.
    pub fn running(&self) -> u32
        ensures value { result ≡ length self.now.running }
        ensures sound { IsSound self.now }
    {
        self.running.len() as u32
    }

    /// Whether a preload for the object of this id runs.
    pub fn is_loading(&self, id: u64) -> bool
        ensures { result ≡ list_any (is_for id) self.now.running }
    {
        self.running.iter().any(|preload| preload.is_for(id))
    }

    // The place of the preload for the object of this id.
    fn place_for(&self, id: u64) -> Option<usize>
        ensures value { result ≡ position (is_for id) self.now.running }
        ensures none { IfNone result (All (λ preload. is_for id preload ≡ false) self.now.running) }
    {
        self.running.iter().position(|preload| preload.is_for(id))
    }

    // The place of the preload of this number, where no end is held for it.
    fn open_place(&self, number: u64) -> Option<usize>
        ensures value { result ≡ position (is_open number) self.now.running }
        ensures none { IfNone result (All (λ preload. is_open number preload ≡ false) self.now.running) }
    {
        self.running
            .iter()
            .position(|preload| preload.is_open(number))
    }

    // The place of the preload of this number, where an end is held for it.
    fn held_place(&self, number: u64) -> Option<usize>
        ensures value { result ≡ position (is_held number) self.now.running }
        ensures none { IfNone result (All (λ preload. is_held number preload ≡ false) self.now.running) }
    {
        self.running
            .iter()
            .position(|preload| preload.is_held(number))
    }
}
