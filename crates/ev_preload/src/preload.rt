// A running preload.
ghost use Rattle.std.specs.Prelude.{◌≡◌, Some};
ghost use Rattle.ev_preload.specs.Loads.{is_for, is_open, is_held, held_of, is_served};

use crate::{LoadEnd, LoadJob};

/// A preload that runs, and the end that is held for it until it is collected.
#[derive(Drop)]
pub(crate) struct Preload {
    pub(crate) job: LoadJob,
    pub(crate) end: Option<LoadEnd>,
}

impl Preload {
    // Whether it is for the object of this id.
    pub(crate) fn is_for(&self, id: u64) -> bool
        ensures { result ≡ is_for id self.now }
    {
        self.job.id() == id
    }

    // Whether it has this number, and no end is held for it.
    pub(crate) fn is_open(&self, number: u64) -> bool
        ensures { result ≡ is_open number self.now }
    {
        self.job.number() == number && self.end.is_none()
    }

    // Whether it has this number, and an end is held for it.
    pub(crate) fn is_held(&self, number: u64) -> bool
        ensures { result ≡ is_held number self.now }
    {
        self.job.number() == number && self.end.is_some()
    }

    // Whether an end is held for it.
    pub(crate) fn is_served(&self) -> bool
        ensures { result ≡ is_served self.now }
    {
        self.end.is_some()
    }

    // Holds an end for it.
    pub(crate) fn keep(&mut self, end: LoadEnd)
        ensures { self.new ≡ record self.old { end = Some end } }
    {
        self.end = Some(end);
    }

    // The job alone.
    pub(crate) fn into_job(self) -> LoadJob
        ensures { result ≡ self.job }
    {
        self.job
    }

    // The job, and the end that is held for it.
    pub(crate) fn into_held(self) -> Option<(LoadJob, LoadEnd)>
        ensures { result ≡ held_of self }
    {
        Some((self.job, self.end?))
    }
}
