// What the records of a scene are made from.
ghost use Rattle.std.specs.Prelude.{◌≡◌, IfOk, option_copied};
ghost use Rattle.std.specs.List.{list_any};
ghost use Rattle.ev_model.specs.Stage.{values};
ghost use Rattle.ev_model.specs.Up.{with_id, is_clipped_by};
ghost use Rattle.ev_sights.specs.Sights.{AreClippers, IsGround};

use crate::NoMemory;
use ev_model::{Object, Objects};
use ev_slots::Slots;
use ev_state::Shared;
use std::alloc::Global;
use std::collections::HashSet;

// What is read of the scene: its size, its objects by their ids and in their order, and the ids of
// those that clip another.
#[derive(Drop)]
pub(crate) struct Ground<'a> {
    pub(crate) alloc: Global,
    pub(crate) w: u32,
    pub(crate) h: u32,
    pub(crate) slots: &'a Slots<Shared<Object>>,
    pub(crate) objects: &'a Objects,
    pub(crate) clippers: HashSet<u64>,
}

// The ids of all objects that clip another.
pub(crate) fn clippers(alloc: Global, objects: &Objects) -> Result<HashSet<u64>, NoMemory>
    ensures { IfOk result (λ clippers. AreClippers (values objects.now) clippers) }
{
    let mut clippers = HashSet::new(alloc);
    for state in objects.as_slice() {
        if let Some(id) = state.get().clipper {
            clippers.insert(id)?;
        }
    }
    Ok(clippers)
}

impl Ground<'_> {
    // The object of an id.
    pub(crate) fn object(&self, id: u64) -> Option<&Object>
        requires { IsGround self.now }
        ensures { option_copied result ≡ with_id (values self.now.objects.now) id }
    {
        match self.slots.get(id) {
            Some(state) => Some(state.get()),
            None => None,
        }
    }

    // Whether the object of this id clips another.
    pub(crate) fn clips(&self, id: u64) -> bool
        requires { IsGround self.now }
        ensures { result ≡ list_any (is_clipped_by id) (values self.now.objects.now) }
    {
        !self.clippers.is_empty() && self.clippers.contains(&id)
    }
}
