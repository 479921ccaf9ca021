// An index of the layers in use.
ghost use Rattle.std.specs.Prelude.{◌≡◌, ◌≢◌, ℕ, ℤ, [], ◌+◌, ◌^◌, ◌≤◌, ◌<◌, length, vec_len, vec_capacity, OnOk, OnErr};
ghost use Rattle.std.specs.List.{insert};
ghost use Rattle.ev_stack.specs.LayerOrder.{IsLayered};
ghost use Rattle.ev_stack.specs.Links.{last_up_to, last_below};
ghost use Rattle.ev_stack.specs.Tops.{with_top, without_top, below_len, up_to_len, id_before};

use crate::NoMemory;
use crate::chain::END;
use std::alloc::Global;

/// The topmost object of each layer in use, with the layer, from the lowest layer to the highest.
#[derive(Drop)]
pub struct Layers {
    tops: Vec<(u64, i32)>,
}

impl Layers {
    /// No layer in use.
    pub fn new(alloc: Global) -> Layers
        ensures { result.tops.items ≡ [] }
    {
        Layers {
            tops: Vec::new(alloc),
        }
    }

    /// Makes room for one more object than there are, each of which may need a layer of its own.
    pub fn reserve(&mut self, objects: usize) -> Result<(), NoMemory>
        requires most { length self.old.tops.items ≤ objects }
        requires fits { objects < 2 ^ 63 }
        ensures tops { self.new.tops.items ≡ self.old.tops.items }
        ensures room { vec_capacity self.old.tops ≤ vec_capacity self.new.tops }
        ensures ok { OnOk result (objects + 1 ≤ vec_capacity self.new.tops) }
    {
        self.tops.reserve(objects - self.tops.len() + 1)
    }

    /// The object at the top of a layer, or of the next lower one in use. The end where there is none.
    pub fn top_place(&self, layer: i32) -> u64
        requires { IsLayered self.now.tops.items }
        ensures { result ≡ last_up_to 0 self.now.tops.items layer }
    {
        self.id_before(self.up_to_len(layer))
    }

    /// The object that a layer's lowest one stands on. The end where there is none.
    pub fn bottom_place(&self, layer: i32) -> u64
        requires { IsLayered self.now.tops.items }
        ensures { result ≡ last_below 0 self.now.tops.items layer }
    {
        self.id_before(self.below_len(layer))
    }

    /// Notes that an object came into a layer, directly above a place.
    pub fn enter(&mut self, id: u64, layer: i32, place: u64)
        requires layered { IsLayered self.old.tops.items }
        requires room { length self.old.tops.items < vec_capacity self.old.tops }
        ensures tops { self.new.tops.items ≡ with_top self.old.tops.items id layer place }
        ensures room { vec_capacity self.old.tops ≤ vec_capacity self.new.tops }
    {
        let at = self.below_len(layer);
        if at == self.tops.len() {
            self.insert(at, id, layer);
            return;
        }
        let (top, own) = self.tops[at];
        if own != layer {
            self.insert(at, id, layer);
        } else if top == place {
            self.tops[at] = (id, layer);
        }
    }

    /// Notes that an object left its layer. The one below it in this layer, if any, is the top instead.
    pub fn leave(&mut self, id: u64, layer: i32, instead: Option<u64>)
        requires { IsLayered self.old.tops.items }
        ensures tops { self.new.tops.items ≡ without_top self.old.tops.items id layer instead }
        ensures room { vec_capacity self.old.tops ≤ vec_capacity self.new.tops }
    {
        let at = self.below_len(layer);
        if at == self.tops.len() {
            return;
        }
        let (top, _) = self.tops[at];
        if top != id {
            return;
        }
        match instead {
            Some(below) => self.tops[at] = (below, layer),
            None => {
                let _ = self.tops.remove(at);
            }
        }
    }

    // How many layers in use are lower than this.
    fn below_len(&self, layer: i32) -> usize
        requires { IsLayered self.now.tops.items }
        ensures len { result ≡ below_len self.now.tops.items layer }
        ensures bound { result ≤ vec_len self.now.tops }
    {
        self.tops.partition_point(|top| top.1 < layer)
    }

    // How many layers in use are this or lower.
    fn up_to_len(&self, layer: i32) -> usize
        requires { IsLayered self.now.tops.items }
        ensures len { result ≡ up_to_len self.now.tops.items layer }
        ensures bound { result ≤ vec_len self.now.tops }
    {
        self.tops.partition_point(|top| !(layer < top.1))
    }

    // The top before a place of the index, the end before the first.
    fn id_before(&self, place: usize) -> u64
        requires { place ≤ vec_len self.now.tops }
        ensures { result ≡ id_before 0 self.now.tops.items place }
    {
        if place == 0 {
            return END;
        }
        let (id, _) = self.tops[place - 1];
        id
    }

    // Adds a top where there is room for it.
    fn insert(&mut self, at: usize, id: u64, layer: i32)
        requires place { at ≤ vec_len self.old.tops }
        requires room { vec_len self.old.tops < vec_capacity self.old.tops }
        ensures tops { self.new.tops.items ≡ insert self.old.tops.items at (id, layer) }
        ensures room { vec_capacity self.old.tops ≤ vec_capacity self.new.tops }
    {
        if self.tops.insert(at, (id, layer)).is_err() {
            unreachable!();
        }
    }
}
