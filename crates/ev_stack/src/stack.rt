// Siblings by their links and by an index of their layers.
ghost use Rattle.std.specs.Prelude.{◌≡◌, ◌≢◌, [], ◌+◌, ◌≤◌, ◌<◌, ℕ, ℤ, true, Some, None, length, vec_capacity, OnOk, OnErr};
ghost use Rattle.ev_stack.specs.LayerOrder.{layer_in, bottom_in, above_in, at_place, ids_of, ids_above, ids_from, IsOrder, IsLayered, without, put_top, to_top, to_bottom, to_above, to_below};
ghost use Rattle.ev_stack.specs.Links.{layer_of, order_of, put_after, id_or_none, last_up_to, last_below, IsPlace};
ghost use Rattle.ev_stack.specs.Tops.{in_layer, tops_of};
ghost use Rattle.ev_stack.specs.Stacks.{IsStack, IsLoose};

use crate::NoMemory;
use crate::chain::{Chain, END};
use crate::layers::Layers;
use std::alloc::Global;

/// The objects of one parent, and the layers they are in.
#[derive(Drop)]
pub struct Stack {
    chain: Chain,
    layers: Layers,
}

impl Stack {
    /// No objects.
    pub fn new(alloc: Global) -> Stack
        ensures stack { IsStack result }
        ensures order { order_of result.chain ≡ [] }
    {
        Stack {
            chain: Chain::new(alloc),
            layers: Layers::new(alloc),
        }
    }

    /// How many objects there are.
    pub fn len(&self) -> usize
        requires { IsStack self.now }
        ensures len { result ≡ length (order_of self.now.chain) }
        ensures order { IsOrder (order_of self.now.chain) }
    {
        self.chain.node_count()
    }

    /// The layer of an object.
    pub fn layer_of(&self, id: u64) -> Option<i32>
        requires { IsStack self.now }
        ensures { result ≡ layer_in (order_of self.now.chain) id }
    {
        self.chain.layer(id)
    }

    /// The lowest object.
    pub fn bottom(&self) -> Option<u64>
        requires { IsStack self.now }
        ensures bottom { result ≡ bottom_in (order_of self.now.chain) }
        ensures all { ids_from (order_of self.now.chain) result ≡ ids_of (order_of self.now.chain) }
    {
        id_or_none(self.chain.above(END))
    }

    /// The object directly above another.
    pub fn next_above(&self, id: u64) -> Option<u64>
        requires { IsStack self.now }
        ensures above { result ≡ above_in (order_of self.now.chain) id }
        ensures rest { ids_from (order_of self.now.chain) result ≡ ids_above (order_of self.now.chain) id }
    {
        if id == END {
            return None;
        }
        id_or_none(self.chain.above(id))
    }

    /// The object at a place, counted from the bottom.
    pub fn at(&self, place: usize) -> Option<u64>
        requires { IsStack self.now }
        ensures { result ≡ at_place (order_of self.now.chain) place }
    {
        let mut found = self.bottom();
        'up: for _ in 0..place {
            let Some(id) = found else {
                return None;
            };
            found = self.next_above(id);
        }
        found
    }

    /// Adds an object at the top of a layer.
    pub fn push_top(&mut self, id: u64, layer: i32) -> Result<(), NoMemory>
        requires stack { IsStack self.old }
        requires fresh { layer_in (order_of self.old.chain) id ≡ None }
        requires object { id ≢ 0 }
        ensures stack { IsStack self.new }
        ensures ok { OnOk result (order_of self.new.chain ≡ put_top (order_of self.old.chain) id layer) }
        ensures err { OnErr result (order_of self.new.chain ≡ order_of self.old.chain) }
    {
        self.admit(id, layer)?;
        let place = self.top_place(layer);
        self.put_in(id, layer, place);
        Ok(())
    }

    /// Removes an object of this layer.
    pub fn remove(&mut self, id: u64, own: i32)
        requires stack { IsStack self.old }
        requires there { layer_in (order_of self.old.chain) id ≡ Some own }
        ensures stack { IsStack self.new }
        ensures order { order_of self.new.chain ≡ without (order_of self.old.chain) id }
    {
        self.take_out(id, own);
        self.chain.forget(id);
    }

    /// Moves an object from its own layer to the top of a layer.
    pub fn move_to_top(&mut self, id: u64, own: i32, layer: i32)
        requires stack { IsStack self.old }
        requires there { layer_in (order_of self.old.chain) id ≡ Some own }
        ensures stack { IsStack self.new }
        ensures order { order_of self.new.chain ≡ to_top (order_of self.old.chain) id layer }
    {
        self.take_out(id, own);
        let place = self.top_place(layer);
        self.put_in(id, layer, place);
    }

    /// Moves an object to the bottom of its layer.
    pub fn move_to_bottom(&mut self, id: u64, layer: i32)
        requires stack { IsStack self.old }
        requires there { layer_in (order_of self.old.chain) id ≡ Some layer }
        ensures stack { IsStack self.new }
        ensures order { order_of self.new.chain ≡ to_bottom (order_of self.old.chain) id layer }
    {
        self.take_out(id, layer);
        let place = self.bottom_place(layer);
        self.put_in(id, layer, place);
    }

    /// Moves an object directly above another of its layer.
    pub fn move_above(&mut self, id: u64, layer: i32, other: u64)
        requires stack { IsStack self.old }
        requires there { layer_in (order_of self.old.chain) id ≡ Some layer }
        requires other { layer_in (order_of self.old.chain) other ≡ Some layer }
        requires differ { id ≢ other }
        ensures stack { IsStack self.new }
        ensures order { order_of self.new.chain ≡ to_above (order_of self.old.chain) other id layer }
    {
        self.take_out(id, layer);
        self.put_in(id, layer, other);
    }

    /// Moves an object directly below another of its layer.
    pub fn move_below(&mut self, id: u64, layer: i32, other: u64)
        requires stack { IsStack self.old }
        requires there { layer_in (order_of self.old.chain) id ≡ Some layer }
        requires other { layer_in (order_of self.old.chain) other ≡ Some layer }
        requires differ { id ≢ other }
        ensures stack { IsStack self.new }
        ensures order { order_of self.new.chain ≡ to_below (order_of self.old.chain) other id layer }
    {
        self.take_out(id, layer);
        let place = self.chain.below(other);
        self.put_in(id, layer, place);
    }

    // Takes all memory for an object that isn't there, and gives it a node.
    fn admit(&mut self, id: u64, layer: i32) -> Result<(), NoMemory>
        requires stack { IsStack self.old }
        requires fresh { layer_in (order_of self.old.chain) id ≡ None }
        requires object { id ≢ 0 }
        ensures order { order_of self.new.chain ≡ order_of self.old.chain }
        ensures ok { OnOk result (IsLoose self.new id) }
        ensures err { OnErr result (IsStack self.new) }
    {
        self.layers.reserve(self.chain.node_count())?;
        self.chain.insert(id, layer)?;
        Ok(())
    }

    // Takes an object of this layer out of the order. It keeps its node.
    fn take_out(&mut self, id: u64, layer: i32)
        requires stack { IsStack self.old }
        requires there { layer_in (order_of self.old.chain) id ≡ Some layer }
        ensures loose { IsLoose self.new id }
        ensures order { order_of self.new.chain ≡ without (order_of self.old.chain) id }
    {
        let below = self.chain.unlink(id);
        let instead = self.in_layer(below, layer);
        self.layers.leave(id, layer, instead);
    }

    // Puts an object that was taken out directly above a place.
    fn put_in(&mut self, id: u64, layer: i32, place: u64)
        requires loose { IsLoose self.old id }
        requires place { IsPlace 0 (order_of self.old.chain) place }
        requires layered { IsLayered (put_after 0 (order_of self.old.chain) place (id, layer)) }
        ensures stack { IsStack self.new }
        ensures order { order_of self.new.chain ≡ put_after 0 (order_of self.old.chain) place (id, layer) }
    {
        self.chain.link(id, layer, place);
        self.layers.enter(id, layer, place);
    }

    // The object, where it is in this layer.
    fn in_layer(&self, id: u64, layer: i32) -> Option<u64>
        ensures { result ≡ in_layer (layer_of self.now.chain) id layer }
    {
        match self.chain.layer(id) {
            Some(own) if own == layer => Some(id),
            _ => None,
        }
    }

    // The place at the top of a layer.
    fn top_place(&self, layer: i32) -> u64
        requires tops { self.now.layers.tops.items ≡ tops_of (order_of self.now.chain) }
        requires layered { IsLayered (order_of self.now.chain) }
        ensures { result ≡ last_up_to 0 (order_of self.now.chain) layer }
    {
        self.layers.top_place(layer)
    }

    // The place at the bottom of a layer.
    fn bottom_place(&self, layer: i32) -> u64
        requires tops { self.now.layers.tops.items ≡ tops_of (order_of self.now.chain) }
        requires layered { IsLayered (order_of self.now.chain) }
        ensures { result ≡ last_below 0 (order_of self.now.chain) layer }
    {
        self.layers.bottom_place(layer)
    }
}

fn id_or_none(id: u64) -> Option<u64>
    ensures { result ≡ id_or_none id }
{
    if id == END { None } else { Some(id) }
}
