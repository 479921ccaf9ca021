// A list of objects that is kept by links, in which each edit takes a few look-ups.
ghost use Rattle.std.specs.Prelude.{◌≡◌, ◌≢◌, [], ◌+◌, ◌^◌, ◌≤◌, ◌<◌, ℕ, pos, true, Some, None, IsSome, length, nat_eq, is_some, int_lt, OnOk, OnErr, ◌==◌, if◌then◌else◌};
ghost use Rattle.std.specs.HashMap.{get, hash_map_len, IsUnchanged};
ghost use Rattle.ev_stack.specs.LayerOrder.{is_in, without, IsApart};
ghost use Rattle.ev_stack.specs.Links.{above_of, below_of, layer_of, is_place, order_of, put_after, IsPlace, IsSound};

use crate::NoMemory;
use std::alloc::Global;
use std::collections::HashMap;

/// The id that stands for both ends of a chain.
pub const END: u64 = 0;

/// What a chain keeps of one object.
#[derive(Clone, Copy, Debug)]
pub struct Node {
    layer: i32,
    below: u64,
    above: u64,
}

/// Objects, each with its neighbours and its layer.
#[derive(Drop)]
pub struct Chain {
    nodes: HashMap<u64, Node>,
    bottom: u64,
    top: u64,
}

impl Chain {
    /// No objects.
    pub fn new(alloc: Global) -> Chain
        ensures sound { IsSound result }
        ensures order { order_of result ≡ [] }
        ensures layers { (id : ℕ) → layer_of result id ≡ None }
        ensures len { hash_map_len result.nodes ≡ 0 }
    {
        Chain {
            nodes: HashMap::new(alloc),
            bottom: END,
            top: END,
        }
    }

    /// The object directly above another, the lowest above the end, the end where there is none.
    pub fn above(&self, id: u64) -> u64
        ensures { result ≡ above_of self.now id }
    {
        if id == END {
            return self.bottom;
        }
        match self.nodes.get(&id) {
            Some(node) => node.above,
            None => END,
        }
    }

    /// The object directly below another, the topmost below the end, the end where there is none.
    pub fn below(&self, id: u64) -> u64
        ensures { result ≡ below_of self.now id }
    {
        if id == END {
            return self.top;
        }
        match self.nodes.get(&id) {
            Some(node) => node.below,
            None => END,
        }
    }

    /// The layer of an object that has a node.
    pub fn layer(&self, id: u64) -> Option<i32>
        ensures { result ≡ layer_of self.now id }
    {
        match self.nodes.get(&id) {
            Some(node) => Some(node.layer),
            None => None,
        }
    }

    fn set_above(&mut self, id: u64, above: u64)
        requires { is_place self.old id ≡ true }
        ensures above { (other : ℕ) → above_of self.new other ≡ (if other == id then above else above_of self.old other) }
        ensures below { (other : ℕ) → below_of self.new other ≡ below_of self.old other }
        ensures layers { (other : ℕ) → layer_of self.new other ≡ layer_of self.old other }
        ensures places { (other : ℕ) → is_place self.new other ≡ is_place self.old other }
        ensures len { hash_map_len self.new.nodes ≡ hash_map_len self.old.nodes }
    {
        if id == END {
            self.bottom = above;
        } else if let Some(node) = self.nodes.get_mut(&id) {
            node.above = above;
        }
    }

    fn set_below(&mut self, id: u64, below: u64)
        requires { is_place self.old id ≡ true }
        ensures above { (other : ℕ) → above_of self.new other ≡ above_of self.old other }
        ensures below { (other : ℕ) → below_of self.new other ≡ (if other == id then below else below_of self.old other) }
        ensures layers { (other : ℕ) → layer_of self.new other ≡ layer_of self.old other }
        ensures places { (other : ℕ) → is_place self.new other ≡ is_place self.old other }
        ensures len { hash_map_len self.new.nodes ≡ hash_map_len self.old.nodes }
    {
        if id == END {
            self.top = below;
        } else if let Some(node) = self.nodes.get_mut(&id) {
            node.below = below;
        }
    }

    // The node of an object.
    fn node(&self, id: u64) -> Node
        requires object { id ≢ 0 }
        requires there { is_some (layer_of self.now id) ≡ true }
        ensures above { result.above ≡ above_of self.now id }
        ensures below { result.below ≡ below_of self.now id }
        ensures layer { layer_of self.now id ≡ Some result.layer }
    {
        match self.nodes.get(&id) {
            Some(node) => *node,
            None => unreachable!(),
        }
    }

    fn set_node(&mut self, id: u64, new: Node)
        requires object { id ≢ 0 }
        requires there { is_some (layer_of self.old id) ≡ true }
        ensures above { (other : ℕ) → above_of self.new other ≡ (if other == id then new.above else above_of self.old other) }
        ensures below { (other : ℕ) → below_of self.new other ≡ (if other == id then new.below else below_of self.old other) }
        ensures layers { (other : ℕ) → layer_of self.new other ≡ (if other == id then Some new.layer else layer_of self.old other) }
        ensures places { (other : ℕ) → is_place self.new other ≡ is_place self.old other }
        ensures len { hash_map_len self.new.nodes ≡ hash_map_len self.old.nodes }
    {
        if let Some(node) = self.nodes.get_mut(&id) {
            *node = new;
        }
    }

    /// Takes an object out of the order, and gives the one below it. Its node and its layer stay.
    pub fn unlink(&mut self, id: u64) -> u64
        requires sound { IsSound self.old }
        requires there { is_in (order_of self.old) id ≡ true }
        ensures sound { IsSound self.new }
        ensures order { order_of self.new ≡ without (order_of self.old) id }
        ensures layers { (other : ℕ) → layer_of self.new other ≡ layer_of self.old other }
        ensures len { hash_map_len self.new.nodes ≡ hash_map_len self.old.nodes }
        ensures below { result ≡ below_of self.old id }
    {
        let Node {
            layer,
            below,
            above,
        } = self.node(id);
        self.set_above(below, above);
        self.set_below(above, below);
        self.set_node(
            id,
            Node {
                layer,
                below: END,
                above: END,
            },
        );
        below
    }

    /// Puts an object that has a node directly above a place, which is an object or the end.
    pub fn link(&mut self, id: u64, layer: i32, place: u64)
        requires sound { IsSound self.old }
        requires place { IsPlace 0 (order_of self.old) place }
        requires fresh { IsApart id (order_of self.old) }
        requires object { id ≢ 0 }
        requires node { is_some (layer_of self.old id) ≡ true }
        requires room { hash_map_len self.old.nodes ≡ length (order_of self.old) + 1 }
        ensures sound { IsSound self.new }
        ensures order { order_of self.new ≡ put_after 0 (order_of self.old) place (id, layer) }
        ensures layers { (other : ℕ) → layer_of self.new other ≡ (if other == id then Some layer else layer_of self.old other) }
        ensures len { hash_map_len self.new.nodes ≡ hash_map_len self.old.nodes }
    {
        let above = self.above(place);
        self.set_node(
            id,
            Node {
                layer,
                below: place,
                above,
            },
        );
        self.set_above(place, id);
        self.set_below(above, id);
    }

    /// How many objects have a node.
    pub fn node_count(&self) -> usize
        ensures count { result ≡ hash_map_len self.now.nodes }
        ensures bound { result < 2 ^ 63 }
    {
        self.nodes.len()
    }

    /// Adds a node that no link leads to.
    pub fn insert(&mut self, id: u64, layer: i32) -> Result<(), NoMemory>
        requires fresh { layer_of self.old id ≡ None }
        requires object { id ≢ 0 }
        ensures above { (other : ℕ) → above_of self.new other ≡ above_of self.old other }
        ensures below { (other : ℕ) → below_of self.new other ≡ below_of self.old other }
        ensures layers { OnOk result ((other : ℕ) → layer_of self.new other ≡ (if other == id then Some layer else layer_of self.old other)) }
        ensures same_layers { OnErr result ((other : ℕ) → layer_of self.new other ≡ layer_of self.old other) }
        ensures len { OnOk result (hash_map_len self.new.nodes ≡ hash_map_len self.old.nodes + 1) }
        ensures same_len { OnErr result (hash_map_len self.new.nodes ≡ hash_map_len self.old.nodes) }
    {
        let node = Node {
            layer,
            below: END,
            above: END,
        };
        self.nodes.insert(id, node)?;
        Ok(())
    }

    /// Removes a node that no link leads to or from.
    pub fn forget(&mut self, id: u64)
        requires alone { (above_of self.old id ≡ 0) × (below_of self.old id ≡ 0) }
        requires object { id ≢ 0 }
        requires there { is_some (layer_of self.old id) ≡ true }
        ensures above { (other : ℕ) → above_of self.new other ≡ above_of self.old other }
        ensures below { (other : ℕ) → below_of self.new other ≡ below_of self.old other }
        ensures layers { (other : ℕ) → layer_of self.new other ≡ (if other == id then None else layer_of self.old other) }
        ensures len { hash_map_len self.old.nodes ≡ hash_map_len self.new.nodes + 1 }
    {
        let _ = self.nodes.remove(&id);
    }
}
