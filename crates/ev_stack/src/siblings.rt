// The calls on siblings.
ghost use Rattle.std.specs.Prelude.{◌≡◌, ◌≢◌, ◌==◌, [], length, None, Some, IfOk, OnOk, OnErr};
ghost use Rattle.std.specs.Result.{result_err};
ghost use Rattle.ev_stack.specs.LayerOrder.{layer_in, bottom_in, above_in, at_place, ids_of, ids_above, ids_from, IsOrder, put_top, without};
ghost use Rattle.ev_stack.specs.StackCalls.{place_fault, known_fault, raised, lowered, relayered, placed_above, placed_below};

use crate::NoMemory;
use crate::stack::Stack;
use std::alloc::Global;
use std::marker::Model;

/// Why a call was refused: the first of these that holds (docs/CANVAS.md, Objects).
#[derive(Clone, Copy, Debug, PartialEq, Eq)]
pub enum StackErr {
    /// No object among these siblings has the id.
    Unknown,
    /// An object can't stand above or below itself.
    Itself,
    /// The two objects are in different layers.
    Layer,
}

/// The objects of one parent, or those without one, from bottom to top, each with its layer. Layers
/// never fall on the way up, and no object stands twice (docs/CANVAS.md, Objects). Objects go by
/// their ids, which are numbers from 1.
#[derive(Drop)]
pub struct Siblings {
    stack: Stack,
}

impl Model for Siblings {
    ghost use Rattle.std.specs.Prelude.{ℕ, ℤ, List};
    ghost use Rattle.ev_stack.specs.Links.{order_of};
    ghost use Rattle.ev_stack.specs.Stacks.{IsStack};

    ghost Value = { List (ℕ × ℤ) };

    ghost view = { λ siblings. order_of siblings.stack.chain };

    ghost invariant = { λ siblings. IsStack siblings.stack };
}

impl Siblings {
    /// No objects.
    pub fn new(alloc: Global) -> Siblings
        ensures { result ≡ [] }
    {
        Siblings {
            stack: Stack::new(alloc),
        }
    }

    /// How many objects there are.
    pub fn len(&self) -> usize
        ensures len { result ≡ length self.now }
        ensures order { IsOrder self.now }
    {
        self.stack.len()
    }

    /// Whether there are no objects.
    pub fn is_empty(&self) -> bool
        ensures { result ≡ (length self.now == 0) }
    {
        self.stack.len() == 0
    }

    /// The object at a place, counted from 0 at the bottom. None from the top on. This walks up from
    /// the bottom: to meet all objects, go from `bottom` by `next_above`.
    pub fn at(&self, place: usize) -> Option<u64>
        ensures { result ≡ at_place self.now place }
    {
        self.stack.at(place)
    }

    /// The lowest object. None where there is no object. From here `next_above` leads to each object
    /// in its order, once.
    pub fn bottom(&self) -> Option<u64>
        ensures bottom { result ≡ bottom_in self.now }
        ensures all { ids_from self.now result ≡ ids_of self.now }
    {
        self.stack.bottom()
    }

    /// The object directly above this one. None for the topmost, and where no object has the id.
    pub fn next_above(&self, id: u64) -> Option<u64>
        ensures above { result ≡ above_in self.now id }
        ensures rest { ids_from self.now result ≡ ids_above self.now id }
    {
        self.stack.next_above(id)
    }

    /// The layer of an object. None where no object has the id.
    pub fn layer_of(&self, id: u64) -> Option<i32>
        ensures { result ≡ layer_in self.now id }
    {
        self.stack.layer_of(id)
    }

    /// Adds an object at the top of a layer.
    ///
    /// NoMemory where there is no room for it: then nothing changes.
    pub fn push_top(&mut self, id: u64, layer: i32) -> Result<(), NoMemory>
        requires fresh { layer_in self.old id ≡ None }
        requires serial { id ≢ 0 }
        ensures ok { OnOk result (self.new ≡ put_top self.old id layer) }
        ensures err { OnErr result (self.new ≡ self.old) }
    {
        self.stack.push_top(id, layer)
    }

    /// Moves an object to the top of its layer (docs/SCRIPT.md, `raise`).
    ///
    /// Unknown where no object has the id: then nothing changes.
    pub fn raise(&mut self, id: u64) -> Result<(), StackErr>
        ensures fault { result_err result ≡ known_fault self.old id }
        ensures ok { OnOk result (self.new ≡ raised self.old id) }
        ensures err { OnErr result (self.new ≡ self.old) }
    {
        match self.stack.layer_of(id) {
            Some(own) => {
                self.stack.move_to_top(id, own, own);
                Ok(())
            }
            None => Err(StackErr::Unknown),
        }
    }

    /// Moves an object to the bottom of its layer (docs/SCRIPT.md, `lower`).
    ///
    /// Unknown where no object has the id: then nothing changes.
    pub fn lower(&mut self, id: u64) -> Result<(), StackErr>
        ensures fault { result_err result ≡ known_fault self.old id }
        ensures ok { OnOk result (self.new ≡ lowered self.old id) }
        ensures err { OnErr result (self.new ≡ self.old) }
    {
        match self.stack.layer_of(id) {
            Some(own) => {
                self.stack.move_to_bottom(id, own);
                Ok(())
            }
            None => Err(StackErr::Unknown),
        }
    }

    /// Moves an object to the top of another layer. Its own layer changes nothing
    /// (docs/SCRIPT.md, `layer`).
    ///
    /// Unknown where no object has the id: then nothing changes.
    pub fn relayer(&mut self, id: u64, layer: i32) -> Result<(), StackErr>
        ensures fault { result_err result ≡ known_fault self.old id }
        ensures ok { OnOk result (self.new ≡ relayered self.old id layer) }
        ensures err { OnErr result (self.new ≡ self.old) }
    {
        match self.stack.layer_of(id) {
            Some(own) => {
                if own != layer {
                    self.stack.move_to_top(id, own, layer);
                }
                Ok(())
            }
            None => Err(StackErr::Unknown),
        }
    }

    /// Removes an object.
    ///
    /// Unknown where no object has the id: then nothing changes.
    pub fn remove(&mut self, id: u64) -> Result<(), StackErr>
        ensures fault { result_err result ≡ known_fault self.old id }
        ensures ok { OnOk result (self.new ≡ without self.old id) }
        ensures err { OnErr result (self.new ≡ self.old) }
    {
        match self.stack.layer_of(id) {
            Some(own) => {
                self.stack.remove(id, own);
                Ok(())
            }
            None => Err(StackErr::Unknown),
        }
    }

    /// Moves an object directly above another of its layer (docs/SCRIPT.md, `above`).
    ///
    /// Unknown where no object has one of the ids, Itself where they are the same, Layer where the
    /// two layers differ: then nothing changes.
    pub fn above(&mut self, id: u64, other: u64) -> Result<(), StackErr>
        ensures fault { result_err result ≡ place_fault self.old id other }
        ensures ok { OnOk result (self.new ≡ placed_above self.old id other) }
        ensures err { OnErr result (self.new ≡ self.old) }
    {
        let layer = self.shared_layer(id, other)?;
        self.stack.move_above(id, layer, other);
        Ok(())
    }

    /// Moves an object directly below another of its layer (docs/SCRIPT.md, `below`).
    ///
    /// Unknown where no object has one of the ids, Itself where they are the same, Layer where the
    /// two layers differ: then nothing changes.
    pub fn below(&mut self, id: u64, other: u64) -> Result<(), StackErr>
        ensures fault { result_err result ≡ place_fault self.old id other }
        ensures ok { OnOk result (self.new ≡ placed_below self.old id other) }
        ensures err { OnErr result (self.new ≡ self.old) }
    {
        let layer = self.shared_layer(id, other)?;
        self.stack.move_below(id, layer, other);
        Ok(())
    }

    // The layer of two objects that may stand side by side.
    fn shared_layer(&self, id: u64, other: u64) -> Result<i32, StackErr>
        ensures fault { result_err result ≡ place_fault self.now id other }
        ensures layer { IfOk result (λ layer. layer_in self.now id ≡ Some layer) }
        ensures other { IfOk result (λ layer. layer_in self.now other ≡ Some layer) }
        ensures differ { OnOk result (id ≢ other) }
    {
        match (self.stack.layer_of(id), self.stack.layer_of(other)) {
            (Some(layer), Some(beside)) => {
                if id == other {
                    return Err(StackErr::Itself);
                }
                if layer != beside {
                    return Err(StackErr::Layer);
                }
                Ok(layer)
            }
            _ => Err(StackErr::Unknown),
        }
    }
}
