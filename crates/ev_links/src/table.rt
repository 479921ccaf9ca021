// What is kept of each object, by its id.
ghost use Rattle.std.specs.Prelude.{◌≡◌, ◌<◌, ◌^◌, ℕ, ◌∷◌, true, Some, None, is_some, map, nat_eq, OnOk, OnErr, ◌==◌, if◌then◌else◌};
ghost use Rattle.std.specs.Option.{option_eq};
ghost use Rattle.std.specs.HashMap.{hash_map_len, IsUnique};
ghost use Rattle.ev_links.specs.Ties.{alone, next_at, clipper_at, parent_at, kind_at, walk, step_up, has};
ghost use Rattle.ev_links.specs.Tables.{tie_in, node_in, clips_in, released_node, released_entry, ChangesTie, SetsClips, SameTies, SameClips, with_clipper, with_parent};

use crate::NoMemory;
use ev_model::Kind;
use std::alloc::Global;
use std::collections::HashMap;

/// What is kept of an object: its kind, its ties, and how many objects it clips.
#[derive(Clone, Copy, Debug)]
pub struct Node {
    pub kind: Kind,
    pub clipper: Option<u64>,
    pub parent: Option<u64>,
    pub clips: usize,
}

/// The nodes of all objects.
#[derive(Drop)]
pub struct Table {
    nodes: HashMap<u64, Node>,
}

impl Table {
    /// No objects.
    pub fn new(alloc: Global) -> Table
        ensures { (other : ℕ) → node_in result other ≡ None }
    {
        Table {
            nodes: HashMap::new(alloc),
        }
    }

    /// How many objects there are.
    pub fn len(&self) -> usize
        ensures value { result ≡ hash_map_len self.now.nodes }
        ensures small { result < 2 ^ 63 }
        ensures unique { IsUnique nat_eq self.now.nodes }
    {
        self.nodes.len()
    }

    pub fn node(&self, id: u64) -> Option<Node>
        ensures { result ≡ node_in self.now id }
    {
        self.nodes.get(&id).copied()
    }

    pub fn contains(&self, id: u64) -> bool
        ensures { result ≡ is_some (tie_in self.now id) }
    {
        self.node(id).is_some()
    }

    pub fn kind(&self, id: u64) -> Option<Kind>
        ensures { result ≡ kind_at (tie_in self.now) id }
    {
        Some(self.node(id)?.kind)
    }

    pub fn clipper(&self, id: u64) -> Option<u64>
        ensures { result ≡ clipper_at (tie_in self.now) id }
    {
        self.node(id)?.clipper
    }

    pub fn parent(&self, id: u64) -> Option<u64>
        ensures { result ≡ parent_at (tie_in self.now) id }
    {
        self.node(id)?.parent
    }

    /// The object directly over another: its clipper, or without one its parent.
    pub fn next(&self, id: u64) -> Option<u64>
        ensures { result ≡ next_at (tie_in self.now) id }
    {
        let node = self.node(id)?;
        node.clipper.or(node.parent)
    }

    /// How many objects this one clips.
    pub fn clips(&self, id: u64) -> usize
        requires { is_some (tie_in self.now id) ≡ true }
        ensures { clips_in self.now id ≡ Some result }
    {
        match self.node(id) {
            Some(node) => node.clips,
            None => unreachable!(),
        }
    }

    /// The object that so many steps up lead to.
    pub fn up_at(&self, id: u64, place: usize) -> Option<u64>
        ensures { result ≡ step_up (next_at (tie_in self.now)) place (Some id) }
    {
        let mut cursor = Some(id);
        'up: for _ in 0..place {
            match cursor {
                Some(at) => cursor = self.next(at),
                None => return None,
            }
        }
        cursor
    }

    /// Whether an object is on the way up from another, where that is the first.
    pub fn meets(&self, from: u64, id: u64) -> bool
        ensures value { result ≡ has (walk (next_at (tie_in self.now)) (hash_map_len self.now.nodes) (Some from)) id }
        ensures unique { IsUnique nat_eq self.now.nodes }
    {
        let mut cursor = Some(from);
        // No way is longer than there are objects.
        'up: for _ in 0..self.len() {
            match cursor {
                Some(at) if at == id => return true,
                Some(at) => cursor = self.next(at),
                None => return false,
            }
        }
        false
    }

    /// Whether an object is another or stands inside it.
    pub fn is_inside(&self, id: u64, of: u64) -> bool
        ensures value { result ≡ has (id ∷ walk (parent_at (tie_in self.now)) (hash_map_len self.now.nodes) (parent_at (tie_in self.now) id)) of }
        ensures unique { IsUnique nat_eq self.now.nodes }
    {
        (id == of) | self.stands_in(id, of)
    }

    // Whether an object is one of those that another stands in.
    fn stands_in(&self, id: u64, of: u64) -> bool
        ensures value { result ≡ has (walk (parent_at (tie_in self.now)) (hash_map_len self.now.nodes) (parent_at (tie_in self.now) id)) of }
        ensures unique { IsUnique nat_eq self.now.nodes }
    {
        let mut cursor = self.parent(id);
        // No way is longer than there are objects.
        'up: for _ in 0..self.len() {
            match cursor {
                Some(at) if at == of => return true,
                Some(at) => cursor = self.parent(at),
                None => return false,
            }
        }
        false
    }

    /// Adds an object that has no ties and clips nothing.
    pub fn insert(&mut self, id: u64, kind: Kind) -> Result<(), NoMemory>
        requires { tie_in self.old id ≡ None }
        ensures ties { OnOk result ((other : ℕ) → tie_in self.new other ≡ (if other == id then Some (alone kind) else tie_in self.old other)) }
        ensures clips { OnOk result ((other : ℕ) → clips_in self.new other ≡ (if other == id then Some 0 else clips_in self.old other)) }
        ensures err_ties { OnErr result (SameTies self.old self.new) }
        ensures err_clips { OnErr result (SameClips self.old self.new) }
    {
        let node = Node {
            kind,
            clipper: None,
            parent: None,
            clips: 0,
        };
        self.nodes.insert(id, node)?;
        Ok(())
    }

    pub fn set_clipper(&mut self, id: u64, clipper: Option<u64>)
        ensures ties { ChangesTie (with_clipper clipper) id self.old self.new }
        ensures clips { SameClips self.old self.new }
    {
        if let Some(node) = self.nodes.get_mut(&id) {
            node.clipper = clipper;
        }
    }

    pub fn set_parent(&mut self, id: u64, parent: Option<u64>)
        ensures ties { ChangesTie (with_parent parent) id self.old self.new }
        ensures clips { SameClips self.old self.new }
    {
        if let Some(node) = self.nodes.get_mut(&id) {
            node.parent = parent;
        }
    }

    pub fn set_clips(&mut self, id: u64, clips: usize)
        ensures ties { SameTies self.old self.new }
        ensures clips { SetsClips clips id self.old self.new }
    {
        if let Some(node) = self.nodes.get_mut(&id) {
            node.clips = clips;
        }
    }

    /// Takes a clipper from all objects that it clips.
    pub fn release(&mut self, clipper: u64)
        ensures { self.new.nodes.entries ≡ map (released_entry clipper) self.old.nodes.entries }
    {
        self.nodes.retain(|_, node| {
            release_node(node, clipper);
            true
        });
    }

    pub fn remove(&mut self, id: u64)
        ensures ties { (other : ℕ) → tie_in self.new other ≡ (if other == id then None else tie_in self.old other) }
        ensures clips { (other : ℕ) → clips_in self.new other ≡ (if other == id then None else clips_in self.old other) }
    {
        let _ = self.nodes.remove(&id);
    }
}

fn release_node(node: &mut Node, clipper: u64)
    ensures { node.new ≡ released_node clipper node.old }
{
    if node.clipper == Some(clipper) {
        node.clipper = None;
    }
}
