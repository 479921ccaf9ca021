// What is asked of the loader.
ghost use Rattle.std.specs.Prelude.{◌≡◌, true};
ghost use Rattle.ev_preload.specs.Job.{Job, is_loadable};

use ev_model::{Kind, Name};
use std::marker::Model;

/// A load that begins: its number, counted from 1, the id, name and kind of the object that it is
/// for, which is an image or a text, and the key of the file (docs/CANVAS.md, "Loads").
#[derive(Clone, Copy)]
pub struct LoadJob {
    number: u64,
    id: u64,
    name: Name,
    kind: Kind,
    key: Name,
}

impl Model for LoadJob {
    ghost use Rattle.std.specs.Prelude.{◌≡◌, true};
    ghost use Rattle.ev_preload.specs.Job.{Job, is_loadable};

    ghost Value = { Job };

    ghost view = { λ j. record { number = j.number; id = j.id; name = j.name; kind = j.kind; key = j.key } };

    ghost invariant = { λ j. is_loadable j.kind ≡ true };

    ghost inverse = { λ v. record { number = v.number; id = v.id; name = v.name; kind = v.kind; key = v.key } };
}

impl LoadJob {
    /// The load of this number, for an object of this id, name and kind, of the file with this key.
    pub fn new(number: u64, id: u64, name: Name, kind: Kind, key: Name) -> LoadJob
        requires { is_loadable kind ≡ true }
        ensures { result ≡ record { number = number; id = id; name = name; kind = kind; key = key } }
    {
        LoadJob {
            number,
            id,
            name,
            kind,
            key,
        }
    }

    /// The number of the load, counted from 1.
    pub fn number(&self) -> u64
        ensures { result ≡ self.now.number }
    {
        self.number
    }

    /// The id of the object that it is for.
    pub fn id(&self) -> u64
        ensures { result ≡ self.now.id }
    {
        self.id
    }

    /// The name of that object.
    pub fn name(&self) -> &Name
        ensures { result.now ≡ self.now.name }
    {
        &self.name
    }

    /// The kind of that object: an image is loaded for an image object, a font for a text object.
    pub fn kind(&self) -> Kind
        ensures value { result ≡ self.now.kind }
        ensures loadable { is_loadable self.now.kind ≡ true }
    {
        self.kind
    }

    /// The key of the file.
    pub fn key(&self) -> &Name
        ensures { result.now ≡ self.now.key }
    {
        &self.key
    }
}
