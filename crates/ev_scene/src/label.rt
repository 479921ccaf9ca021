// A name as a key.
ghost use Rattle.std.specs.Prelude.{List, ◌∷◌, []};
ghost use Rattle.std.proofs.Common.{rules};
ghost use Rattle.std.specs.Cmp.Rules.{comparing, hashing};
ghost use Rattle.std.specs.Str.{bytes_eq};

use ev_model::Name;
use std::hash::{Hash, Hasher};

// A name, which is compared and hashed by its characters, however many bytes it fills.
#[derive(Clone, Copy)]
pub struct Label {
    pub name: Name,
}

impl PartialEq for Label {
    ghost eq = { λ a b. bytes_eq a.name b.name };

    ghost laws = { Prim.search (comparing, rules) };

    fn eq(&self, other: &Label) -> bool {
        self.name.bytes() == other.name.bytes()
    }
}

impl Eq for Label {
    ghost laws = { Prim.search (comparing, rules) };
}

impl Hash for Label {
    ghost hash_input = { λ a. a.name ∷ [] };

    ghost respects_eq = { Prim.search (hashing, rules) };

    fn hash<H: Hasher>(&self, state: &mut H) {
        state.write(self.name.bytes());
    }
}
