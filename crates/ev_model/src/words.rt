// The text of an object. Clauses see its bytes.
ghost use Rattle.std.specs.Prelude.{◌≡◌, IfOk};

use crate::NoMemory;
use std::alloc::Global;
use std::marker::Model;

/// A list of bytes.
#[derive(Drop)]
pub struct Words {
    bytes: Vec<u8>,
}

impl Model for Words {
    ghost use Rattle.std.specs.Prelude.{ℕ, List};

    ghost Value = { List ℕ };

    ghost view = { λ w. w.bytes.items };
}

impl Words {
    /// These bytes in memory of their own, or `NoMemory` where there is none.
    pub fn new(alloc: Global, bytes: &[u8]) -> Result<Words, NoMemory>
        ensures { IfOk result (λ w. w ≡ bytes.now) }
    {
        let bytes = bytes.to_vec(alloc)?;
        Ok(Words { bytes })
    }

    /// The bytes, one for each character.
    pub fn bytes(&self) -> &[u8]
        ensures { result.now ≡ self.now }
    {
        &self.bytes
    }

    /// The same bytes once more, or `NoMemory` where there is no room for them.
    pub fn copied(&self) -> Result<Words, NoMemory>
        ensures { IfOk result (λ w. w ≡ self.now) }
    {
        let bytes = self.bytes.clone()?;
        Ok(Words { bytes })
    }
}
