// Files as a store holds them.
ghost use Rattle.std.specs.Prelude.{◌≡◌};

use std::marker::Model;

/// The most bytes that a file of a store may have: those of the largest image (docs/FORMATS.md).
pub const LARGEST_FILE: usize = 67_108_877;

/// A list of bytes, as a file's key and content.
#[derive(Drop)]
pub struct Bytes {
    items: Vec<u8>,
}

impl Model for Bytes {
    ghost use Rattle.std.specs.Prelude.{List, ℕ};

    ghost Value = { List ℕ };

    ghost view = { λ b. b.items.items };
}

impl Bytes {
    /// These bytes.
    pub fn new(items: Vec<u8>) -> Bytes
        ensures { result ≡ items.items }
    {
        Bytes { items }
    }

    /// The bytes in their order.
    pub fn as_slice(&self) -> &[u8]
        ensures { result.now ≡ self.now }
    {
        &self.items
    }
}

/// A file of a store: the key that names it, and its bytes (docs/ARCHITECTURE.md, "The outside").
#[derive(Drop)]
pub struct StoredFile {
    pub key: Bytes,
    pub bytes: Bytes,
}
