// A name of 1 to 64 characters. Clauses see its bytes.
ghost use Rattle.std.specs.Prelude.{◌≡◌, ◌≤◌, Some, None, if◌then◌else◌, length};
ghost use Rattle.ev_model.specs.Name.{padded, is_name, begins_name, is_name_byte, is_word_byte, is_mark, is_name_long};
ghost use Rattle.std.specs.List.{list_all};

use std::marker::Model;

/// The name of an object or of a file: 1 to 64 characters among letters, digits, `_`, `-` and `.`,
/// which doesn't begin with `-` or `.` (docs/SCRIPT.md, "Lines"). It takes no memory of its own.
#[derive(Clone, Copy, Debug, PartialEq, Eq)]
pub struct Name {
    bytes: [u8; 64],
    len: usize,
}

impl Model for Name {
    ghost use Rattle.std.specs.Prelude.{ℕ, ◌-◌, ◌++◌, List, length, take, replicate};
    ghost use Rattle.std.proofs.Common.{ap₂};
    ghost use Rattle.ev_model.specs.Name.{IsPadded, padded, front_length, front_padded};

    ghost Value = { List ℕ };

    ghost view = { λ n. take n.len n.bytes };

    ghost invariant = { λ n. IsPadded n.bytes n.len };

    ghost inverse = { λ v. record { bytes = padded v; len = length v } };

    ghost inverse_ok = { λ n h. ap₂ (λ (b : List ℕ) (l : ℕ). record { bytes = b; len = l }) (front_padded n.bytes n.len h) (front_length n.bytes n.len h) };
}

impl Name {
    /// The name of these bytes. None exactly where they are no name.
    pub fn read(bytes: &[u8]) -> Option<Name>
        ensures { result ≡ (if is_name bytes.now then Some bytes.now else None) }
    {
        if is_name(bytes) {
            Some(Name {
                bytes: padded(bytes),
                len: bytes.len(),
            })
        } else {
            None
        }
    }

    /// The characters, one byte each.
    pub fn bytes(&self) -> &[u8]
        ensures value { result.now ≡ self.now }
        ensures short { length self.now ≤ 64 }
    {
        &self.bytes[..self.len]
    }
}

// Whether these bytes are a name.
fn is_name(bytes: &[u8]) -> bool
    ensures { result ≡ is_name bytes.now }
{
    is_name_long(bytes.len()) && begins_name(bytes[0]) && are_name_bytes(bytes)
}

fn is_name_long(len: usize) -> bool
    ensures { result ≡ is_name_long len }
{
    1 <= len && len <= 64
}

fn are_name_bytes(bytes: &[u8]) -> bool
    ensures { result ≡ list_all is_name_byte bytes.now }
{
    bytes.iter().all(|c| is_name_byte(*c))
}

fn begins_name(c: u8) -> bool
    ensures { result ≡ begins_name c }
{
    c != b'-' && c != b'.'
}

fn is_name_byte(c: u8) -> bool
    ensures { result ≡ is_name_byte c }
{
    is_word_byte(c) || is_mark(c)
}

fn is_word_byte(c: u8) -> bool
    ensures { result ≡ is_word_byte c }
{
    c.is_ascii_lowercase() || c.is_ascii_uppercase() || c.is_ascii_digit()
}

fn is_mark(c: u8) -> bool
    ensures { result ≡ is_mark c }
{
    c == b'_' || c == b'-' || c == b'.'
}

// 64 bytes with the text in front.
fn padded(text: &[u8]) -> [u8; 64]
    requires { length text.now ≤ 64 }
    ensures { result ≡ padded text.now }
{
    let mut bytes = [0; 64];
    bytes[..text.len()].copy_from_slice(text);
    bytes
}
