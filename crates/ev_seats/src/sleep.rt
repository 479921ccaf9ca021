//! What a thread compares before it sleeps.
ghost use Rattle.std.specs.Prelude.{◌≡◌, ◌%◌, ◌^◌};

/// The low half of a word: the part that a sleep on the word compares (docs/THREADS.md, Resting).
pub fn low_bits(word: u64) -> u32
    ensures { result ≡ word % 2 ^ 32 }
{
    (word & 0xffff_ffff) as u32
}
