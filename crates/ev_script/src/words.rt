// The words of a run.
ghost use Rattle.std.specs.Prelude.{◌≡◌, ◌≤◌, ◌↔◌, false, length, option_map, IfOk, IfSome, IsErrOf, Ok, Err, if◌then◌else◌, codes, string_bytes};
ghost use Rattle.ev_script.specs.Status.{texts};
ghost use Rattle.ev_script.specs.Options.{are_pairs, begins_dash, buffers, cell, is_of_kind, number_or, options_of, takes, value_of, workers};

use ev_lang::natural;
use std::alloc::{AllocError, Global};

#[cfg(test)]
mod tests;

/// What the words of a run ask for, beside folders (docs/SCRIPT.md, Words).
#[derive(Clone, Copy, Debug, PartialEq, Eq)]
pub struct Options {
    /// How many workers draw, beside the run itself.
    pub workers: u32,
    /// How many buffers the canvas has.
    pub buffers: u32,
    /// The side of a cell of damage, in pixels.
    pub cell: u32,
}

/// The folders that the words of a run name, where they name one.
#[derive(Drop)]
pub struct Folders {
    /// Where images and fonts come from.
    pub store: Option<String>,
    /// Where frames are written.
    pub frames: Option<String>,
}

/// Why the words of a run aren't read.
#[derive(Clone, Copy, Debug, PartialEq, Eq)]
pub enum BadWords {
    /// They aren't ones that a run takes.
    Usage,
    /// There was no room for what they say.
    NoMemory,
}

impl From<AllocError> for BadWords {
    ghost use Rattle.ev_script.specs.declared.words.BadWords.TheVariants.{NoMemory};

    ghost from_gives = { λ _ e. e ≡ NoMemory };

    fn from(_: AllocError) -> BadWords {
        BadWords::NoMemory
    }
}

/// Reads what the words of a run ask for: `--workers` with 0 to 16, `--buffers` with 1 to 3 and
/// `--cell` with 1, 2, 4, 8, 16, 32 or 64. Without them it is 2 workers, 2 buffers and 8 pixels.
/// `Usage`: exactly where the words aren't pairs of an option and a value that it takes, each
/// option at most once (docs/SCRIPT.md, Words). It takes no memory.
pub fn read_words(words: &[&str]) -> Result<Options, BadWords>
    ensures { result ≡ (if are_pairs (texts words.now)
        then Ok (options_of (texts words.now)) else Err BadWords.Usage) }
{
    if !are_pairs(words) {
        return Err(BadWords::Usage);
    }
    Ok(options_of(words))
}

/// What the words give to each option, each within its range.
pub(crate) fn options_of(words: &[&str]) -> Options
    ensures options { result ≡ options_of (texts words.now) }
    ensures cell_low { 1 ≤ result.cell }
    ensures cell_high { result.cell ≤ 64 }
    ensures buffers_low { 1 ≤ result.buffers }
    ensures buffers_high { result.buffers ≤ 3 }
{
    Options {
        workers: workers_given(words),
        buffers: buffers_given(words),
        cell: cell_given(words),
    }
}

/// Reads the folders that the words of a run name, with `--store` and `--frames`. `Usage`: exactly
/// as `read_words` answers it. `NoMemory`: there was no room for their names.
pub fn read_folders(alloc: Global, words: &[&str]) -> Result<Folders, BadWords>
    ensures usage { IsErrOf result BadWords.Usage ↔ are_pairs (texts words.now) ≡ false }
    ensures store { IfOk result (λ folders. option_map string_bytes folders.store
        ≡ value_of (codes "--store") (texts words.now)) }
    ensures frames { IfOk result (λ folders. option_map string_bytes folders.frames
        ≡ value_of (codes "--frames") (texts words.now)) }
{
    if !are_pairs(words) {
        return Err(BadWords::Usage);
    }
    Ok(Folders {
        store: owned(alloc, value_of("--store", words))?,
        frames: owned(alloc, value_of("--frames", words))?,
    })
}

fn owned(alloc: Global, text: Option<&str>) -> Result<Option<String>, AllocError>
    ensures { IfOk result (λ owned. option_map string_bytes owned
        ≡ option_map (λ words. words.now) text.entry) }
{
    match text {
        Some(text) => Ok(Some(text.to_string(alloc)?)),
        None => Ok(None),
    }
}

// Whether the words are pairs of an option and a value that it takes, each option at most once.
pub(crate) fn are_pairs(words: &[&str]) -> bool
    ensures { result ≡ are_pairs (texts words.now) }
{
    let mut rest = words;
    while let [option, value, more @ ..] = rest {
        if !takes(option, value) || value_of(option, more).is_some() {
            return false;
        }
        rest = more;
    }
    rest.is_empty()
}

// The value behind this option, where it stands among the words.
fn value_of<'a>(option: &str, words: &[&'a str]) -> Option<&'a str>
    ensures { option_map (λ value. value.now) result ≡ value_of option.now (texts words.now) }
{
    let mut rest = words;
    while let [word, value, more @ ..] = rest {
        if *word == option {
            return Some(value);
        }
        rest = more;
    }
    None
}

// Whether an option takes this value.
fn takes(option: &str, value: &str) -> bool
    ensures { result ≡ takes option.now value.now }
{
    !begins_dash(value.as_bytes()) && is_of_kind(option, value)
}

fn begins_dash(value: &[u8]) -> bool
    ensures { result ≡ begins_dash value.now }
{
    match value {
        [] => false,
        [c, ..] => *c == b'-',
    }
}

// Whether an option is one of the five and this is a value of its kind.
fn is_of_kind(option: &str, value: &str) -> bool
    ensures { result ≡ is_of_kind option.now value.now }
{
    if option == "--workers" {
        workers(value).is_some()
    } else if option == "--buffers" {
        buffers(value).is_some()
    } else if option == "--cell" {
        cell(value).is_some()
    } else {
        option == "--store" || option == "--frames"
    }
}

fn workers_given(words: &[&str]) -> u32
    ensures { result ≡ number_or 2 workers (value_of (codes "--workers") (texts words.now)) }
{
    value_of("--workers", words).and_then(workers).unwrap_or(2)
}

fn buffers_given(words: &[&str]) -> u32
    ensures value { result ≡ number_or 2 buffers (value_of (codes "--buffers") (texts words.now)) }
    ensures low { 1 ≤ result }
    ensures high { result ≤ 3 }
{
    let Some(value) = value_of("--buffers", words) else {
        return 2;
    };
    buffers(value).unwrap_or(2)
}

fn cell_given(words: &[&str]) -> u32
    ensures value { result ≡ number_or 8 cell (value_of (codes "--cell") (texts words.now)) }
    ensures low { 1 ≤ result }
    ensures high { result ≤ 64 }
{
    let Some(value) = value_of("--cell", words) else {
        return 8;
    };
    cell(value).unwrap_or(8)
}

// How many workers a value asks for.
fn workers(value: &str) -> Option<u32>
    ensures { result ≡ workers value.now }
{
    let n = natural(value.as_bytes())?;
    if n <= 16 { Some(n as u32) } else { None }
}

// How many buffers a value asks for.
fn buffers(value: &str) -> Option<u32>
    ensures value { result ≡ buffers value.now }
    ensures range { IfSome result (λ n. (1 ≤ n) × (n ≤ 3)) }
{
    let n = natural(value.as_bytes())?;
    if 1 <= n && n <= 3 {
        Some(n as u32)
    } else {
        None
    }
}

// The side of a cell that a value asks for, in pixels.
fn cell(value: &str) -> Option<u32>
    ensures value { result ≡ cell value.now }
    ensures range { IfSome result (λ n. (1 ≤ n) × (n ≤ 64)) }
{
    let n = natural(value.as_bytes())?;
    if [1, 2, 4, 8, 16, 32, 64].contains(&n) {
        Some(n as u32)
    } else {
        None
    }
}
