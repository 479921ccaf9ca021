// A store in memory.
ghost use Rattle.std.specs.Prelude.{◌≡◌, ◌≤◌, ◌↔◌, [], length, nat_le, IsTrue, IsErrOf, OnOk, OnErr, Some, None};
ghost use Rattle.std.specs.Option.{option_map};
ghost use Rattle.ev_port.specs.Calls.{no_calls, is_listed};
ghost use Rattle.ev_port.specs.Causes.{HasStoreCause};
ghost use Rattle.ev_port.specs.Files.{Fetches, Answers, due, bytes_of};
ghost use Rattle.ev_port.specs.Memory.{after_fetch};

use crate::calls::Calls;
use crate::{LARGEST_FILE, Store, StoreErr, StoredFile};
use std::marker::Model;

/// A store over files (docs/ARCHITECTURE.md, "The outside"). It fails at the calls of `fetch` whose
/// numbers it was given, counted from 1, and nothing else changes then.
#[derive(Drop)]
pub struct MemStore {
    files: Vec<StoredFile>,
    calls: Calls,
}

impl Model for MemStore {
    ghost use Rattle.ev_port.specs.Memory.{MemoryStore};

    ghost Value = { MemoryStore };

    ghost view = { λ s. record { files = s.files.items; calls = s.calls } };
}

impl MemStore {
    /// A store of these files. A key that stands twice means its first file.
    pub fn new(files: Vec<StoredFile>, failing: Vec<u64>) -> MemStore
        ensures { result ≡ record { files = files.items; calls = no_calls failing.items } }
    {
        MemStore {
            files,
            calls: Calls::new(failing),
        }
    }
}

impl Store for MemStore {
    ghost files = { λ s. Some s.files };

    ghost faults = { λ s. s.calls.faults };

    fn fetch(&mut self, key: &[u8], into: &mut Vec<u8>) -> Result<(), StoreErr>
        requires { into.old.items ≡ [] }
        ensures bytes { Fetches (Some self.old.files) key.now result into.new.items }
        ensures small { OnOk result (length into.new.items ≤ LARGEST_FILE) }
        ensures kept { OnErr result (into.new.items ≡ []) }
        ensures files { Some self.new.files ≡ Some self.old.files }
        ensures cause { HasStoreCause self.old.calls.faults self.new.calls.faults result }
        ensures fails { IsErrOf result StoreErr.Failed ↔ IsTrue (is_listed self.old.calls) }
        ensures after { self.new ≡ after_fetch self.old }
    {
        if self.calls.is_listed() {
            self.calls.fail();
            return Err(StoreErr::Failed);
        }
        self.calls.pass();
        copy_file(bytes_of(&self.files, key), into)
    }

    fn faults(&self) -> u64 {
        self.calls.faults()
    }
}

// The bytes of the first file that has this key.
fn bytes_of<'a>(files: &'a [StoredFile], key: &[u8]) -> Option<&'a [u8]>
    ensures { option_map (λ bytes. bytes.now) result ≡ bytes_of files.now key.now }
{
    for file in files {
        if file.key.as_slice() == key {
            return Some(file.bytes.as_slice());
        }
    }
    None
}

// Copies the bytes that a key names.
fn copy_file(found: Option<&[u8]>, into: &mut Vec<u8>) -> Result<(), StoreErr>
    requires { into.old.items ≡ [] }
    ensures bytes { Answers (due (option_map (λ bytes. bytes.now) found.entry)) result into.new.items }
    ensures small { OnOk result (length into.new.items ≤ LARGEST_FILE) }
    ensures kept { OnErr result (into.new.items ≡ []) }
    ensures no_fault { IsErrOf result StoreErr.Failed → ⊥ }
{
    let Some(bytes) = found else {
        return Err(StoreErr::Missing);
    };
    if bytes.len() > LARGEST_FILE {
        return Err(StoreErr::TooLarge);
    }
    if into.extend_from_slice(bytes).is_err() {
        return Err(StoreErr::NoMemory);
    }
    Ok(())
}
