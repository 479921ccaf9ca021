// A store over the files of a folder.
ghost use Rattle.std.specs.Prelude.{◌≡◌, ◌≢◌, ◌≤◌, List, Option, [], length, if◌then◌else◌, IfOk, OnErr, OnOk, IsErrOf, None, string_bytes};
ghost use Rattle.std.specs.IoError.{error_kind};
ghost use Rattle.ev_port.specs.Causes.{HasStoreCause};
ghost use Rattle.ev_port.specs.Files.{Fetches};
ghost use Rattle.ev_edge.specs.Folder.{path_of, is_fault, Reads};
ghost use Rattle.ev_port.specs.Told.{counted};
ghost use Rattle.ev_port.specs.declared.file.TheConstants.{LARGEST_FILE};
ghost use Rattle.ev_port.specs.declared.file.StoredFile.{StoredFile};

use ev_port::{LARGEST_FILE, Store, StoreErr};
use std::alloc::Global;
use std::fs::{self, OpenFile};
use std::io::{self, ErrorKind, Read};
use std::rt::Files;
use std::str;

/// How many bytes are read at a time.
const PIECE: usize = 1 << 16;

/// A store over a folder: a key names the file of that name. Only a file that isn't found is missing.
/// A key that isn't text, a folder of that name and each other error of the system is a fault
/// (docs/ARCHITECTURE.md, "The outside").
#[derive(Drop)]
pub struct FolderStore<R: Files + Drop> {
    files: R,
    alloc: Global,
    folder: String,
    faults: u64,
}

impl<R: Files + Drop> FolderStore<R> {
    /// A store over this folder that has not failed yet.
    pub fn new(files: R, alloc: Global, folder: String) -> FolderStore<R>
        ensures { result ≡ record { files = files; alloc = alloc; folder = folder; faults = 0 } }
    {
        FolderStore {
            files,
            alloc,
            folder,
            faults: 0,
        }
    }

    // Appends the bytes of the key's file. At an error some of them may stand there.
    fn load(&self, key: &[u8], into: &mut Vec<u8>) -> Result<(), StoreErr>
        requires { into.old.items ≡ [] }
        ensures { OnOk result (length into.new.items ≤ LARGEST_FILE) }
    {
        let path = spell_path(self.alloc, &self.folder, key)?;
        let mut file = match fs::open(&self.files, path.as_str()) {
            Ok(file) => file,
            Err(error) => return Err(opening_fault(&error)),
        };
        make_room(&file, into)?;
        read(&mut file, into)
    }
}

impl<R: Files + Drop> Store for FolderStore<R> {
    ghost files = { λ _. None };

    ghost faults = { λ s. s.faults };

    fn fetch(&mut self, key: &[u8], into: &mut Vec<u8>) -> Result<(), StoreErr>
        requires { into.old.items ≡ [] }
        ensures bytes { Fetches None key.now result into.new.items }
        ensures small { OnOk result (length into.new.items ≤ LARGEST_FILE) }
        ensures kept { OnErr result (into.new.items ≡ []) }
        ensures files { ◌≡◌ {A = Option (List StoredFile)} None None }
        ensures folder { self.new.folder ≡ self.old.folder }
        ensures cause { HasStoreCause self.old.faults self.new.faults result }
        ensures counted { self.new.faults ≡ (if is_fault result then counted self.old.faults 1 else self.old.faults) }
    {
        let Err(error) = self.load(key, into) else {
            return Ok(());
        };
        into.clear();
        if error == StoreErr::Failed {
            self.faults = self.faults.saturating_add(1);
        }
        Err(error)
    }

    fn faults(&self) -> u64 {
        self.faults
    }
}

// The path of the key's file. A key that isn't text is a fault.
fn spell_path(alloc: Global, folder: &str, key: &[u8]) -> Result<String, StoreErr>
    ensures path { IfOk result (λ path. string_bytes path ≡ path_of folder.now key.now) }
    ensures found { IsErrOf result StoreErr.Missing → ⊥ }
{
    let Ok(key) = str::from_utf8(key) else {
        return Err(StoreErr::Failed);
    };
    match format!(in alloc; "{folder}/{key}") {
        Ok(path) => Ok(path),
        Err(_) => Err(StoreErr::NoMemory),
    }
}

// What an error means where a file is opened.
fn opening_fault(error: &io::Error) -> StoreErr
    ensures missing { error_kind error.now ≡ ErrorKind.NotFound → result ≡ StoreErr.Missing }
    ensures other { error_kind error.now ≢ ErrorKind.NotFound → result ≡ StoreErr.Failed }
{
    match error.kind() {
        ErrorKind::NotFound => StoreErr::Missing,
        _ => StoreErr::Failed,
    }
}

// Makes room for as many bytes as the file has now, if it isn't too large.
fn make_room<F: OpenFile>(file: &F, into: &mut Vec<u8>) -> Result<(), StoreErr>
    ensures same { into.new.items ≡ into.old.items }
    ensures found { IsErrOf result StoreErr.Missing → ⊥ }
{
    let Ok(found) = file.metadata() else {
        return Err(StoreErr::Failed);
    };
    let len = found.len().min(LARGEST_FILE as u64);
    if into.reserve_exact(len as usize).is_err() {
        return Err(StoreErr::NoMemory);
    }
    Ok(())
}

// Appends the bytes of a file, in large pieces, and reads no more than one byte too many. At an error
// some of them may stand there.
fn read<F: Read>(file: &mut F, into: &mut Vec<u8>) -> Result<(), StoreErr>
    requires { into.old.items ≡ [] }
    ensures bytes { Reads (F.remaining file.old) result into.new.items }
    ensures small { OnOk result (length into.new.items ≤ LARGEST_FILE) }
    ensures found { IsErrOf result StoreErr.Missing → ⊥ }
{
    let mut piece = [0; PIECE];
    loop {
        let wanted = PIECE.min(LARGEST_FILE + 1 - into.len());
        let count = match file.read(&mut piece[..wanted]) {
            Ok(0) => return Ok(()),
            Ok(count) => count,
            Err(_) => return Err(StoreErr::Failed),
        };
        if into.extend_from_slice(&piece[..count]).is_err() {
            return Err(StoreErr::NoMemory);
        }
        if into.len() > LARGEST_FILE {
            return Err(StoreErr::TooLarge);
        }
    }
}
