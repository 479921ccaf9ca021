//! Carries out the script of standard input, and writes its log to standard output.
#![tactic(auto)]

use ev_edge::{FolderScreen, FolderStore, InSource, NoScreen, OutSink};
use ev_port::Screen;
use ev_script::{BadWords, Folders, Status, read_folders, run_alone};
use std::alloc::{AllocError, Global};
use std::env;
use std::io::{self, ErrorKind};
use std::process::ExitCode;

fn main(rt: HostRuntime) -> ExitCode {
    let alloc = rt.alloc();
    let status = match env::args(&rt) {
        Ok(args) => match words_of(alloc, args) {
            Ok(words) => run(rt, &words),
            Err(_) => Status::NoMemory,
        },
        Err(error) => without_args(&error),
    };
    if let Some(text) = complaint(status) {
        // Where even this can't be printed, the status is left to tell.
        let _ = eprintln!(rt; "{text}");
    }
    ExitCode::from(number_of(status))
}

// How a run ends whose arguments can't be read: they found no room, or aren't text.
fn without_args(error: &io::Error) -> Status {
    match error.kind() {
        ErrorKind::OutOfMemory => Status::NoMemory,
        _ => Status::Usage,
    }
}

// The arguments behind the program's name.
fn words_of(alloc: Global, args: env::Args) -> Result<Vec<String>, AllocError> {
    args.skip(1).collect(alloc)
}

fn texts(alloc: Global, words: &[String]) -> Result<Vec<&str>, AllocError> {
    words.iter().map(|word| word.as_str()).collect(alloc)
}

// A run with these words.
fn run(rt: HostRuntime, words: &[String]) -> Status {
    let Ok(words) = texts(rt.alloc(), words) else {
        return Status::NoMemory;
    };
    match read_folders(rt.alloc(), &words) {
        Ok(folders) => run_in(rt, &words, folders),
        Err(BadWords::Usage) => Status::Usage,
        Err(BadWords::NoMemory) => Status::NoMemory,
    }
}

// A run over the files of one folder, whose frames go into another, or nowhere.
fn run_in(rt: HostRuntime, words: &[&str], folders: Folders) -> Status {
    let Ok(folder) = store_folder(rt.alloc(), folders.store) else {
        return Status::NoMemory;
    };
    let store = FolderStore::new(rt, rt.alloc(), folder);
    match folders.frames {
        Some(folder) => match FolderScreen::new(rt, rt.alloc(), folder) {
            Ok(screen) => run_over(rt, words, store, screen),
            Err(_) => Status::NoMemory,
        },
        None => run_over(rt, words, store, NoScreen::new()),
    }
}

// Where images and fonts come from: the folder that is named, or else the one where the run was begun.
fn store_folder(alloc: Global, named: Option<String>) -> Result<String, AllocError> {
    match named {
        Some(folder) => Ok(folder),
        None => ".".to_string(alloc),
    }
}

fn run_over<P: Screen + Drop>(
    rt: HostRuntime,
    words: &[&str],
    mut store: FolderStore<HostRuntime>,
    mut screen: P,
) -> Status {
    let mut source = InSource::new(rt.reader());
    let mut sink = OutSink::new(io::writer(&rt));
    run_alone(
        rt.alloc(),
        words,
        &mut source,
        &mut sink,
        &mut store,
        &mut screen,
    )
}

// The exit status of a run.
fn number_of(status: Status) -> u8 {
    match status {
        Status::Ok => 0,
        Status::Usage => 1,
        Status::ReadFault => 3,
        Status::WriteFault => 4,
        Status::NoMemory => 5,
        Status::TooLong => 7,
    }
}

// What the standard error says of a run.
fn complaint(status: Status) -> Option<&'static str> {
    match status {
        Status::Ok => None,
        Status::Usage => Some(
            "usage: evas_script [--workers N] [--buffers N] [--cell N] [--make N] [--store DIR] [--frames DIR]",
        ),
        Status::ReadFault => Some("evas_script: read fault"),
        Status::WriteFault => Some("evas_script: write fault"),
        Status::NoMemory => Some("evas_script: no memory"),
        Status::TooLong => Some("evas_script: script too long"),
    }
}
