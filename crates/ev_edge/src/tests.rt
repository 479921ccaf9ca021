// Each object over the system once, with a fault in mid-stream.
ghost use Rattle.std.specs.Prelude.{◌≡◌};

use super::*;
use ev_argb::{Picture, Pixel};
use ev_port::{Failed, LARGEST_FILE, Screen, Sink, Source, Store, StoreErr};
use std::fs::{self, File};
use std::io::{self, Error, ErrorKind, Read, Write};
use std::test::Fail;

// A reader and a writer of one byte a call, whose second call fails.
#[derive(Drop)]
struct Faulty {
    calls: u8,
}

impl Faulty {
    fn is_broken(&mut self) -> bool {
        self.calls = self.calls.saturating_add(1);
        self.calls == 2
    }
}

impl Read for Faulty {
    fn read(&mut self, buf: &mut [u8]) -> io::Result<usize> {
        if self.is_broken() {
            return Err(Error::from(ErrorKind::Other));
        }
        if buf.is_empty() {
            return Ok(0);
        }
        buf[0] = b'x';
        Ok(1)
    }
}

impl Write for Faulty {
    fn write(&mut self, buf: &[u8]) -> io::Result<usize> {
        if self.is_broken() {
            return Err(Error::from(ErrorKind::Other));
        }
        Ok(buf.len().min(1))
    }

    fn flush(&mut self) -> io::Result<()> {
        Ok(())
    }
}

fn pull<S: Source>(source: &mut S, buf: &mut [u8]) -> Result<usize, Failed> {
    source.read(buf)
}

fn put<K: Sink>(sink: &mut K, piece: &[u8]) -> Result<(), Failed> {
    sink.write(piece)
}

#[test]
fn a_source_over_a_reader(rt: HostRuntime) -> Result<(), Fail> {
    let mut buf = [0; 4];
    let mut source = InSource::new(b"abcdef".as_slice());
    assert_eq!(rt; pull(&mut source, &mut buf), Ok(4));
    assert_eq!(rt; buf.as_slice(), b"abcd".as_slice());
    assert_eq!(rt; (source.taken(), source.faults()), (4, 0));
    let mut source = InSource::new(Faulty { calls: 0 });
    assert_eq!(rt; pull(&mut source, &mut buf), Ok(1));
    assert_eq!(rt; pull(&mut source, &mut buf), Err(Failed));
    assert_eq!(rt; pull(&mut source, &mut buf), Ok(1));
    assert_eq!(rt; (source.taken(), source.faults()), (2, 1));
    Ok(())
}

#[test]
fn a_sink_over_a_writer(rt: HostRuntime) -> Result<(), Fail> {
    let mut room = [0; 4];
    let mut sink = OutSink::new(room.as_mut_slice());
    assert_eq!(rt; put(&mut sink, b"ab"), Ok(()));
    assert_eq!(rt; put(&mut sink, b"c"), Ok(()));
    assert_eq!(rt; sink.faults(), 0);
    assert_eq!(rt; room.as_slice(), b"abc\0".as_slice());
    let mut sink = OutSink::new(Faulty { calls: 0 });
    assert_eq!(rt; put(&mut sink, b"ab"), Err(Failed));
    assert_eq!(rt; put(&mut sink, b"ab"), Ok(()));
    assert_eq!(rt; sink.faults(), 1);
    Ok(())
}

#[test]
fn a_screen_that_keeps_nothing(rt: HostRuntime) -> Result<(), Fail> {
    let mut screen = NoScreen::new();
    let picture = Picture::new(rt.alloc(), 1, 1)?;
    assert_eq!(rt; screen.present(1, &[], &picture), Ok(()));
    assert_eq!(rt; screen.faults(), 0);
    Ok(())
}

#[test]
fn a_store_over_a_folder(rt: HostRuntime) -> Result<(), Fail> {
    let alloc = rt.alloc();
    let folder = "store_of_a_test";
    fs::create_dir_all(&rt, "store_of_a_test/inner")?;
    fs::write(&rt, "store_of_a_test/k", b"one")?;
    File::create(&rt, "store_of_a_test/large")?.set_len(LARGEST_FILE as u64 + 1)?;
    let mut store = FolderStore::new(rt, alloc, folder.to_string(alloc)?);
    let mut into = Vec::new(alloc);
    assert_eq!(rt; store.fetch(b"none", &mut into), Err(StoreErr::Missing));
    assert_eq!(rt; store.fetch(b"large", &mut into), Err(StoreErr::TooLarge));
    assert_eq!(rt; store.faults(), 0);
    assert_eq!(rt; store.fetch(b"inner", &mut into), Err(StoreErr::Failed));
    assert_eq!(rt; store.faults(), 1);
    assert_eq!(rt; store.fetch(b"k", &mut into), Ok(()));
    assert_eq!(rt; into.as_slice(), b"one".as_slice());
    fs::remove_dir_all(&rt, folder)?;
    Ok(())
}

#[test]
fn a_screen_over_a_folder(rt: HostRuntime) -> Result<(), Fail> {
    let alloc = rt.alloc();
    let folder = "screen_of_a_test";
    let mut screen = FolderScreen::new(rt, alloc, folder.to_string(alloc)?)?;
    let mut picture = Picture::new(alloc, 2, 1)?;
    picture.set(1, 0, Pixel::new(255, 128, 3, 0));
    assert_eq!(rt; screen.present(10, &[], &picture), Err(Failed));
    assert_eq!(rt; screen.faults(), 1);
    fs::create_dir_all(&rt, folder)?;
    fs::write(&rt, "screen_of_a_test/frame-10.evi", [7; 99])?;
    assert_eq!(rt; screen.present(10, &[], &picture), Ok(()));
    let bytes = fs::read(&rt, "screen_of_a_test/frame-10.evi")?;
    assert_eq!(rt;
        bytes.as_slice(),
        b"EVI1\x02\0\0\0\x01\0\0\0\0\0\0\0\xff\x80\x03\0".as_slice()
    );
    fs::remove_dir_all(&rt, folder)?;
    Ok(())
}
