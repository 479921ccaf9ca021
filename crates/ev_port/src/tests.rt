// Each object of the outside once, with a fault in mid-stream.
ghost use Rattle.std.specs.Prelude.{◌≡◌};

use super::*;
use ev_argb::{Picture, Pixel};
use ev_geom::Rect;
use std::test::Fail;

fn pull<S: Source>(source: &mut S, buf: &mut [u8]) -> Result<usize, Failed> {
    source.read(buf)
}

fn put<K: Sink>(sink: &mut K, piece: &[u8]) -> Result<(), Failed> {
    sink.write(piece)
}

#[test]
fn a_source_in_memory(rt: HostRuntime) -> Result<(), Fail> {
    let alloc = rt.alloc();
    let mut source = MemSource::new(b"abcdef".to_vec(alloc)?, [2].to_vec(alloc)?);
    let mut buf = [0; 4];
    assert_eq!(rt; pull(&mut source, &mut buf), Ok(4));
    assert_eq!(rt; buf.as_slice(), b"abcd".as_slice());
    assert_eq!(rt; pull(&mut source, &mut buf), Err(Failed));
    assert_eq!(rt; (source.taken(), source.faults()), (4, 1));
    assert_eq!(rt; pull(&mut source, &mut buf), Ok(2));
    assert_eq!(rt; buf.as_slice(), b"efcd".as_slice());
    assert_eq!(rt; pull(&mut source, &mut buf), Ok(0));
    assert_eq!(rt; (source.taken(), source.faults()), (6, 1));
    Ok(())
}

#[test]
fn a_sink_in_memory(rt: HostRuntime) -> Result<(), Fail> {
    let alloc = rt.alloc();
    let mut sink = MemSink::new(alloc, 5, [2].to_vec(alloc)?)?;
    assert_eq!(rt; put(&mut sink, b"ab"), Ok(()));
    assert_eq!(rt; put(&mut sink, b"cd"), Err(Failed));
    assert_eq!(rt; put(&mut sink, b"cdef"), Err(Failed));
    assert_eq!(rt; put(&mut sink, b"cde"), Ok(()));
    assert_eq!(rt; sink.written(), b"abcde".as_slice());
    assert_eq!(rt; sink.faults(), 2);
    Ok(())
}

#[test]
fn a_store_in_memory(rt: HostRuntime) -> Result<(), Fail> {
    let alloc = rt.alloc();
    let mut files = Vec::new(alloc);
    for (key, bytes) in [(b"k", b"one"), (b"k", b"two")] {
        files.push(StoredFile {
            key: Bytes::new(key.to_vec(alloc)?),
            bytes: Bytes::new(bytes.to_vec(alloc)?),
        })?;
    }
    let mut store = MemStore::new(files, [2].to_vec(alloc)?);
    let mut into = Vec::new(alloc);
    assert_eq!(rt; store.fetch(b"k", &mut into), Ok(()));
    assert_eq!(rt; into.as_slice(), b"one".as_slice());
    let mut into = Vec::new(alloc);
    assert_eq!(rt; store.fetch(b"k", &mut into), Err(StoreErr::Failed));
    assert_eq!(rt; store.faults(), 1);
    let mut into = Vec::new(alloc);
    assert_eq!(rt; store.fetch(b"kk", &mut into), Err(StoreErr::Missing));
    Ok(())
}

#[test]
fn a_screen_in_memory(rt: HostRuntime) -> Result<(), Fail> {
    let alloc = rt.alloc();
    let red = Pixel::new(255, 255, 0, 0);
    let mut wide = Picture::new(alloc, 2, 1)?;
    wide.set(1, 0, red);
    let small = Picture::new(alloc, 1, 1)?;
    let room = ScreenRoom {
        frames: 9,
        updates: 3,
        pixels: 4,
    };
    let mut screen = MemScreen::new(alloc, room, [2].to_vec(alloc)?)?;
    let updates = [Rect::NOWHERE, Rect::NOWHERE];
    assert_eq!(rt; screen.present(7, &updates[..1], &wide), Ok(()));
    assert_eq!(rt; screen.present(8, &updates, &small), Err(Failed));
    assert_eq!(rt; screen.present(9, &updates, &small), Ok(()));
    assert_eq!(rt; screen.present(10, &[], &wide), Err(Failed));
    let frames = [
        ShownFrame {
            n: 7,
            w: 2,
            h: 1,
            updates_at: 0,
            updates: 1,
            pixels_at: 0,
        },
        ShownFrame {
            n: 9,
            w: 1,
            h: 1,
            updates_at: 1,
            updates: 2,
            pixels_at: 2,
        },
    ];
    assert_eq!(rt; screen.shown(), frames.as_slice());
    assert_eq!(rt; screen.updates().len(), 3);
    assert_eq!(rt;
        screen.pixels(),
        [Pixel::CLEAR, red, Pixel::CLEAR].as_slice()
    );
    assert_eq!(rt; screen.faults(), 2);
    Ok(())
}
