ghost use Rattle.std.specs.Prelude.{◌≡◌, ◌≤◌, length, [], IfOk};
ghost use Rattle.ev_canvas.specs.Canvas.{opened};

use super::*;
use ev_canvas::{Canvas, Setup};
use ev_geom::Rect;
use ev_port::{
    Bytes, MemScreen, MemSink, MemSource, MemStore, Screen, ScreenRoom, Sink, Store, StoredFile,
};
use std::alloc::Global;
use std::process::Abort;
use std::test::Fail;

// Which calls of the outside fail, counted from 1.
#[derive(Clone, Copy)]
struct Failing<'a> {
    reads: &'a [u64],
    writes: &'a [u64],
    fetches: &'a [u64],
    frames: &'a [u64],
}

const NEVER: Failing<'static> = Failing {
    reads: &[],
    writes: &[],
    fetches: &[],
    frames: &[],
};

// One green pixel; the same in the second format; nine blue pixels; and bytes that are no image.
const DOT: &[u8] = b"EVI1\x01\0\0\0\x01\0\0\0\xff\0\xff\0";

const GREY: &[u8] = b"EVI2\x01\x01\0\0\0\x01\0\0\0\x80";

const NINE: &[u8] =
    b"EVI1\x03\0\0\0\x03\0\0\0\xff\0\0\xff\xff\0\0\xff\xff\0\0\xff\xff\0\0\xff\xff\0\0\xff\xff\0\0\xff\xff\0\0\xff\xff\0\0\xff\xff\0\0\xff";

const FILES: [(&[u8], &[u8]); 9] = [
    (b"dot.evi", DOT),
    (b"grey.evi", GREY),
    (b"n.evi", NINE),
    (b"short.evi", b"EVI1\x01\0\0\0\x01\0\0\0\xff\0\xff"),
    (b"long.evi", b"EVI1\x01\0\0\0\x01\0\0\0\xff\0\xff\0\0"),
    (b"premul.evi", b"EVI1\x01\0\0\0\x01\0\0\0\0\x01\0\0"),
    (b"kind.evi", b"EVI2\x02\x01\0\0\0\x01\0\0\0\x80"),
    (b"cut.evi", b"EVI2\x01\x01\0\0\0\x01\0\0\0"),
    (b"wide.evi", b"EVI1\xff\xff\xff\xff\x01\0\0\0"),
];

// A font of one row, whose glyphs are one column wide; the one of `A` is drawn, and no other.
fn font(alloc: Global) -> Result<Vec<u8>, Fail> {
    let mut bytes = vec![in alloc; 0; 480]?;
    bytes[..5].copy_from_slice(b"EVF1\x01");
    bytes[5..100].fill(1);
    bytes[232] = 1;
    Ok(bytes)
}

fn stored(alloc: Global, key: &[u8], bytes: &[u8]) -> Result<StoredFile, Fail> {
    Ok(StoredFile {
        key: Bytes::new(key.to_vec(alloc)?),
        bytes: Bytes::new(bytes.to_vec(alloc)?),
    })
}

fn files(alloc: Global) -> Result<Vec<StoredFile>, Fail> {
    let mut files = Vec::new(alloc);
    for (key, bytes) in FILES {
        files.push(stored(alloc, key, bytes)?)?;
    }
    let font = font(alloc)?;
    files.push(stored(alloc, b"f.evf", &font)?)?;
    Ok(files)
}

// Carries out a script over ample memory and the files above, and compares how it ends and its log.
// Gives how many frames were shown.
fn compare<R: AllocGlobal + Abort>(
    rt: &R,
    words: &[&str],
    script: &[u8],
    failing: &Failing,
    status: Status,
    log: &[u8],
) -> Result<usize, Fail> {
    let files = files(rt.alloc())?;
    compare_over(rt, words, files, script, failing, status, log)
}

// The same over a store with these files.
fn compare_over<R: AllocGlobal + Abort>(
    rt: &R,
    words: &[&str],
    files: Vec<StoredFile>,
    script: &[u8],
    failing: &Failing,
    status: Status,
    log: &[u8],
) -> Result<usize, Fail> {
    let alloc = rt.alloc();
    let room = ScreenRoom {
        frames: 8,
        updates: 8,
        pixels: 16_384,
    };
    let mut source = MemSource::new(script.to_vec(alloc)?, failing.reads.to_vec(alloc)?);
    let mut sink = MemSink::new(alloc, 4096, failing.writes.to_vec(alloc)?)?;
    let mut store = MemStore::new(files, failing.fetches.to_vec(alloc)?);
    let mut screen = MemScreen::new(alloc, room, failing.frames.to_vec(alloc)?)?;
    let ended = run_alone(
        alloc,
        words,
        &mut source,
        &mut sink,
        &mut store,
        &mut screen,
    );
    assert_eq!(rt; ended, status);
    assert_eq!(rt; sink.written(), log);
    Ok(screen.shown().len())
}

const RED: &[u8] = b"size 2 1\nrect r\nresize r 2 1\ncolor r 255 0 0 255\nshow r\nrender\ndump\n";

// Scripts and their logs: a red rectangle; nothing; half red over white, and nearly opaque red over white;
// a copy of nothing; raised and lowered rectangles and their totals; clippers over clippers; a group that is
// moved, hidden and deleted; what ties refuse; an image without pixels; each kind of bad line; refusals.
const LOGS: [(&[u8], &[u8]); 11] = [
    (RED, b"shown 1 2 1 1\nupdate 0 0 2 1\nffff0000 ffff0000\n"),
    (b"", b""),
    (
        b"size 1 1\nrect w\nresize w 1 1\nshow w\nrect r\nresize r 1 1\ncolor r 128 0 0 128\nshow r\nrender\ndump\ncolor r 254 0 0 254\nrender\ndump",
        b"shown 1 1 1 1\nupdate 0 0 1 1\nffff7f7f\nshown 2 1 1 1\nupdate 0 0 1 1\nffff0101\n",
    ),
    (
        b"size 1 1\nrect w\nresize w 1 1\nshow w\nrect r\nresize r 1 1\ncolor r 0 0 0 0\nop r copy\nshow r\nrender\ndump\nhide r\nrender\ndump\n",
        b"shown 1 1 1 1\nupdate 0 0 1 1\n00000000\nshown 2 1 1 1\nupdate 0 0 1 1\nffffffff\n",
    ),
    (
        b"size 2 1\nrect a\nresize a 2 1\ncolor a 255 0 0 255\nshow a\nrect b\nresize b 1 1\ncolor b 0 0 255 255\nshow b\nrender\ndump\nsum\nraise a\nrender\nsum\nabove b a\nrender\ndump\nbelow b a\nlayer b 1\nabove a b\ndelete a\nrender\ndump\n",
        b"shown 1 2 1 1\nupdate 0 0 2 1\nff0000ff ffff0000\nsum 510 255 0 255 1530\nshown 2 2 1 1\nupdate 0 0 2 1\nsum 510 510 0 0 1530\nshown 3 2 1 1\nupdate 0 0 2 1\nff0000ff ffff0000\nrefused layer 21\nshown 4 2 1 1\nupdate 0 0 2 1\nff0000ff 00000000\n",
    ),
    (
        b"size 1 1\nrect o\nresize o 1 1\nshow o\nrect a\nresize a 1 1\ncolor a 128 128 128 128\nshow a\nclip o a\nrender\ndump\nrect b\nresize b 1 1\ncolor b 128 128 128 128\nshow b\nclip a b\nrender\ndump\nrect c\nresize c 1 1\ncolor c 128 128 128 128\nshow c\nclip b c\nrender\ndump\n",
        b"shown 1 1 1 1\nupdate 0 0 1 1\n80808080\nshown 2 1 1 1\nupdate 0 0 1 1\n40404040\nshown 3 1 1 1\nupdate 0 0 1 1\n20202020\n",
    ),
    (
        b"size 3 1\nsmart g\nshow g\nrect a\nresize a 1 1\nshow a\nmember a g\nsmart h\nshow h\nrect b\nmove b 1 0\nresize b 1 1\ncolor b 0 0 0 255\nshow b\nmember b h\nmember h g\nrender\ndump\nmove g 1 0\nrender\ndump\nmove g 1000000 0\nhide h\nrender\ndump\ndelete g\nrender\ndump\nshow b\n",
        b"shown 1 3 1 1\nupdate 0 0 3 1\nffffffff ff000000 00000000\nshown 2 3 1 1\nupdate 0 0 3 1\n00000000 ffffffff ff000000\nrefused range 22\nshown 3 3 1 1\nupdate 0 0 3 1\n00000000 ffffffff 00000000\nshown 4 3 1 1\nupdate 0 0 3 1\n00000000 00000000 00000000\nrefused unknown 29\n",
    ),
    (
        b"rect a\nrect b\nclip a a\nclip a b\nclip b a\nsmart s\nmember a s\nmember s a\nlayer b 1\nabove a b\nrect a\nshow z\nfill a 0 0 1 1\nimage i\nload i\ncancel i\nfree b\ndump\n",
        b"refused itself 3\nrefused cycle 5\nrefused clipping 7\nrefused kind 8\nrefused layer 10\nrefused exists 11\nrefused unknown 12\nrefused kind 13\nrefused nofile 15\nbad word 16\nrefused clipping 17\nrefused none 18\n",
    ),
    (
        b"image i\nresize i 2 1\nshow i\nfill i -1 0 0 1\nfill i -1 0 1 1\nborder i 0 4097 0 0\nborder i 1 0 1 4096\ncenter i off\nfilled i\nfilled j\nfill r 0 0 1 1\nrect r\nborder r 0 0 0 0\ncenter r on\nop i copy\nsize 1 1\nrender\ndump\n",
        b"refused range 4\nrefused range 6\nrefused unknown 10\nrefused unknown 11\nrefused kind 13\nrefused kind 14\nshown 1 1 1 1\nupdate 0 0 1 1\n00000000\n",
    ),
    (
        b"rect r\nmove r 1000001 0\nmove r 1000000 0\nmove r 01 0\nmove r 1\nmvoe r\nshow .r\n\n  \n # hm\nop r melt\n#\xc3\nsay r  \nstats\n",
        b"refused range 2\nbad number 4\nbad count 5\nbad word 6\nbad name 7\nbad word 11\nbad byte 12\nrefused kind 13\nbad word 14\n",
    ),
    (
        b"dump\nsum\nrect r\nrect r\nmove z 0 0\nsize 0 1\nsize 4097 1\nlayer r 32768\nabove r r\nbelow r z\ncolor r 0 0 256 0\nresize r -1 0\n",
        b"refused none 1\nrefused none 2\nrefused exists 4\nrefused unknown 5\nrefused range 6\nrefused range 7\nrefused range 8\nrefused itself 9\nrefused unknown 10\nrefused range 11\nrefused range 12\n",
    ),
];

// Scripts that load: a pixel in a fill beside its object's corner; a border without its centre, also over
// white; each fault of an image; the second format; a font; a store that fails; files and fonts of other
// kinds; and a text that is changed, whose font is dropped by another key.
const LOADS: [(&[u8], &[u8]); 8] = [
    (
        b"size 4 4\nimage i\nresize i 4 4\nfile i dot.evi\nfill i -1 -1 3 3\nborder i 5 5 5 5\ncenter i off\nshow i\nload i\nrender\ndump\n",
        b"preloaded i\nshown 1 4 4 1\nupdate 0 0 4 4\n00000000 00000000 00000000 00000000\n00000000 00000000 00000000 00000000\n00000000 00000000 ff00ff00 00000000\n00000000 00000000 00000000 00000000\n",
    ),
    (
        b"size 4 4\nimage i\nresize i 4 4\nfile i n.evi\nborder i 1 1 1 1\ncenter i off\nshow i\nload i\nrender\ndump\n",
        b"preloaded i\nshown 1 4 4 1\nupdate 0 0 4 4\nff0000ff ff0000ff ff0000ff ff0000ff\nff0000ff 00000000 00000000 ff0000ff\nff0000ff 00000000 00000000 ff0000ff\nff0000ff ff0000ff ff0000ff ff0000ff\n",
    ),
    (
        b"size 4 4\nrect w\nresize w 4 4\nshow w\nimage i\nresize i 4 4\nfile i n.evi\nborder i 1 1 1 1\ncenter i off\nshow i\nload i\nrender\ndump\n",
        b"preloaded i\nshown 1 4 4 1\nupdate 0 0 4 4\nff0000ff ff0000ff ff0000ff ff0000ff\nff0000ff ffffffff ffffffff ff0000ff\nff0000ff ffffffff ffffffff ff0000ff\nff0000ff ff0000ff ff0000ff ff0000ff\n",
    ),
    (
        b"image i\nfile i short.evi\nload i\nfile i long.evi\nload i\nfile i premul.evi\nload i\nfile i far.evi\nload i\nfile i wide.evi\nload i\nfile i grey.evi\nload i\nfile i kind.evi\nload i\nfile i cut.evi\nload i\n",
        b"preload-failed i image short 15\npreload-failed i image long 16\npreload-failed i image premul 12\npreload-failed i missing\npreload-failed i image size 4\npreloaded i\npreload-failed i image kind 4\npreload-failed i image short 13\n",
    ),
    (
        b"size 1 1\nimage i\nresize i 1 1\nshow i\nfile i grey.evi\nload i\nrender\ndump\nfile i dot.evi\nrender\ndump\nload i\nfile z dot.evi\nfont i f.evf\nsay i A\nrender\ndump\n",
        b"preloaded i\nshown 1 1 1 1\nupdate 0 0 1 1\n80808080\nshown 2 1 1 1\nupdate 0 0 1 1\n00000000\npreloaded i\nrefused unknown 13\nrefused kind 14\nrefused kind 15\nshown 3 1 1 1\nupdate 0 0 1 1\nff00ff00\n",
    ),
    (
        b"size 3 1\ntext t\nresize t 3 1\nfont t f.evf\nsay t A A\nshow t\nload t\nrender\ndump\n",
        b"preloaded t\nshown 1 3 1 1\nupdate 0 0 3 1\nffffffff 00000000 ffffffff\n",
    ),
    (
        b"size 2 1\ntext t\nresize t 2 1\nshow t\nload t\nfont t dot.evi\nload t\nfont t f.evf\nload t\nsay t  A\nrender\ndump\nfile t dot.evi\nfill t 0 0 1 1\nsay t\nrender\ndump\nload z\nsmart s\nload s\n",
        b"refused nofile 5\npreload-failed t font magic 0\npreloaded t\nshown 1 2 1 1\nupdate 0 0 2 1\n00000000 ffffffff\nrefused kind 13\nrefused kind 14\nshown 2 2 1 1\nupdate 0 0 2 1\n00000000 00000000\nrefused unknown 18\nrefused kind 20\n",
    ),
    (
        b"size 1 1\ntext t\nresize t 1 1\nshow t\nfont t f.evf\nload t\nsay t A\nfont t f.evf\nrender\ndump\nload t\nrender\ndump\n",
        b"preloaded t\nshown 1 1 1 1\nupdate 0 0 1 1\n00000000\npreloaded t\nshown 2 1 1 1\nupdate 0 0 1 1\nffffffff\n",
    ),
];

// Frames that update what changed: an object that appears over four cells, and in the last cell; one that
// moves, and that doesn't; areas that are hidden, cleared and damaged; and what is refused.
const UPDATES: [(&[u8], &[u8]); 5] = [
    (
        b"size 20 20\nrender\nrect r\nmove r 7 7\nresize r 2 2\nshow r\nrender\n",
        b"shown 1 20 20 1\nupdate 0 0 20 20\nshown 2 20 20 1\nupdate 0 0 16 16\n",
    ),
    (
        b"size 20 20\nrender\nrect r\nmove r 18 18\nresize r 1 1\nshow r\nrender\n",
        b"shown 1 20 20 1\nupdate 0 0 20 20\nshown 2 20 20 1\nupdate 16 16 4 4\n",
    ),
    (
        b"size 20 20\nrect r\nresize r 2 2\nshow r\nrender\nmove r 10 10\nrender\nmove r 0 0\nrender\nrender\nsum\n",
        b"shown 1 20 20 1\nupdate 0 0 20 20\nshown 2 20 20 2\nupdate 0 0 8 8\nupdate 8 8 8 8\nshown 3 20 20 2\nupdate 0 0 8 8\nupdate 8 8 8 8\nshown 4 20 20 0\nsum 1020 1020 1020 1020 46920\n",
    ),
    (
        b"size 4 1\nrect r\nresize r 4 1\nshow r\nhide-area 1 0 2 1\nrender\ndump\nsum\nclear-areas\nrender\ndump\n",
        b"shown 1 4 1 2\nupdate 0 0 1 1\nupdate 3 0 1 1\nffffffff -------- -------- ffffffff\nsum 510 510 510 510 5100\nshown 2 4 1 1\nupdate 1 0 2 1\nffffffff ffffffff ffffffff ffffffff\n",
    ),
    (
        b"size 16 8\nhide-area 4 0 4 8\nrender\nrender\ndamage 0 0 1 1\nrender\nhide-area 0 0 -1 1\ndamage 0 0 1000001 0\n",
        b"shown 1 16 8 2\nupdate 0 0 4 8\nupdate 8 0 8 8\nshown 2 16 8 0\nshown 3 16 8 1\nupdate 0 0 4 8\nrefused range 7\nrefused range 8\n",
    ),
];

#[test]
fn logs_of_updates(rt: HostRuntime) -> Result<(), Fail> {
    for (script, log) in UPDATES {
        compare(&rt, &[], script, &NEVER, Status::Ok, log)?;
    }
    Ok(())
}

// Two equal records that change their order, in cells of one pixel.
#[test]
fn log_of_small_cells(rt: HostRuntime) -> Result<(), Fail> {
    let script: &[u8] =
        b"size 16 8\nrect a\nresize a 4 4\ncolor a 255 0 0 255\nshow a\nrect b\nmove b 2 2\nresize b 4 4\ncolor b 0 0 255 255\nshow b\nrender\nraise a\nrender\n";
    let log: &[u8] = b"shown 1 16 8 1\nupdate 0 0 16 8\nshown 2 16 8 1\nupdate 2 2 2 2\n";
    compare(&rt, &["--cell", "1"], script, &NEVER, Status::Ok, log)?;
    Ok(())
}

// The outside of a test: the files above, room for two frames, and nothing that fails.
#[derive(Drop)]
struct Rig {
    sink: MemSink,
    store: MemStore,
    screen: MemScreen,
}

fn new_rig(alloc: Global) -> Result<Rig, Fail> {
    let room = ScreenRoom {
        frames: 2,
        updates: 2,
        pixels: 800,
    };
    Ok(Rig {
        sink: MemSink::new(alloc, 99, Vec::new(alloc))?,
        store: MemStore::new(files(alloc)?, Vec::new(alloc)),
        screen: MemScreen::new(alloc, room, Vec::new(alloc))?,
    })
}

// A new canvas with cells of 4 by 4.
fn small_cells(alloc: Global) -> Result<Canvas, Fail>
    ensures { IfOk result (λ canvas. canvas ≡ opened canvas.setup) }
{
    let setup = Setup {
        buffers: 1,
        cell: 4,
    };
    Ok(Canvas::create(alloc, setup)?)
}

// Carries out a script, and takes all events.
fn play<K: Sink, T: Store, P: Screen>(
    alloc: Global,
    canvas: &mut Canvas,
    script: &[u8],
    sink: &mut K,
    store: &mut T,
    screen: &mut P,
) -> Played
    requires opening { canvas.old ≡ opened canvas.old.setup }
    requires short { length script.now ≤ 16777216 }
    ensures { canvas.new.events ≡ [] }
{
    play_alone(alloc, canvas, script, sink, store, screen)
}

// The canvas of a script that is carried out on a new one, with cells of 4 by 4.
fn canvas_of(alloc: Global, script: &[u8], rig: &mut Rig) -> Result<Canvas, Fail>
    requires { length script.now ≤ 16777216 }
    ensures { IfOk result (λ canvas. canvas.events ≡ []) }
{
    let mut canvas = small_cells(alloc)?;
    let (sink, store, screen) = (&mut rig.sink, &mut rig.store, &mut rig.screen);
    match play(alloc, &mut canvas, script, sink, store, screen) {
        Played::Ok => Ok(canvas),
        Played::WriteFault => Err(Fail::new("a fault of the sink")),
    }
}

const TWO_FRAMES: &[u8] =
    b"size 20 20\nrect r\nresize r 2 2\nrender\nmove r 7 7\nshow r\nrender\nload r\nrect r\n";

const TWO_FRAMES_LOG: &[u8] =
    b"shown 1 20 20 1\nupdate 0 0 20 20\nshown 2 20 20 1\nupdate 4 4 8 8\nrefused kind 8\nrefused exists 9\n";

// A canvas has the frames and the updates of the lines that were played on it.
#[test]
fn frames_of_a_script(rt: HostRuntime) -> Result<(), Fail> {
    let mut rig = new_rig(rt.alloc())?;
    let canvas = canvas_of(rt.alloc(), TWO_FRAMES, &mut rig)?;
    assert_eq!(rt; rig.sink.written(), TWO_FRAMES_LOG);
    assert_eq!(rt; canvas.frames(), 2);
    assert_eq!(rt; canvas.updates().first().copied(), Rect::new(4, 4, 8, 8));
    Ok(())
}

#[test]
fn logs_of_loads(rt: HostRuntime) -> Result<(), Fail> {
    for (script, log) in LOADS {
        compare(&rt, &[], script, &NEVER, Status::Ok, log)?;
    }
    Ok(())
}

// A store fails at its second call, and in that load alone.
#[test]
fn failing_store(rt: HostRuntime) -> Result<(), Fail> {
    let failing = Failing {
        fetches: &[2],
        ..NEVER
    };
    compare(
        &rt,
        &[],
        b"image i\nfile i dot.evi\nload i\nload i\nload i\n",
        &failing,
        Status::Ok,
        b"preloaded i\npreload-failed i store\npreloaded i\n",
    )?;
    Ok(())
}

// A file of one byte more than any that is read.
#[test]
fn large_file(rt: HostRuntime) -> Result<(), Fail> {
    let alloc = rt.alloc();
    let bytes = vec![in alloc; 0; 67_108_878]?;
    let mut files = Vec::new(alloc);
    files.push(StoredFile {
        key: Bytes::new(b"i".to_vec(alloc)?),
        bytes: Bytes::new(bytes),
    })?;
    let script = b"image i\nfile i i\nload i\n";
    let log = b"preload-failed i large\n";
    compare_over(&rt, &[], files, script, &NEVER, Status::Ok, log)?;
    Ok(())
}

#[test]
fn logs_of_scripts(rt: HostRuntime) -> Result<(), Fail> {
    for (script, log) in LOGS {
        compare(&rt, &[], script, &NEVER, Status::Ok, log)?;
    }
    Ok(())
}

// The screen fails at its first call, and that frame is lost.
#[test]
fn failing_screen(rt: HostRuntime) -> Result<(), Fail> {
    let failing = Failing {
        frames: &[1],
        ..NEVER
    };
    let script: &[u8] = b"size 4 4\nrender\nrender\n";
    let log: &[u8] = b"lost 1\nshown 2 4 4 1\nupdate 0 0 4 4\n";
    let shown = compare(&rt, &[], script, &failing, Status::Ok, log)?;
    assert_eq!(&rt; shown, 1);
    Ok(())
}

// The source fails at its first call, and nothing is carried out.
#[test]
fn failing_source(rt: HostRuntime) -> Result<(), Fail> {
    let failing = Failing {
        reads: &[1],
        ..NEVER
    };
    compare(&rt, &[], RED, &failing, Status::ReadFault, b"")?;
    Ok(())
}

// The sink fails at its second call, within the replies to a line that is carried out all the same.
#[test]
fn failing_sink(rt: HostRuntime) -> Result<(), Fail> {
    let failing = Failing {
        writes: &[2],
        ..NEVER
    };
    let script: &[u8] = b"size 1 1\nrender\ndump\n";
    let log: &[u8] = b"shown 1 1 1 1\n";
    let shown = compare(&rt, &[], script, &failing, Status::WriteFault, log)?;
    assert_eq!(&rt; shown, 1);
    Ok(())
}

#[test]
fn words(rt: HostRuntime) -> Result<(), Fail> {
    let log: &[u8] = b"shown 1 2 1 1\nupdate 0 0 2 1\nffff0000 ffff0000\n";
    compare(&rt, &["--workers", "0"], RED, &NEVER, Status::Ok, log)?;
    Ok(())
}

#[test]
fn refused_words(rt: HostRuntime) -> Result<(), Fail> {
    let refused: [&[&str]; 3] = [&["--cell", "3"], &["--workers", "17"], &["--speed", "1"]];
    for words in refused {
        compare(&rt, words, RED, &NEVER, Status::Usage, b"")?;
    }
    Ok(())
}

// Carries out a script of so many spaces.
fn compare_spaces<R: AllocGlobal + Abort>(
    rt: &R,
    count: usize,
    status: Status,
    log: &[u8],
) -> Result<usize, Fail> {
    let script = vec![in rt.alloc(); b' '; count]?;
    compare(rt, &[], &script, &NEVER, status, log)
}

#[test]
fn long_scripts(rt: HostRuntime) -> Result<(), Fail> {
    compare_spaces(&rt, 1 << 24, Status::Ok, b"bad long 1\n")?;
    compare_spaces(&rt, (1 << 24) + 1, Status::TooLong, b"")?;
    Ok(())
}

// The line that makes rectangle number n.
fn push_rect(script: &mut Vec<u8>, n: u32) -> Result<(), Fail> {
    script.extend_from_slice(b"rect r")?;
    for place in [10_000, 1_000, 100, 10, 1] {
        script.push(b'0' + (n / place % 10) as u8)?;
    }
    script.push(b'\n')?;
    Ok(())
}

#[test]
fn many_objects(rt: HostRuntime) -> Result<(), Fail> {
    let mut script = Vec::new(rt.alloc());
    for n in 0..65_537_u32 {
        push_rect(&mut script, n)?;
    }
    let log: &[u8] = b"refused full 65537\n";
    compare(&rt, &[], &script, &NEVER, Status::Ok, log)?;
    Ok(())
}

// Adds to a script the front of a line, the name of number n, which is a letter and four digits, and the rest.
fn push_line(
    script: &mut Vec<u8>,
    command: &[u8],
    letter: u8,
    n: u32,
    rest: &[u8],
) -> Result<(), Fail> {
    script.extend_from_slice(command)?;
    push_name(script, letter, n)?;
    script.extend_from_slice(rest)?;
    Ok(())
}

fn push_name(script: &mut Vec<u8>, letter: u8, n: u32) -> Result<(), Fail> {
    let digits = [n / 1000 % 10, n / 100 % 10, n / 10 % 10, n % 10];
    script.push(letter)?;
    for digit in digits {
        script.push(b'0' + (digit % 10) as u8)?;
    }
    Ok(())
}

// The lines that make object number n and tie the one before it to it.
fn push_link(
    script: &mut Vec<u8>,
    make: &[u8],
    tie: &[u8],
    letter: u8,
    n: u32,
) -> Result<(), Fail> {
    push_line(script, make, letter, n, b"\n")?;
    push_line(script, b"resize ", letter, n, b" 1 1\n")?;
    push_line(script, b"show ", letter, n, b"\n")?;
    if n > 0 {
        push_line(script, tie, letter, n - 1, b" ")?;
        push_name(script, letter, n)?;
        script.push(b'\n')?;
    }
    Ok(())
}

// A script of 4,000 objects, each tied to the next, and some last lines.
fn ways_up(
    alloc: Global,
    make: &[u8],
    tie: &[u8],
    letter: u8,
    last: &[u8],
) -> Result<Vec<u8>, Fail> {
    let mut script = b"size 2 1\n".to_vec(alloc)?;
    for n in 0..4000 {
        push_link(&mut script, make, tie, letter, n)?;
    }
    script.extend_from_slice(last)?;
    script.extend_from_slice(b"render\ndump\n")?;
    Ok(script)
}

const FIRST_OF_TWO: &[u8] = b"shown 1 2 1 1\nupdate 0 0 2 1\nffffffff 00000000\n";

// 4,000 rectangles, each clipped by the next.
#[test]
fn long_way_of_clippers(rt: HostRuntime) -> Result<(), Fail> {
    let script = ways_up(rt.alloc(), b"rect ", b"clip ", b'r', b"")?;
    compare(&rt, &[], &script, &NEVER, Status::Ok, FIRST_OF_TWO)?;
    Ok(())
}

// 4,000 smart objects, each in the next, with a rectangle in the first.
#[test]
fn long_way_of_members(rt: HostRuntime) -> Result<(), Fail> {
    let last: &[u8] = b"rect r\nresize r 1 1\nshow r\nmember r s0000\n";
    let script = ways_up(rt.alloc(), b"smart ", b"member ", b's', last)?;
    compare(&rt, &[], &script, &NEVER, Status::Ok, FIRST_OF_TWO)?;
    Ok(())
}

const PANEL: &[u8] =
    b"size 120 100\nimage panel\nresize panel 120 100\nborder panel 4 4 4 4\nfile panel n.evi\nshow panel\nload panel\nsmart list\nshow list\nrect area\nmove area 10 10\nresize area 100 80\nshow area\nclip list area\n";

// A panel, and a list of ten lines of text that a rectangle clips.
fn interface(alloc: Global) -> Result<Vec<u8>, Fail> {
    let mut script = PANEL.to_vec(alloc)?;
    for k in 0..10_u8 {
        push_text(&mut script, b'0' + k)?;
    }
    script.extend_from_slice(b"render\n")?;
    Ok(script)
}

// Its log.
fn interface_log(alloc: Global) -> Result<Vec<u8>, Fail> {
    let mut log = b"preloaded panel\n".to_vec(alloc)?;
    for k in 0..10_u8 {
        log.extend_from_slice(b"preloaded t")?;
        log.push(b'0' + k)?;
        log.push(b'\n')?;
    }
    log.extend_from_slice(b"shown 1 120 100 1\nupdate 0 0 120 100\n")?;
    Ok(log)
}

#[test]
fn small_interface(rt: HostRuntime) -> Result<(), Fail> {
    let script = interface(rt.alloc())?;
    let log = interface_log(rt.alloc())?;
    compare(&rt, &[], &script, &NEVER, Status::Ok, &log)?;
    Ok(())
}

// How many pixels the text of this digit stands below the top.
fn push_height(script: &mut Vec<u8>, digit: u8) -> Result<(), Fail> {
    let heights: [&[u8]; 10] = [
        b"10", b"20", b"30", b"40", b"50", b"60", b"70", b"80", b"90", b"100",
    ];
    script.extend_from_slice(heights[usize::from(digit % 48 % 10)])?;
    Ok(())
}

// The lines of the text of this digit.
fn push_text(script: &mut Vec<u8>, digit: u8) -> Result<(), Fail> {
    let lines: [(&[u8], &[u8]); 8] = [
        (b"text t", b""),
        (b"move t", b" 12 "),
        (b"resize t", b" 96 10"),
        (b"font t", b" f.evf"),
        (b"say t", b" Item "),
        (b"member t", b" list"),
        (b"show t", b""),
        (b"load t", b""),
    ];
    for (front, back) in lines {
        script.extend_from_slice(front)?;
        script.push(digit)?;
        script.extend_from_slice(back)?;
        if back == b" Item ".as_slice() {
            script.push(digit)?;
        }
        if back == b" 12 ".as_slice() {
            push_height(script, digit)?;
        }
        script.push(b'\n')?;
    }
    Ok(())
}
