// Lines and replies, each kind once.
use super::*;
use ev_argb::Pixel;
use ev_geom::Rect;
use ev_model::{BadLine, Command, Edit, Name, Refusal, Reply};
use ev_port::MemSink;
use std::test::Fail;

// Why a line is bad.
fn fault_of(line: &[u8]) -> Option<BadLine> {
    match read_line(line) {
        Line::Bad(fault) => Some(fault),
        _ => None,
    }
}

#[test]
fn lines_are_read_by_the_first_rule_that_they_break(rt: HostRuntime) -> Result<(), Fail> {
    let table = [
        (b"# \x7f".as_slice(), BadLine::Byte),
        (b"Move o 1 2".as_slice(), BadLine::Word),
        (b"move -o 01".as_slice(), BadLine::Count),
        (b"move -o 01 2".as_slice(), BadLine::Name),
        (b"move o 01 2".as_slice(), BadLine::Number),
        (b"size 12345678901 1".as_slice(), BadLine::Number),
        (b"op o blen".as_slice(), BadLine::Word),
        (b"say".as_slice(), BadLine::Count),
    ];
    for (line, fault) in &table {
        assert_eq!(rt; fault_of(line), Some(*fault));
    }
    assert_eq!(rt; fault_of(&[b' '; 1025]), Some(BadLine::Long));
    assert_eq!(rt; fault_of(&[b' '; 1024]), None);
    Ok(())
}

// The command of a line.
fn command_of(line: &[u8]) -> Option<Command<'_>> {
    match read_line(line) {
        Line::Command(command) => Some(command),
        _ => None,
    }
}

// Where a line moves an object.
fn place_of(line: &[u8]) -> Option<(i64, i64)> {
    match command_of(line) {
        Some(Command::Edit(Edit::Move { x, y, .. })) => Some((x, y)),
        _ => None,
    }
}

// The text that a line sets.
fn text_of(line: &[u8]) -> Option<&[u8]> {
    match command_of(line) {
        Some(Command::Edit(Edit::Say { text, .. })) => Some(text),
        _ => None,
    }
}

#[test]
fn lines_are_commands(rt: HostRuntime) -> Result<(), Fail> {
    let place = place_of(b"  move  o 1234567890 -2 ");
    assert_eq!(rt; place, Some((1_234_567_890, -2)));
    assert_eq!(rt; text_of(b"say o  a b "), Some(b" a b ".as_slice()));
    assert!(rt; command_of(b" # wait").is_none());
    Ok(())
}

#[test]
fn replies_are_written_a_line_a_call(rt: HostRuntime) -> Result<(), Fail> {
    let alloc = rt.alloc();
    let mut sink = MemSink::new(alloc, 200, [5].to_vec(alloc)?)?;
    let name = Name::read(b"i").expect(&rt, "a name");
    let red = Pixel::new(255, 255, 0, 0);
    let updates = [Rect::at_origin(2, 1), Rect::at_origin(1, 1)];
    let pending = Reply::Pending {
        n: 1,
        done: 0,
        tiles: 20,
    };
    let refused = Reply::Refused {
        cause: Refusal::NoFrame,
        line: 18,
    };
    let shown = Reply::Shown {
        n: 1,
        w: 2,
        h: 1,
        updates: &updates,
    };
    assert!(rt; write_reply(&mut sink, &pending).is_ok());
    assert!(rt; write_reply(&mut sink, &Reply::Served { name }).is_ok());
    assert!(rt; write_reply(&mut sink, &refused).is_ok());
    assert!(rt; write_reply(&mut sink, &shown).is_err());
    assert!(rt;
        write_reply(
            &mut sink,
            &Reply::DumpRow {
                pixels: &[Some(red), None]
            }
        )
        .is_ok()
    );
    let log = b"pending 1 0 20\nserved i\nrefused none 18\nshown 1 2 1 2\nffff0000 --------\n";
    assert!(rt; sink.written() == log.as_slice());
    Ok(())
}
