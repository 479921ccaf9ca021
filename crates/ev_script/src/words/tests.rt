// Words that are taken, and words that aren't.
use super::*;
use std::test::Fail;

#[test]
fn words_are_read(rt: HostRuntime) -> Result<(), Fail> {
    let usual = Options {
        workers: 2,
        buffers: 2,
        cell: 8,
    };
    assert_eq!(rt; read_words(&[]), Ok(usual));
    let given = Options {
        workers: 16,
        buffers: 2,
        cell: 64,
    };
    let words = ["--cell", "64", "--store", "", "--workers", "16"];
    assert_eq!(rt; read_words(&words), Ok(given));
    let folders = read_folders(rt.alloc(), &["--frames", "out"])?;
    assert!(rt; folders.store.is_none());
    assert_eq!(rt; folders.frames.as_deref(), Some("out"));
    Ok(())
}

#[test]
fn other_words_are_refused(rt: HostRuntime) -> Result<(), Fail> {
    let refused: [&[&str]; 8] = [
        &["--cell", "3"],
        &["--workers", "17"],
        &["--speed", "1"],
        &["--workers", "02"],
        &["--workers", "+2"],
        &["--store"],
        &["--store", "-"],
        &["--frames", "a", "--frames", "a"],
    ];
    for words in refused {
        assert_eq!(rt; read_words(words), Err(BadWords::Usage));
    }
    Ok(())
}
