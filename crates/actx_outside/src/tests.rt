use super::*;
use std::fs;
use std::test::Fail;

#[test]
fn a_file_of_the_system(rt: HostRuntime) -> Result<(), Fail> {
    let alloc = rt.alloc();
    fs::write(&rt, "five", "abcde")?;
    let mut shelf = FileShelf::new(alloc, &rt);
    for (most, want) in [
        (9, b"abcde".as_slice()),
        (5, b"abcde".as_slice()),
        (4, b"abcde".as_slice()),
        (2, b"abc".as_slice()),
        (0, b"a".as_slice()),
    ] {
        let bytes = shelf
            .fetch(alloc, "five", most)
            .ok()
            .ok_or("the file is there")?;
        assert_eq!(rt; bytes.as_slice(), want);
    }
    assert!(rt; matches!(shelf.fetch(alloc, "six", 5), Err(ShelfError::Failed)));
    assert!(rt;
        matches!(shelf.fetch(alloc, ".", 5), Err(ShelfError::Failed)),
        "a folder"
    );
    Ok(())
}

#[test]
fn a_stream_of_the_system(rt: HostRuntime) {
    let mut sink = StdSink::new(rt.stdout());
    assert!(rt; matches!(sink.write(b"out\n"), Ok(1..=4)));
}

#[test]
fn the_clock_stands_at_its_end(rt: HostRuntime) {
    let mut tape = ClockTape::new();
    assert!(rt; matches!(tape.turn(rt.alloc(), Some(1)), Err(TapeStop::End)));
}

#[test]
fn files_in_memory(rt: HostRuntime) -> Result<(), Fail> {
    let alloc = rt.alloc();
    let mut files = Vec::new(alloc);
    for contents in [b"one".as_slice(), b"two".as_slice()] {
        files.push((
            String::from_str(alloc, "a")?,
            Vec::from_slice(alloc, contents)?,
        ))?;
    }
    let mut shelf = ListShelf::new(alloc, files, vec![in alloc; 2]?);
    let bytes = shelf.fetch(alloc, "a", 1).ok().ok_or("call 0")?;
    assert_eq!(rt; bytes.as_slice(), b"on".as_slice());
    assert!(rt;
        matches!(shelf.fetch(alloc, "b", 1), Err(ShelfError::Failed)),
        "a name that it lacks"
    );
    assert!(rt;
        matches!(shelf.fetch(alloc, "a", 1), Err(ShelfError::Failed)),
        "a call that is to fail"
    );
    let bytes = shelf.fetch(alloc, "a", 9).ok().ok_or("call 3")?;
    assert_eq!(rt; bytes.as_slice(), b"one".as_slice());
    Ok(())
}

#[test]
fn a_stream_into_memory(rt: HostRuntime) -> Result<(), Fail> {
    let mut sink = MemSink::new(rt.alloc(), 2, vec![in rt.alloc(); 1]?);
    assert_eq!(rt; sink.write(b"abc"), Ok(2));
    assert_eq!(rt; sink.write(b"c"), Err(SinkFault));
    assert_eq!(rt; sink.write(b"c"), Ok(1));
    assert_eq!(rt; sink.as_slice(), b"abc".as_slice());
    Ok(())
}

#[test]
fn numbers_are_kept(rt: HostRuntime) -> Result<(), Fail> {
    let numbers = Numbers::new(vec![in rt.alloc(); 2, 9, 1]?);
    assert_eq!(rt; numbers.as_slice(), [2, 9, 1].as_slice());
    Ok(())
}
