use crate::{
    Failed, Files, MemoryFiles, MemorySink, ReadEnd, ReadFault, Sink, read_all, write_all,
};
use std::alloc::{AllocError, Global};
use std::test::Fail;

fn sixteen_letters(alloc: Global, failing: &[u64]) -> Result<MemoryFiles, AllocError> {
    let mut files = Vec::new(alloc);
    files.push((
        String::from_str(alloc, "letters")?,
        b"abcdefghijklmnop".to_vec(alloc)?,
    ))?;
    files.push((String::from_str(alloc, "none")?, Vec::new(alloc)))?;
    Ok(MemoryFiles::new(files, failing.to_vec(alloc)?))
}

#[test]
fn files_are_read_whole_or_with_the_cause(rt: HostRuntime) -> Result<(), Fail> {
    let alloc = rt.alloc();
    let letters = b"abcdefghijklmnop".as_slice();
    for (name, failing, limit, want) in [
        ("letters", [0].as_slice(), 17, Ok(letters)),
        ("letters", [0].as_slice(), 16, Ok(letters)),
        ("letters", [0].as_slice(), 15, Err(ReadEnd::TooLong)),
        ("letters", [1].as_slice(), 16, Err(ReadEnd::Read)),
        ("letters", [2, 2].as_slice(), 16, Err(ReadEnd::Read)),
        ("letters", [3].as_slice(), 16, Ok(letters)),
        ("none", [0].as_slice(), 0, Ok(b"".as_slice())),
        ("letter", [0].as_slice(), 16, Err(ReadEnd::Read)),
    ] {
        let mut files = sixteen_letters(alloc, failing)?;
        let got = read_all(alloc, &mut files, name, limit);
        match (&got, want) {
            (Ok(bytes), Ok(wanted)) => assert_eq!(rt; bytes.as_slice(), wanted, "{name}"),
            (Err(end), Err(wanted)) => assert_eq!(rt; *end, wanted, "{name}"),
            _ => assert!(rt; false, "{name} of at most {limit}"),
        }
    }
    Ok(())
}

#[test]
fn files_in_memory_are_read_by_place(rt: HostRuntime) -> Result<(), Fail> {
    let mut files = sixteen_letters(rt.alloc(), &[3])?;
    let mut piece = [0u8; 5];
    for (name, at, want) in [
        ("letters", 0, Ok(5)),
        ("letters", 13, Ok(3)),
        ("letters", 0, Err(ReadFault::Failed)),
        ("missing", 0, Err(ReadFault::Failed)),
        ("letters", 16, Ok(0)),
        ("letters", 99, Ok(0)),
    ] {
        assert_eq!(rt; files.read(name, at, &mut piece), want, "{name} at {at}");
    }
    assert_eq!(rt; &piece, b"nopde");
    Ok(())
}

#[test]
fn texts_are_written_whole_or_up_to_the_fault(rt: HostRuntime) -> Result<(), Fail> {
    let alloc = rt.alloc();
    for (room, failing, want, written) in [
        (9, 0, Ok(()), b"abcd".as_slice()),
        (4, 0, Ok(()), b"abcd".as_slice()),
        (3, 0, Err(Failed), b"abc".as_slice()),
        (0, 0, Err(Failed), b"".as_slice()),
        (9, 1, Err(Failed), b"".as_slice()),
        (3, 2, Err(Failed), b"abc".as_slice()),
        (9, 2, Ok(()), b"abcd".as_slice()),
    ] {
        let mut sink = MemorySink::new(alloc, room, [failing].to_vec(alloc)?)?;
        assert_eq!(rt; write_all(&mut sink, b"abcd"), want, "room {room}");
        assert_eq!(rt; sink.written(), written, "room {room}");
    }
    let mut sink = MemorySink::new(alloc, 2, [2].to_vec(alloc)?)?;
    for (piece, want) in [
        (b"ab".as_slice(), Ok(2)),
        (b"".as_slice(), Err(Failed)),
        (b"".as_slice(), Ok(0)),
        (b"c".as_slice(), Err(Failed)),
    ] {
        assert_eq!(rt; sink.write(piece), want);
    }
    Ok(())
}
