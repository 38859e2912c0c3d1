use crate::{
    CalmFiles, Files, FilesFailed, Gate, MemFiles, MemSink, NamedBytes, OpenGate, ReadRefused,
    Sink, SinkFailed, StdFiles, StdSink, read_all, write_all,
};
use plain_data::{Many, NoMemory, Word};
use std::alloc::Global;

/// The files `a`, of five bytes, `b`, of none, and a second `a` that is never found.
fn shelf(alloc: Global) -> Result<Many<NamedBytes>, NoMemory> {
    let mut files = Many::new(alloc);
    for (name, bytes) in [("a", "first"), ("b", ""), ("a", "second")] {
        files.push(NamedBytes {
            name: Word::of(alloc, name)?,
            bytes: Many::from_slice(alloc, bytes.as_bytes())?,
        })?;
    }
    Ok(files)
}

#[test]
fn reads_the_first_of_equal_names(rt: HostRuntime) -> Result<(), NoMemory> {
    let alloc = rt.alloc();
    let mut files = CalmFiles::new(shelf(alloc)?);
    for (name, limit, want) in [
        ("a", 5, Ok("first")),
        ("a", 4, Err(ReadRefused::TooLarge)),
        ("b", 0, Ok("")),
        ("c", 5, Err(ReadRefused::Missing)),
    ] {
        let got = read_all(alloc, &mut files, name, limit);
        match (got, want) {
            (Ok(bytes), Ok(text)) => assert_eq!(rt; bytes.as_slice(), text.as_bytes()),
            (Err(got), Err(want)) => assert_eq!(rt; got, want),
            _ => panic!(rt; "{name} at {limit}"),
        }
    }
    Ok(())
}

#[test]
fn finds_nothing_after_a_failed_call(rt: HostRuntime) -> Result<(), NoMemory> {
    let alloc = rt.alloc();
    for failing in [1, 2, 3] {
        let mut files = MemFiles::new(shelf(alloc)?, Many::from_slice(alloc, &[failing])?);
        let got = read_all(alloc, &mut files, "a", 9);
        assert!(rt; matches!(got, Err(ReadRefused::Fault)), "call {failing}");
        let mut buf = [0; 4];
        assert_eq!(rt; files.read(&mut buf), Ok(0), "after call {failing}");
        assert_eq!(rt; files.find("a"), Ok(true));
    }
    let mut files = MemFiles::new(shelf(alloc)?, Many::from_slice(alloc, &[4])?);
    let got = read_all(alloc, &mut files, "a", 9);
    assert!(rt; got.is_ok());
    assert_eq!(rt; files.find("a"), Err(FilesFailed));
    Ok(())
}

#[test]
fn keeps_what_was_taken_before_a_failed_call(rt: HostRuntime) -> Result<(), NoMemory> {
    let alloc = rt.alloc();
    let mut sink = MemSink::new(alloc, 20, Many::from_slice(alloc, &[2])?, 7)?;
    assert_eq!(rt; write_all(&mut sink, b"0123456789"), Err(SinkFailed));
    assert_eq!(rt; sink.bytes(), b"0123456".as_slice());
    assert_eq!(rt; write_all(&mut sink, b"789abcdefghij"), Ok(()));
    assert_eq!(rt; sink.bytes(), b"0123456789abcdefghij".as_slice());
    assert_eq!(rt; sink.write(b""), Ok(0));
    assert_eq!(rt; sink.write(b"k"), Err(SinkFailed));
    Ok(())
}

#[test]
fn reads_no_missing_file_and_no_directory(rt: HostRuntime) {
    let mut files = StdFiles::new(&rt);
    let missing = read_all(rt.alloc(), &mut files, "no/such/file", 9);
    assert!(rt; matches!(missing, Err(ReadRefused::Missing)));
    let directory = read_all(rt.alloc(), &mut files, "/", 9);
    assert!(rt; matches!(directory, Err(ReadRefused::Fault)));
}

#[test]
fn passes_an_open_gate_and_a_stream(rt: HostRuntime) {
    OpenGate.enter(0);
    let mut sink = StdSink::new(std::io::sink());
    assert_eq!(rt; write_all(&mut sink, b"text"), Ok(()));
    OpenGate.leave(0);
}
