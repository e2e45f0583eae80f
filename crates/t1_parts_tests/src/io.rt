//! Whole inputs and pieces over sources and sinks that fail, and over readers and writers of std.
use std::io::{self, ErrorKind, Read, Write};
use std::test::Fail;
use t1_io::{
    CalmSink, CalmSource, Failed, MemSink, MemSource, ReadError, StdSink, StdSource, read_all,
    write_all,
};

const TEXT: &[u8] = b"abcdefgh";

#[test]
fn reads_all_or_says_why_not(rt: HostRuntime) -> Result<(), Fail> {
    let failed = Some(ReadError::Failed);
    let too_long = Some(ReadError::TooLong);
    // The piece, the call that fails, the most bytes, and the error.
    let table = [
        (3, 0, 8, None),
        (3, 1, 8, failed),
        (3, 2, 8, failed),
        (3, 4, 8, failed),
        (3, 5, 8, None),
        (1, 0, 8, None),
        (1, 0, 7, too_long),
        (100, 0, 8, None),
        (100, 0, 7, too_long),
        (100, 0, 0, too_long),
    ];
    for (piece, call, most, error) in table {
        assert!(rt; piece > 0);
        let bytes = Vec::from_slice(rt.alloc(), TEXT)?;
        let fails = Vec::from_slice(rt.alloc(), &[call])?;
        let mut source = MemSource::new(bytes, piece, fails);
        let found = match read_all(rt.alloc(), &mut source, most) {
            Ok(all) => {
                assert_eq!(rt; all.as_slice(), TEXT);
                None
            }
            Err(found) => Some(found),
        };
        assert_eq!(rt;
            found,
            error,
            "pieces of {piece}, call {call}, at most {most}"
        );
    }
    Ok(())
}

#[test]
fn writes_all_or_a_front(rt: HostRuntime) -> Result<(), Fail> {
    // The room, the piece, the call that fails, the answer, and the bytes that are held.
    let table: [(usize, usize, u32, Result<(), Failed>, &[u8]); 7] = [
        (8, 1, 0, Ok(()), b"abcdefgh"),
        (8, 1, 1, Err(Failed), b""),
        (8, 1, 3, Err(Failed), b"ab"),
        (8, 3, 3, Err(Failed), b"abcdef"),
        (8, 3, 4, Ok(()), b"abcdefgh"),
        (8, 100, 2, Ok(()), b"abcdefgh"),
        (5, 3, 0, Ok(()), b"abcde"),
    ];
    for (room, piece, call, answer, held) in table {
        let fails = Vec::from_slice(rt.alloc(), &[call])?;
        let mut sink = MemSink::new(rt.alloc(), room, piece, fails)?;
        let found = write_all(&mut sink, TEXT);
        assert_eq!(rt; found, answer, "pieces of {piece}, call {call}");
        assert_eq!(rt; sink.as_slice(), held, "pieces of {piece}, call {call}");
    }
    Ok(())
}

#[test]
fn calm_ends_take_whole_pieces(rt: HostRuntime) -> Result<(), Fail> {
    let mut source = CalmSource::new(Vec::from_slice(rt.alloc(), TEXT)?);
    let mut sink = CalmSink::new(rt.alloc(), 8)?;
    let all = read_all(rt.alloc(), &mut source, 8)?;
    write_all(&mut sink, all.as_slice())?;
    assert_eq!(rt; sink.as_slice(), TEXT);
    Ok(())
}

#[test]
fn std_streams_pass_bytes_on(rt: HostRuntime) -> Result<(), Fail> {
    let bytes = Vec::from_elem(rt.alloc(), 7, 10_000)?;
    let mut source = StdSource::new(bytes.as_slice());
    let mut written = Vec::new(rt.alloc());
    let all = read_all(rt.alloc(), &mut source, 10_000)?;
    write_all(&mut StdSink::new(&mut written), all.as_slice())?;
    assert_eq!(rt; written, bytes);
    write_all(&mut StdSink::new(rt.stdout()), b"one line\n")?;
    Ok(())
}

/// Answers an error to each read and each flush, and takes any write.
#[derive(Drop)]
struct Broken;

impl Read for Broken {
    fn read(&mut self, _buf: &mut [u8]) -> io::Result<usize> {
        Err(io::Error::from(ErrorKind::Other))
    }
}

impl Write for Broken {
    fn write(&mut self, buf: &[u8]) -> io::Result<usize> {
        Ok(buf.len())
    }

    fn flush(&mut self) -> io::Result<()> {
        Err(io::Error::from(ErrorKind::Other))
    }
}

#[test]
fn std_errors_are_faults(rt: HostRuntime) -> Result<(), Fail> {
    let read = read_all(rt.alloc(), &mut StdSource::new(Broken), 8).err();
    assert_eq!(rt; read, Some(ReadError::Failed));
    let flushed = write_all(&mut StdSink::new(Broken), TEXT);
    assert_eq!(rt; flushed, Err(Failed), "a flush that fails");

    let mut room = [0; 3];
    let full = write_all(&mut StdSink::new(room.as_mut_slice()), TEXT);
    assert_eq!(rt; full, Err(Failed), "a write that takes no byte");
    assert_eq!(rt; room, *b"abc");
    Ok(())
}
