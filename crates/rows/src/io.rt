use bd_io::{Failed, MemSink, MemSource, Sink, Source, StdSink, StdSource, put_all};
use std::alloc::{AllocError, Global};
use std::io::{self, ErrorKind, Read, Write};
use std::process::Abort;
use std::test::Fail;

// Whether takes in a place of four bytes give this, one after the other.
fn gives<S: Source>(source: &mut S, want: &[Option<usize>]) -> bool {
    for each in want {
        let mut place = [0; 4];
        if source.take(&mut place).ok() != *each {
            return false;
        }
    }
    true
}

/// The bytes that a take gives at most, the takes that fail, and what each take gives up to the end.
const PIECES: &[(usize, [u64; 2], &[Option<usize>])] = &[
    (
        1,
        [9, 9],
        &[Some(1), Some(1), Some(1), Some(1), Some(1), Some(0)],
    ),
    (9, [9, 9], &[Some(4), Some(1), Some(0)]),
    (3, [1, 3], &[None, Some(3), None, Some(2), Some(0)]),
];

// Whether a source of five bytes gives this.
fn is_given(
    alloc: Global,
    piece: usize,
    fail: &[u64],
    want: &[Option<usize>],
) -> Result<bool, AllocError> {
    let mut source = MemSource::new(alloc, b"abcde", piece.max(1), fail)?;
    Ok(gives(&mut &mut source, want))
}

#[test]
fn a_source_gives_pieces_and_fails_where_it_is_told_to(rt: HostRuntime) -> Result<(), Fail> {
    for (piece, fail, want) in PIECES {
        assert!(rt;
            is_given(rt.alloc(), *piece, fail.as_slice(), *want)?,
            "in pieces of {piece}"
        );
    }
    Ok(())
}

/// What is put, and what each put gives.
const PUTS: &[(&str, Result<usize, Failed>)] = &[
    ("abc", Ok(3)),
    ("d", Err(Failed)),
    ("defg", Ok(2)),
    ("", Ok(0)),
    ("f", Err(Failed)),
];

// Puts what fits.
fn put(rt: &impl Abort, sink: &mut MemSink) {
    for (piece, want) in PUTS {
        assert!(rt; sink.put(piece.as_bytes()) == *want, "put of {piece}");
    }
    assert!(rt; sink.bytes() == b"abcde".as_slice());
}

#[test]
fn a_sink_takes_what_fits_and_fails_where_it_is_told_to(rt: HostRuntime) -> Result<(), Fail> {
    let mut sink = MemSink::new(rt.alloc(), 5, &[2])?;
    put(&rt, &mut sink);
    Ok(())
}

// Whether a sink with so much room has this after all is put.
fn has_all(
    alloc: Global,
    room: usize,
    want: Result<(), Failed>,
    bytes: &str,
) -> Result<bool, AllocError> {
    let mut sink = MemSink::new(alloc, room, &[9])?;
    let found = put_all(&mut &mut sink, b"abcdefg");
    Ok(found == want && sink.bytes() == bytes.as_bytes())
}

#[test]
fn put_all_writes_in_pieces_up_to_a_fault(rt: HostRuntime) -> Result<(), Fail> {
    assert!(rt; has_all(rt.alloc(), 7, Ok(()), "abcdefg")?);
    assert!(rt; has_all(rt.alloc(), 5, Err(Failed), "abcde")?);
    Ok(())
}

// A reader and a writer of std that fails at its second call, and takes nothing at its third.
#[derive(Drop)]
struct Flaky {
    calls: u8,
}

impl Flaky {
    fn call(&mut self) -> io::Result<usize> {
        self.calls = self.calls.saturating_add(1);
        match self.calls {
            2 => Err(io::Error::from(ErrorKind::Interrupted)),
            3 => Ok(0),
            _ => Ok(1),
        }
    }
}

impl Read for Flaky {
    fn read(&mut self, buf: &mut [u8]) -> io::Result<usize> {
        let count = self.call()?;
        Ok(count.min(buf.len()))
    }
}

impl Write for Flaky {
    fn write(&mut self, buf: &[u8]) -> io::Result<usize> {
        let count = self.call()?;
        Ok(count.min(buf.len()))
    }

    fn flush(&mut self) -> io::Result<()> {
        Ok(())
    }
}

// Whether one take gives the front of these bytes.
fn is_taken(source: &mut StdSource<&[u8]>) -> bool {
    let mut place = [0; 4];
    source.take(&mut place) == Ok(4) && place.as_slice() == b"abcd".as_slice()
}

#[test]
fn a_reader_of_std_is_a_source(rt: HostRuntime) {
    let mut source = StdSource::new(b"abcdef".as_slice());
    assert!(rt; is_taken(&mut source));
    let mut flaky = Flaky { calls: 0 };
    let mut source = StdSource::new(&mut flaky);
    assert!(rt; gives(&mut source, &[Some(1), None, Some(0)]));
    assert!(rt; source.faults() == 1);
}

// Writes bytes, and has them passed on.
fn put_through<S: Sink>(sink: &mut S, bytes: &[u8]) -> Result<(), Failed> {
    put_all(sink, bytes)?;
    sink.flush()
}

// Writes bytes through a sink over a writer of std.
fn put_into(alloc: Global, into: &mut Vec<u8>, bytes: &[u8]) -> Result<(), Fail> {
    let mut sink = StdSink::new(alloc, into)?;
    Ok(put_through(&mut sink, bytes)?)
}

#[test]
fn a_sink_passes_on_to_a_writer_of_std(rt: HostRuntime) -> Result<(), Fail> {
    let mut bytes = Vec::new(rt.alloc());
    put_into(rt.alloc(), &mut bytes, b"abc")?;
    assert!(rt; bytes.as_slice() == b"abc".as_slice());
    Ok(())
}

#[test]
fn a_writer_of_std_is_a_sink(rt: HostRuntime) -> Result<(), Fail> {
    let mut flaky = Flaky { calls: 0 };
    let mut sink = StdSink::new(rt.alloc(), &mut flaky)?;
    assert_eq!(rt; sink.put(b"ab"), Ok(2));
    assert_eq!(rt; sink.put(b"cd"), Ok(2));
    for (flush, want) in [(1, Err(Failed)), (2, Ok(())), (3, Ok(()))] {
        assert_eq!(rt; sink.flush(), want, "flush {flush}");
    }
    assert_eq!(rt; sink.put(b""), Ok(0));
    assert_eq!(rt; sink.faults(), 1);
    Ok(())
}
