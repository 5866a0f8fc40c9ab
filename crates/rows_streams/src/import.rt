//! What an importer makes of a stream, and which bytes it refuses.

use crate::around::importer;
use bd_command::Command;
use bd_stream::{ImportFault, Importer};
use std::alloc::{AllocError, Global};
use std::test::Fail;

/// Whether bytes are a stream, or else at which of them a fault comes.
type Outcome = Result<bool, (usize, ImportFault)>;

/// The stream of a directory with a file `x` of one byte.
const STREAM: &[u8] = &[
    0x42, 0x44, 0x58, 0x31, 0x44, 0, 0, 0, 0, 0x46, 0, 1, 0x78, 0, 0, 0, 0, 0, 1, 0x41, 0x45,
];

/// What it makes at `/e`: each command's first letter, its path, and what it writes from where.
const COMMANDS: &[&str] = &["m/e", "c/e/x", "w/e/x\0\0\0\0A"];

/// Where a stream goes, and what begins none or has a path that is too long, by its last byte:
/// another beginning, no entry, a kind that is none, an entry without the exported path's own, a
/// mode that is none, an entry in a file, a parent that didn't come, an entry that came, a byte
/// after the end, a path of 512 bytes, one that would have 513 where it goes.
const REFUSED: &[(&str, &[u8], ImportFault)] = &[
    ("/e", b"BDX2", ImportFault::BadStream),
    ("/e", b"BDX1E", ImportFault::BadStream),
    ("/e", b"BDX1G", ImportFault::BadStream),
    (
        "/e",
        &[66, 68, 88, 49, 70, 0, 1, 0x78, 0, 0, 0, 0, 0, 0],
        ImportFault::BadStream,
    ),
    (
        "/e",
        &[66, 68, 88, 49, 68, 0, 0, 0x10, 0],
        ImportFault::BadStream,
    ),
    (
        "/e",
        &[
            66, 68, 88, 49, 70, 0, 0, 0, 0, 0, 0, 0, 0, 68, 0, 1, 0x78, 0, 0,
        ],
        ImportFault::BadStream,
    ),
    (
        "/e",
        &[
            66, 68, 88, 49, 68, 0, 0, 0, 0, 68, 0, 3, 0x61, 0x2f, 0x62, 0, 0,
        ],
        ImportFault::BadStream,
    ),
    (
        "/e",
        &[
            66, 68, 88, 49, 68, 0, 0, 0, 0, 68, 0, 1, 0x62, 0, 0, 68, 0, 1, 0x61, 0, 0,
        ],
        ImportFault::BadStream,
    ),
    (
        "/e",
        &[66, 68, 88, 49, 68, 0, 0, 0, 0, 69, 69],
        ImportFault::BadStream,
    ),
    (
        "/e",
        &[66, 68, 88, 49, 68, 0, 0, 0, 0, 68, 2, 0],
        ImportFault::LongPath,
    ),
    (
        "/X/X",
        b"BDX1D\0\0\0\0F\0\x01y\0\0\0\0\0\0F\0\x02yy\0\0\0\0\0\0",
        ImportFault::LongPath,
    ),
];

/// What another byte at a place of `STREAM` does: the fault and the byte that shows it, or else
/// whether it is a stream still. The beginning, the kinds, the lengths of the paths, the name, the
/// modes, the file's length and its byte, the end.
const CHANGED: &[(usize, u8, Outcome)] = &[
    (0, b'C', Err((3, ImportFault::BadStream))),
    (4, b'E', Err((4, ImportFault::BadStream))),
    (4, b'F', Err((12, ImportFault::BadStream))),
    (5, 2, Err((6, ImportFault::LongPath))),
    (7, 0x10, Err((8, ImportFault::BadStream))),
    (9, b'E', Err((10, ImportFault::BadStream))),
    (11, 0, Err((17, ImportFault::BadStream))),
    (11, 2, Err((19, ImportFault::BadStream))),
    (12, b'.', Err((18, ImportFault::BadStream))),
    (12, b'y', Ok(true)),
    (13, 0x10, Err((18, ImportFault::BadStream))),
    (15, 0x40, Err((18, ImportFault::BadStream))),
    (15, 0x3f, Ok(false)),
    (18, 0, Err((19, ImportFault::BadStream))),
    (18, 2, Ok(false)),
    (19, 0, Ok(true)),
    (20, b'F', Ok(false)),
    (20, b'G', Err((20, ImportFault::BadStream))),
];

// A command's first letter, its path, and what it writes from where.
fn shown(alloc: Global, command: &Command) -> Result<Vec<u8>, AllocError> {
    let mut text = Vec::new(alloc);
    match command {
        Command::Mkdir { path } => {
            text.extend_from_slice(b"m")?;
            text.extend_from_slice(path.as_bytes())?;
        }
        Command::Create { path } => {
            text.extend_from_slice(b"c")?;
            text.extend_from_slice(path.as_bytes())?;
        }
        Command::Write { path, off, bytes } => {
            text.extend_from_slice(b"w")?;
            text.extend_from_slice(path.as_bytes())?;
            text.extend_from_slice(&off.to_be_bytes())?;
            text.extend_from_slice(bytes.as_slice())?;
        }
        _ => {}
    }
    Ok(text)
}

/// What is made of a stream that is fed byte by byte, and at which of them a fault comes.
fn fed(
    alloc: Global,
    importer: &mut Importer,
    stream: &[u8],
    made: &mut Vec<Command>,
) -> Option<(usize, ImportFault)> {
    for (at, byte) in stream.iter().enumerate() {
        if let Err(fault) = importer.feed(alloc, &[*byte], made) {
            return Some((at, fault));
        }
    }
    None
}

/// Whether bytes to a path are a stream, or else at which of them a fault comes.
fn outcome(alloc: Global, text: &str, stream: &[u8]) -> Result<Outcome, Fail> {
    let mut importer = importer(alloc, text)?;
    let mut made = Vec::new(alloc);
    Ok(match fed(alloc, &mut importer, stream, &mut made) {
        Some(place) => Err(place),
        None => Ok(importer.whole()),
    })
}

/// What a stream makes at `/e`.
fn imported(alloc: Global, stream: &[u8]) -> Result<Vec<Command>, Fail> {
    let mut importer = importer(alloc, "/e")?;
    let mut made = Vec::new(alloc);
    match fed(alloc, &mut importer, stream, &mut made) {
        Some(_) => Err(Fail::new("refused")),
        None => Ok(made),
    }
}

/// The stream with another byte at a place.
fn changed(alloc: Global, at: usize, byte: u8) -> Result<Vec<u8>, AllocError> {
    let mut stream = Vec::from_slice(alloc, STREAM)?;
    if let Some(place) = stream.get_mut(at) {
        *place = byte;
    }
    Ok(stream)
}

#[test]
fn a_stream_makes_its_subtree(rt: HostRuntime) -> Result<(), Fail> {
    let made = imported(rt.alloc(), STREAM)?;
    assert_eq!(rt; made.len(), COMMANDS.len());
    for (command, want) in made.iter().zip(COMMANDS) {
        let text = shown(rt.alloc(), command)?;
        assert_eq!(rt; text.as_slice(), want.as_bytes(), "{want:?}");
    }
    Ok(())
}

#[test]
fn a_stream_is_whole_at_its_end_alone(rt: HostRuntime) -> Result<(), Fail> {
    for count in 0..=STREAM.len() {
        let found = outcome(rt.alloc(), "/e", &STREAM[..count])?;
        assert_eq!(rt; found, Ok(count == STREAM.len()), "{count} bytes");
    }
    Ok(())
}

#[test]
fn other_bytes_are_refused_at_their_last(rt: HostRuntime) -> Result<(), Fail> {
    for (text, bytes, want) in REFUSED {
        let found = outcome(rt.alloc(), text, bytes)?;
        assert_eq!(rt;
            found,
            Err((bytes.len().saturating_sub(1), *want)),
            "{bytes:?}"
        );
    }
    Ok(())
}

#[test]
fn a_changed_byte_is_refused_where_it_shows(rt: HostRuntime) -> Result<(), Fail> {
    for (at, byte, want) in CHANGED {
        let stream = changed(rt.alloc(), *at, *byte)?;
        assert_eq!(rt;
            outcome(rt.alloc(), "/e", &stream)?,
            *want,
            "{byte} at {at}"
        );
    }
    Ok(())
}
