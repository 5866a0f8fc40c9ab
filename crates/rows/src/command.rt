ghost use Rattle.bd_command.specs.Command.{IsCommand};

use bd_command::{Command, MAX_RECORD};
use bd_script::{Line, read_line};
use bd_wire::{Cursor, Out};
use std::alloc::{AllocError, Global};
use std::test::Fail;

/// Commands and their log records.
const RECORDS: &[(&str, &[u8])] = &[
    ("mkdir /a", &[0, 5, 1, 0, 2, 0x2f, 0x61]),
    ("create /a", &[0, 5, 2, 0, 2, 0x2f, 0x61]),
    (
        "write /a 258 78797a",
        &[
            0, 14, 3, 0, 2, 0x2f, 0x61, 0, 0, 1, 2, 0, 3, 0x78, 0x79, 0x7a,
        ],
    ),
    ("truncate /a 3", &[0, 9, 4, 0, 2, 0x2f, 0x61, 0, 0, 0, 3]),
    ("remove /a", &[0, 5, 5, 0, 2, 0x2f, 0x61]),
    (
        "rename /a /b",
        &[0, 9, 6, 0, 2, 0x2f, 0x61, 0, 2, 0x2f, 0x62],
    ),
    (
        "clone /a /b",
        &[0, 9, 7, 0, 2, 0x2f, 0x61, 0, 2, 0x2f, 0x62],
    ),
    ("chmod /f 0644", &[0, 7, 8, 0, 2, 0x2f, 0x66, 0x01, 0xa4]),
];

/// What is no log record: too short, of no command, with a byte more, with a path that is none, of
/// a write without bytes, of a mode that is none.
const NONE: &[&[u8]] = &[
    &[],
    &[0],
    &[0, 0],
    &[0, 5, 1, 0, 2, 0x2f],
    &[0, 5, 0, 0, 2, 0x2f, 0x61],
    &[0, 5, 9, 0, 2, 0x2f, 0x61],
    &[0, 5, 8, 0, 2, 0x2f, 0x61],
    &[0, 6, 8, 0, 2, 0x2f, 0x61, 0],
    &[0, 7, 8, 0, 2, 0x2f, 0x61, 0x10, 0],
    &[0, 6, 1, 0, 2, 0x2f, 0x61, 0],
    &[0, 4, 1, 0, 2, 0x2f, 0x61],
    &[0, 3, 1, 0, 0],
    &[0, 4, 1, 0, 1, 0x61],
    &[0, 6, 1, 0, 3, 0x2f, 0x61, 0x2f],
    &[0, 5, 6, 0, 2, 0x2f, 0x61],
    &[0, 11, 3, 0, 2, 0x2f, 0x61, 0, 0, 0, 0, 0, 0],
    &[0, 8, 4, 0, 2, 0x2f, 0x61, 0, 0, 0],
];

// The log record of a line's command.
fn record(alloc: Global, line: &[u8]) -> Result<Vec<u8>, Fail> {
    match read_line(alloc, line)? {
        Line::Run(command) => written(alloc, &command),
        Line::Walk | Line::Df | Line::Sync | Line::Checkpoint | Line::Reclaim | Line::Stop => Err(
            Fail::new("no command"),
        ),
    }
}

// The log record of a command that writes.
fn written(alloc: Global, command: &Command) -> Result<Vec<u8>, Fail>
    requires { IsCommand command.now }
{
    let mut array = [0u8; MAX_RECORD];
    let size = put(command, &mut array);
    if size > array.len() {
        return Err(Fail::new("no log record"));
    }
    Ok(Vec::from_slice(alloc, &array[..size])?)
}

// Writes the log record of a command at the front, and says how long it is.
fn put(command: &Command, array: &mut [u8; MAX_RECORD]) -> usize
    requires { IsCommand command.now }
{
    if !command.writes() {
        return usize::MAX;
    }
    let size = command.log_size();
    if size <= array.len() {
        command.log_write(&mut Out::new(&mut array[..size]));
    }
    size
}

// Reads a log record at the front of bytes, and says how many bytes are left.
fn read_again(alloc: Global, bytes: &[u8]) -> Result<Option<usize>, AllocError> {
    let mut cursor = Cursor::new(bytes);
    Ok(match Command::log_read(alloc, &mut cursor)? {
        Some(_) => Some(cursor.left().len()),
        None => None,
    })
}

// Whether a line's command has this log record.
fn has_record(alloc: Global, line: &str, want: &[u8]) -> Result<bool, Fail> {
    let bytes = record(alloc, line.as_bytes())?;
    Ok(bytes.as_slice() == want)
}

#[test]
fn commands_have_these_records(rt: HostRuntime) -> Result<(), Fail> {
    for (line, want) in RECORDS {
        assert!(rt; has_record(rt.alloc(), line, *want)?, "{line}");
    }
    Ok(())
}

// Whether a log record is read again, and the byte after it is left.
fn is_read_again(alloc: Global, record: &[u8]) -> Result<bool, AllocError> {
    let mut bytes = Vec::from_slice(alloc, record)?;
    bytes.push(1)?;
    Ok(read_again(alloc, &bytes)? == Some(1))
}

#[test]
fn records_are_read_again(rt: HostRuntime) -> Result<(), Fail> {
    for (line, record) in RECORDS {
        assert!(rt; is_read_again(rt.alloc(), *record)?, "{line}");
    }
    Ok(())
}

#[test]
fn other_bytes_are_no_record(rt: HostRuntime) -> Result<(), Fail> {
    for bytes in NONE {
        assert_eq!(rt; read_again(rt.alloc(), bytes)?, None, "{bytes:?}");
    }
    Ok(())
}

/// How long the longest line of a command is: `write`, a path of two names of 255 bytes, 0, and
/// 2,048 bytes in hex.
const LONGEST: usize = 4617;

// Writes the longest line.
fn put_longest(line: &mut [u8; LONGEST]) {
    line[..6].copy_from_slice(b"write ");
    line[6] = b'/';
    line[262] = b'/';
    line[518] = b' ';
    line[520] = b' ';
}

// Whether this is a log record of 2,571 bytes, which is read again.
fn is_longest(alloc: Global, bytes: &[u8]) -> Result<bool, AllocError> {
    let is_long = bytes.len() == 2571 && bytes.starts_with(&[10, 9, 3, 2, 0]);
    Ok(is_long && read_again(alloc, bytes)? == Some(0))
}

// Whether the longest line has the longest log record.
fn has_longest(alloc: Global, line: &[u8]) -> Result<bool, Fail> {
    let bytes = record(alloc, line)?;
    Ok(is_longest(alloc, &bytes)?)
}

#[test]
fn the_longest_record_has_2571_bytes(rt: HostRuntime) -> Result<(), Fail> {
    let mut line = [b'0'; LONGEST];
    put_longest(&mut line);
    assert!(rt; has_longest(rt.alloc(), &line)?);
    assert_eq!(rt; MAX_RECORD, 2571);
    Ok(())
}
