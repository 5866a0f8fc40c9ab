//! Bytes that are no stream, and commands that are refused.

use crate::images::outcome;
use bd_command::Refusal;
use bd_transfer::ImportEnd;
use std::test::Fail;

/// The stream of a directory with a file `x` of one byte.
pub const STREAM: &[u8] = b"BDX1D\0\0\0\0F\0\x01x\0\0\0\0\0\x01AE";

/// Lines, where the stream goes to, and how its import ends.
const REFUSED: &[(&str, &str, ImportEnd)] = &[
    ("create /e\n", "/e", ImportEnd::Refused(Refusal::Exists)),
    ("mkdir /e\n", "/e", ImportEnd::Refused(Refusal::Exists)),
    ("", "/a/e", ImportEnd::Refused(Refusal::NoParent)),
    ("", "/", ImportEnd::Refused(Refusal::Exists)),
    ("mkdir /X\nmkdir /X/X\n", "/X/X/e", ImportEnd::LongPath),
];

#[test]
fn a_stream_cut_short_is_none(rt: HostRuntime) -> Result<(), Fail> {
    for count in 0..STREAM.len() {
        let found = outcome(rt.alloc(), "", "/e", &STREAM[..count])?;
        assert_eq!(rt; found, Ok(ImportEnd::BadStream), "{count} bytes");
    }
    Ok(())
}

#[test]
fn no_byte_follows_a_stream(rt: HostRuntime) -> Result<(), Fail> {
    let mut stream = Vec::from_slice(rt.alloc(), STREAM)?;
    stream.push(b'E')?;
    let found = outcome(rt.alloc(), "", "/e", &stream)?;
    assert_eq!(rt; found, Ok(ImportEnd::BadStream));
    Ok(())
}

#[test]
fn a_refusal_ends_an_import(rt: HostRuntime) -> Result<(), Fail> {
    for (lines, text, end) in REFUSED {
        let found = outcome(rt.alloc(), lines, text, STREAM)?;
        assert_eq!(rt; found, Ok(*end), "{lines}{text}");
    }
    Ok(())
}
