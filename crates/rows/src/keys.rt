use bd_keys::{Bytes, Range, after, clip, lift, overwritten, resized, translate};
use std::alloc::{AllocError, Global};
use std::test::Fail;

#[test]
fn bytes_are_kept(rt: HostRuntime) -> Result<(), Fail> {
    let bytes = Bytes::from_slice(rt.alloc(), b"ab")?;
    assert_eq!(rt; bytes.into_vec()?.as_slice(), b"ab".as_slice());
    Ok(())
}

/// Bytes, an offset, bytes written there; what a cut to the offset leaves, and what the write
/// leaves.
const EDITS: &[(&str, u16, &str, &str, &str)] = &[
    ("abcd", 1, "XY", "a", "aXYd"),
    ("abcd", 3, "XY", "abc", "abcXY"),
    ("a", 3, "X", "a\0\0", "a\0\0X"),
    ("", 0, "X", "", "X"),
];

// Whether a cut leaves this.
fn is_cut(alloc: Global, old: &str, off: u16, want: &str) -> Result<bool, AllocError> {
    let found = resized(alloc, old.as_bytes(), usize::from(off))?;
    Ok(found.as_slice() == want.as_bytes())
}

// Whether a write leaves this.
fn is_written(
    alloc: Global,
    old: &str,
    off: u16,
    new: &str,
    want: &str,
) -> Result<bool, AllocError> {
    let found = overwritten(alloc, old.as_bytes(), usize::from(off), new.as_bytes())?;
    Ok(found.as_slice() == want.as_bytes())
}

#[test]
fn edits_of_bytes(rt: HostRuntime) -> Result<(), Fail> {
    for (old, off, new, cut, written) in EDITS {
        assert!(rt; is_cut(rt.alloc(), old, *off, cut)?, "{old} cut at {off}");
        assert!(rt;
            is_written(rt.alloc(), old, *off, new, written)?,
            "{old} with {new} at {off}"
        );
    }
    Ok(())
}

/// Where a range begins, where it ends, and the bytes that its keys have in common.
const LIFTS: &[(&[u8], Option<&[u8]>, usize)] = &[
    (&[0x61, 0x62], Some(&[0x62]), 1),
    (&[0x61, 0xff], Some(&[0x62]), 2),
    (&[0x73, 0x00], Some(&[0x73, 0x01]), 2),
    (&[], None, 0),
    (&[0x61, 0x62], Some(&[0x61, 0x64]), 1),
    (&[0xff, 0x61], None, 1),
];

#[test]
fn lifts_of_ranges(rt: HostRuntime) {
    for (lo, hi, length) in LIFTS {
        assert_eq!(rt; lift(*lo, *hi), *length, "from {lo:?} to {hi:?}");
    }
}

/// A prefix, and the least key above all that begin with it.
const AFTER: &[(&[u8], Option<&[u8]>)] = &[
    (&[0x73, 0x00], Some(&[0x73, 0x01])),
    (&[0x61, 0xff], Some(&[0x62])),
    (&[0xff], None),
    (&[], None),
];

// Whether this key is after a prefix.
fn is_after(alloc: Global, prefix: &[u8], want: Option<&[u8]>) -> Result<bool, AllocError> {
    let found = after(alloc, prefix)?;
    Ok(found.as_ref().map(|found| found.as_slice()) == want)
}

#[test]
fn keys_after_prefixes(rt: HostRuntime) -> Result<(), Fail> {
    for (prefix, want) in AFTER {
        assert!(rt; is_after(rt.alloc(), *prefix, *want)?, "after {prefix:?}");
    }
    Ok(())
}

#[test]
fn a_key_is_moved_to_another_prefix(rt: HostRuntime) -> Result<(), Fail> {
    let moved = translate(rt.alloc(), b"abc", 2, b"xy")?;
    assert!(rt; moved.as_slice() == b"xyc".as_slice());
    Ok(())
}

// Where a range begins, and where it ends.
type Ends = (&'static str, Option<&'static str>);

fn range(alloc: Global, (lo, hi): Ends) -> Result<Range, AllocError> {
    let hi = end(alloc, hi)?;
    let lo = Bytes::from_slice(alloc, lo.as_bytes())?;
    Ok(Range { lo, hi })
}

// Where a range ends, if it does.
fn end(alloc: Global, hi: Option<&str>) -> Result<Option<Bytes>, AllocError> {
    match hi {
        Some(hi) => Ok(Some(Bytes::from_slice(alloc, hi.as_bytes())?)),
        None => Ok(None),
    }
}

// Whether a range is this one, or there is none.
fn is_range(alloc: Global, found: &Option<Range>, want: Option<Ends>) -> Result<bool, AllocError> {
    match (found, want) {
        (Some(found), Some(want)) => Ok(*found == range(alloc, want)?),
        (None, None) => Ok(true),
        _ => Ok(false),
    }
}

// What a range has in common with another one.
fn common(alloc: Global, a: &Range, b: Ends) -> Result<Option<Range>, AllocError> {
    let b = range(alloc, b)?;
    clip(a, &b)
}

// Whether two ranges have this range in common.
fn is_common(alloc: Global, a: Ends, b: Ends, want: Option<Ends>) -> Result<bool, AllocError> {
    let a = range(alloc, a)?;
    let found = common(alloc, &a, b)?;
    is_range(alloc, &found, want)
}

/// Two ranges, and what they have in common.
const RANGES: &[(Ends, Ends, Option<Ends>)] = &[
    (("a", Some("c")), ("b", None), Some(("b", Some("c")))),
    (("a", Some("c")), ("c", None), None),
    (("b", Some("d")), ("a", Some("c")), Some(("b", Some("c")))),
];

#[test]
fn ranges_in_common(rt: HostRuntime) -> Result<(), Fail> {
    for (a, b, want) in RANGES {
        assert!(rt; is_common(rt.alloc(), *a, *b, *want)?, "{a:?} and {b:?}");
    }
    Ok(())
}
