use bd_names::{Name, Path};
use std::alloc::{AllocError, Global};
use std::test::Fail;

// Whether these bytes are a name.
fn is_name(alloc: Global, bytes: &[u8]) -> Result<bool, Fail> {
    let name = Name::read(alloc, bytes)?;
    Ok(name.as_bytes() == bytes)
}

#[test]
fn a_name_is_read(rt: HostRuntime) -> Result<(), Fail> {
    assert!(rt; is_name(rt.alloc(), b"b")?);
    assert!(rt; Name::read(rt.alloc(), b"b/c").is_err());
    Ok(())
}

// No line of a script has these words.
#[test]
fn texts_of_no_path(rt: HostRuntime) {
    for text in ["", "/a b"] {
        assert!(rt;
            Path::read(rt.alloc(), text.as_bytes()).is_err(),
            "path {text:?}"
        );
    }
}

// Whether this is the key of a path.
fn has_key(alloc: Global, path: &Path, key: &str) -> Result<bool, AllocError> {
    let found = path.key(alloc)?;
    Ok(found.as_slice() == key.as_bytes())
}

// Whether a path has so many names.
fn has_names(alloc: Global, path: &Path, count: usize) -> Result<bool, AllocError> {
    let found = path.names(alloc)?;
    Ok(found.len() == count)
}

// Whether this is the parent of a path.
fn has_parent(alloc: Global, path: &Path, parent: Option<&str>) -> Result<bool, AllocError> {
    let found = path.parent(alloc)?;
    Ok(found.as_ref().map(|found| found.as_bytes()) == parent.map(|parent| parent.as_bytes()))
}

/// A path, its key, how many names it has, and its parent.
type Row = (&'static str, &'static str, usize, Option<&'static str>);

const PATHS: &[Row] = &[
    ("/", "", 0, None),
    ("/a", "a\0", 1, Some("/")),
    ("/a/bc", "a\0bc\0", 2, Some("/a")),
];

// Whether a path gives what a row says.
fn gives(alloc: Global, path: &Path, (_, key, count, parent): &Row) -> Result<bool, AllocError> {
    Ok(
        has_key(alloc, path, key)?
            && has_names(alloc, path, *count)?
            && has_parent(alloc, path, *parent)?,
    )
}

// Whether a row holds.
fn holds(alloc: Global, row: &Row) -> Result<bool, Fail> {
    let path = Path::read(alloc, row.0.as_bytes())?;
    Ok(gives(alloc, &path, row)?)
}

#[test]
fn what_a_path_gives(rt: HostRuntime) -> Result<(), Fail> {
    for row in PATHS {
        assert!(rt; holds(rt.alloc(), row)?, "{}", row.0);
    }
    Ok(())
}
