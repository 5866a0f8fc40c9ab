use bd_message::{KeyMap, ListMap};
use bd_recall::{Recalled, Recalling};
use rows_tools::{apply, message, words};
use std::alloc::Global;
use std::process::Abort;
use std::test::Fail;

// Whether this is looked up at a key.
fn is_at(map: &mut Recalling<ListMap>, key: &str, want: Option<&str>) -> Result<bool, Fail> {
    let found = map.get(key.as_bytes())?;
    Ok(found.as_ref().map(|found| found.as_slice()) == want.map(|want| want.as_bytes()))
}

// Whether a call gives this, on a map with what was looked up in it, or on the map below.
fn gives(
    alloc: Global,
    map: &mut Recalling<ListMap>,
    (name, text, want): &Call,
) -> Result<bool, Fail> {
    match *name {
        "get" => return is_at(map, text, *want),
        "follow" => map.recalled.follow(&[message(alloc, text)?]),
        "below" => apply(&mut map.map, message(alloc, text)?)?,
        "by" => apply(map, message(alloc, text)?)?,
        _ => forget(map, *name == "clone", text),
    }
    Ok(true)
}

// Forgets what a clone changes, or a rename.
fn forget(map: &mut Recalling<ListMap>, keep: bool, text: &str) {
    let (from, to, _) = words(text);
    map.recalled
        .forget_grafted(from.as_bytes(), to.as_bytes(), keep);
}

/// A call: on the map, on the map below or on what was looked up; its message, key or prefixes; and
/// what `get` gives.
type Call = (&'static str, &'static str, Option<&'static str>);

/// Calls. What is changed below is seen where nothing is kept.
const CALLS: &[Call] = &[
    ("below", "put a 1", None),
    ("get", "a", Some("1")),
    ("below", "put a 2", None),
    ("get", "a", Some("1")),
    ("get", "b", None),
    ("below", "put b 3", None),
    ("get", "b", None),
    // What a message leaves is kept.
    ("follow", "put a 4", None),
    ("get", "a", Some("4")),
    ("follow", "del a", None),
    ("get", "a", None),
    // What isn't known is asked for.
    ("follow", "patch b xy", None),
    ("get", "b", Some("3")),
    (
        "follow",
        "put a 00000000001111111111222222222233333333334444444444555555555566666",
        None,
    ),
    ("get", "a", Some("2")),
    ("follow", "put c 5", None),
    ("follow", "cut c d", None),
    ("get", "c", None),
    // A change through the map is followed.
    ("by", "put c 6", None),
    ("get", "c", Some("6")),
    ("below", "put c 7", None),
    ("get", "c", Some("6")),
    // A graft changes what begins with its prefixes.
    ("follow", "put d 1", None),
    ("follow", "put d/x 2", None),
    ("follow", "put d/y 3", None),
    ("follow", "put d0 4", None),
    ("follow", "put s/x 5", None),
    ("follow", "put s0 6", None),
    ("below", "put d/x 7", None),
    ("clone", "s/ d/", None),
    ("get", "d", Some("1")),
    ("get", "d/x", Some("7")),
    ("get", "d/y", None),
    ("get", "d0", Some("4")),
    ("get", "s/x", Some("5")),
    ("get", "s0", Some("6")),
    ("below", "put d/y 8", None),
    ("rename", "s/ d/", None),
    ("get", "d", Some("1")),
    ("get", "d/x", Some("7")),
    ("get", "d/y", Some("8")),
    ("get", "d0", Some("4")),
    ("get", "s/x", None),
    ("get", "s0", Some("6")),
];

// Makes the calls.
fn call_all(rt: &impl Abort, alloc: Global, map: &mut Recalling<ListMap>) -> Result<(), Fail> {
    for call in CALLS {
        let (name, text, _) = call;
        assert!(rt; gives(alloc, map, call)?, "{name} {text}");
    }
    Ok(())
}

#[test]
fn what_was_looked_up_is_recalled(rt: HostRuntime) -> Result<(), Fail> {
    let mut map = Recalling {
        map: ListMap::new(rt.alloc()),
        recalled: Recalled::new(rt.alloc()),
    };
    call_all(&rt, rt.alloc(), &mut map)
}
