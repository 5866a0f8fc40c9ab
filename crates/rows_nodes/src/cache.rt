//! Which nodes a cache keeps.

use bd_cache::NodeCache;
use bd_node::{Items, Messages, Node};
use std::alloc::{AllocError, Global};
use std::process::Abort;
use std::rc::Rc;
use std::test::Fail;

// Keeps a node of this level for an id.
fn put_level(alloc: Global, cache: &mut NodeCache, id: u64, level: u32) -> Result<(), AllocError> {
    let node = Node::Inner {
        level,
        edges: Items::new(alloc),
        buffer: Messages::new(alloc),
    };
    cache.put(id, Rc::new(alloc, node)?)
}

// The level of the node that is kept for an id.
fn level_at(cache: &mut NodeCache, id: u64) -> Option<u32> {
    cache.get(id).map(|node| node.level())
}

/// A call on the nodes that are kept.
#[derive(Clone, Copy)]
enum Call {
    /// A node of an id and a level.
    Put(u64, u32),
    /// The level of the node that is found for an id.
    Get(u64, Option<u32>),
    /// The node of an id goes.
    Forget(u64),
    /// How many are kept.
    Count(usize),
}

/// Calls where there is room for two.
const CALLS: &[Call] = &[
    Call::Put(1, 10),
    Call::Put(2, 20),
    Call::Put(1, 11),
    Call::Get(2, Some(20)),
    Call::Get(1, Some(11)),
    // The one that wasn't asked for the longest goes.
    Call::Put(3, 30),
    Call::Get(2, None),
    Call::Get(3, Some(30)),
    Call::Get(1, Some(11)),
    Call::Get(4, None),
    Call::Forget(1),
    Call::Forget(4),
    Call::Get(1, None),
    Call::Count(1),
];

// Whether a call finds what it says.
fn holds(alloc: Global, cache: &mut NodeCache, call: Call) -> Result<bool, AllocError> {
    match call {
        Call::Put(id, level) => put_level(alloc, cache, id, level)?,
        Call::Get(id, want) => return Ok(level_at(cache, id) == want),
        Call::Forget(id) => cache.forget(id),
        Call::Count(want) => return Ok(cache.len() == want),
    }
    Ok(true)
}

// Makes the calls.
fn run(rt: &impl Abort, alloc: Global, cache: &mut NodeCache) -> Result<(), Fail> {
    for (index, call) in CALLS.iter().enumerate() {
        assert!(rt; holds(alloc, cache, *call)?, "call {index}");
    }
    Ok(())
}

#[test]
fn nodes_are_kept_as_long_as_there_is_room(rt: HostRuntime) -> Result<(), Fail> {
    let mut cache = NodeCache::new(rt.alloc(), 2)?;
    run(&rt, rt.alloc(), &mut cache)
}
