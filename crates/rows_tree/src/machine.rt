//! A map, a tree of nodes in memory and nodes over a device, after the same calls.

use crate::image::Disk;
use crate::stop::Stop;
use bd_cover::Reclaim;
use bd_keys::starts;
use bd_limits::{GRAFT_SIZE, MAX_KEY};
use bd_memnodes::MemNodes;
use bd_message::{KeyMap, ListMap, Message};
use bd_node::{Node, NodeStore};
use bd_tree::Tree;
use std::alloc::{AllocError, Global};
use std::collections::HashSet;
use std::rc::Rc;

/// A map, a tree of nodes in memory and nodes over a device, after the same calls.
pub struct Machine {
    pub alloc: Global,
    pub map: ListMap,
    pub tree: Tree<MemNodes>,
    pub disk: Disk,
    /// At how many waiting bytes a flush ends that comes after each call, where there is one.
    pub limit: Option<usize>,
    /// The next id before the last call.
    pub next_id: u64,
    /// A root that is held.
    pub held: Option<Rc<Node>>,
}

// Written out, so that a drop is one call.
impl Drop for Machine {
    fn drop(self) {
        let Machine {
            alloc: _,
            map: _,
            tree: _,
            disk: _,
            limit: _,
            next_id: _,
            held: _,
        } = self;
    }
}

impl Machine {
    /// Without keys, and with nothing over a device.
    pub fn new(alloc: Global) -> Result<Machine, AllocError> {
        Ok(Machine {
            alloc,
            map: ListMap::new(alloc),
            tree: Tree::over(alloc, MemNodes::new(alloc)?),
            disk: Disk::new(alloc),
            limit: None,
            next_id: 0,
            held: None,
        })
    }

    /// After one more message.
    pub fn apply(&mut self, list: &[Message]) -> Result<(), Stop> {
        self.next_id = self.tree.store().next_id();
        apply(&mut self.map, list)?;
        apply(&mut self.tree, list)?;
        self.disk.apply(self.alloc, list)?;
        self.end_call()
    }

    /// After one more graft.
    pub fn graft(&mut self, s: &[u8], d: &[u8], keep: bool) -> Result<(), Stop> {
        self.next_id = self.tree.store().next_id();
        graft(&mut self.map, s, d, keep)?;
        graft(&mut self.tree, s, d, keep)?;
        self.disk.graft(self.alloc, s, d, keep)?;
        self.end_call()
    }

    /// After the flush that comes after each call, where there is one.
    fn end_call(&mut self) -> Result<(), Stop> {
        match self.limit {
            Some(limit) => self.flush(limit),
            None => Ok(()),
        }
    }

    /// With at most so many bytes that wait in the root.
    pub fn flush(&mut self, limit: usize) -> Result<(), Stop> {
        flush(&mut self.tree, limit)?;
        self.disk.flush(self.alloc, limit)
    }
}

/// Applies one message that names no node, where there is room.
fn apply<M: KeyMap>(map: &mut M, list: &[Message]) -> Result<(), Stop> {
    match list {
        [Message::Goto { .. }] => Err(Stop::NoLine),
        [message] if message.is_message() && message.size() <= map.room() => Ok(map.apply(list)?),
        _ => Err(Stop::NoLine),
    }
}

/// Grafts, where it is allowed.
pub fn graft<M: KeyMap>(map: &mut M, s: &[u8], d: &[u8], keep: bool) -> Result<(), Stop> {
    let is_short = s.len() <= MAX_KEY && d.len() <= MAX_KEY;
    if !is_short || map.room() < GRAFT_SIZE || (!keep && starts(d, s)) {
        return Err(Stop::NoLine);
    }
    Ok(map.graft(s, d, keep)?)
}

/// How many steps there are at most.
const STEPS: u64 = 1_000;

/// Flushes until at most so many bytes wait in the root.
pub fn flush(tree: &mut Tree<MemNodes>, limit: usize) -> Result<(), Stop> {
    for _ in 0..STEPS {
        if !tree.flush_step(limit)? {
            return Ok(());
        }
    }
    Err(Stop::NoLine)
}

/// Makes changes of reclaiming until there is none. How many of them were pushes.
pub fn reclaim(alloc: Global, tree: &mut Tree<MemNodes>, pushes: bool) -> Result<u64, Stop> {
    let mut passed = HashSet::new(alloc);
    let mut count = 0u64;
    for _ in 0..STEPS {
        let Some(step) = tree.reclaim_next(&mut passed, pushes)? else {
            return Ok(count);
        };
        if matches!(step, Reclaim::Push { .. }) {
            count = count.saturating_add(1);
        }
        tree.reclaim_step(step)?;
    }
    Err(Stop::NoLine)
}
