//! Nodes that were read, kept for the next time.

ghost use Rattle.std.specs.Prelude.{◌≡◌, ◌≢◌, ◌≤◌, ◌<◌, ℕ, None, Some, IfOk, OnOk, OnErr};
ghost use Rattle.std.specs.Option.{option_map};
ghost use Rattle.bd_cache.specs.Cache.{kept_at, cached_count, room_of, IsKeptOrGone, node_of};

use bd_node::Node;
use lru::LruCache;
use std::alloc::{AllocError, Global};
use std::num::NonZeroUsize;
use std::rc::Rc;

/// Nodes by their ids. It keeps at most as many as it has room for, and where it is full a new one
/// takes the place of the one that wasn't asked for the longest.
#[derive(Drop)]
pub struct NodeCache {
    kept: LruCache<u64, Rc<Node>>,
}

impl NodeCache {
    /// A cache that keeps no node yet, and at most `room`.
    pub fn new(alloc: Global, room: usize) -> Result<NodeCache, AllocError>
        requires { 1 ≤ room }
        ensures room { IfOk result (λ cache. room_of cache ≡ room) }
        ensures empty { IfOk result (λ cache. (id : ℕ) → kept_at cache id ≡ None) }
    {
        let room = NonZeroUsize::new(room).unwrap();
        Ok(NodeCache {
            kept: LruCache::new(alloc, room)?,
        })
    }

    /// How many nodes are kept.
    pub fn len(&self) -> usize
        ensures count { result ≡ cached_count self.now }
        ensures within { result ≤ room_of self.now }
    {
        self.kept.len()
    }

    /// The node that is kept for an id, and `None` exactly where none is. Every other node stays.
    /// This one stays too, unless no more can hold it: then the cache gives away its own hold.
    pub fn get(&mut self, id: u64) -> Option<Rc<Node>>
        ensures found { option_map node_of result ≡ kept_at self.old id }
        ensures own { IsKeptOrGone (kept_at self.old id) (kept_at self.new id) }
        ensures others { (other : ℕ) → other ≢ id
            → kept_at self.new other ≡ kept_at self.old other }
        ensures room { room_of self.new ≡ room_of self.old }
    {
        let kept = self.kept.get(&id)?;
        match kept.clone() {
            Ok(node) => Some(node),
            Err(_) => self.take(id),
        }
    }

    /// Keeps a node for an id, in place of the one that was kept for it. Others go only where the
    /// cache is full. Where there is no memory, all stays as it was.
    pub fn put(&mut self, id: u64, node: Rc<Node>) -> Result<(), AllocError>
        ensures kept { OnOk result (kept_at self.new id ≡ Some node.value) }
        ensures others { (other : ℕ) → other ≢ id
            → IsKeptOrGone (kept_at self.old other) (kept_at self.new other) }
        ensures none_goes { cached_count self.old < room_of self.old → (other : ℕ) → other ≢ id
            → kept_at self.new other ≡ kept_at self.old other }
        ensures room { room_of self.new ≡ room_of self.old }
        ensures err { OnErr result (self.new ≡ self.old) }
    {
        self.kept.put(id, node)?;
        Ok(())
    }

    /// Keeps no node for an id any more. Every other node stays.
    pub fn forget(&mut self, id: u64)
        ensures gone { kept_at self.new id ≡ None }
        ensures others { (other : ℕ) → other ≢ id
            → kept_at self.new other ≡ kept_at self.old other }
        ensures room { room_of self.new ≡ room_of self.old }
    {
        self.take(id);
    }

    /// Keeps no node any more.
    pub fn clear(&mut self)
        ensures gone { (id : ℕ) → kept_at self.new id ≡ None }
        ensures count { cached_count self.new ≡ 0 }
        ensures room { room_of self.new ≡ room_of self.old }
    {
        self.kept.clear();
    }

    // Gives up the node that is kept for an id.
    fn take(&mut self, id: u64) -> Option<Rc<Node>>
        ensures found { option_map node_of result ≡ kept_at self.old id }
        ensures gone { kept_at self.new id ≡ None }
        ensures others { (other : ℕ) → other ≢ id
            → kept_at self.new other ≡ kept_at self.old other }
        ensures room { room_of self.new ≡ room_of self.old }
    {
        if self.kept.len() == 0 {
            return None;
        }
        self.kept.pop(&id)
    }
}
