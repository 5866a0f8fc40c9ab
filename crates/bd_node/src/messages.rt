//! The messages that wait in a node.

ghost use Rattle.std.specs.Prelude.{◌≡◌, ◌≤◌, ◌↔◌, ◌++◌, [], length, IfOk, IsTrue, OnOk, OnErr, Some};
ghost use Rattle.std.specs.Option.{ForSome, option_copied};
ghost use Rattle.std.specs.List.{AllByRecursion, sum_by};
ghost use Rattle.bd_keys.specs.Keys.{IsBelowEnd};
ghost use Rattle.bd_limits.specs.Limits.{buffer_limit};
ghost use Rattle.bd_message.specs.Messages.{IsMessage, size};
ghost use Rattle.bd_node.specs.Index.{IsIndex, IsNewestTouching, IsNextPoint, IsNextRange, is_point_at};
ghost use Rattle.bd_node.specs.Keeping.{staying};
ghost use Rattle.bd_node.specs.Owners.{AreOwners};
ghost use Rattle.bd_node.specs.Shape.{AreRising, end_before};
ghost use Rattle.bd_node.specs.Spans.{AreTouching};
ghost use Rattle.bd_node.specs.Stems.{AreByStem};
ghost use Rattle.bd_node.specs.Touching.{IsNextTouching};

use crate::index::{self, Index};
use crate::{Edge, owners, scans, spans, staying};
use bd_message::Message;
use std::alloc::{AllocError, Global};
use std::marker::Model;

/// The messages that wait in a node, the oldest first. It says itself which of them can change what
/// stands at a key: by an index of their keys, or by a scan where it has none, as a list of messages
/// that goes from node to node.
#[derive(Debug, Drop)]
pub struct Messages {
    items: Vec<Message>,
    index: Option<Index>,
}

impl Model for Messages {
    ghost use Rattle.std.specs.Prelude.{List, length};
    ghost use Rattle.std.specs.Option.{ForSome};
    ghost use Rattle.bd_message.specs.declared.message.Message.{Message};

    ghost Value = { List Message };

    ghost use Rattle.bd_node.specs.Index.{IsIndex};
    ghost use Rattle.bd_node.specs.Stems.{AreByStem};

    ghost view = { λ list. list.items.items };

    ghost invariant = { λ list. ForSome list.index (λ index.
        IsIndex list.items.items (length list.items.items) index.points.items index.ranges.items
        × AreByStem list.items.items (length list.items.items) index.stems.items) };
}

impl Messages {
    /// No messages, in memory that this allocator gives.
    pub fn new(alloc: Global) -> Messages
        ensures { result ≡ [] }
    {
        Messages {
            items: Vec::new(alloc),
            index: None,
        }
    }

    /// The messages of a `Vec`, the oldest first, without an index.
    pub fn from_vec(items: Vec<Message>) -> Messages
        ensures { result ≡ items.items }
    {
        Messages { items, index: None }
    }

    /// The messages of a `Vec`, the oldest first, with an index.
    pub fn indexed(items: Vec<Message>) -> Result<Messages, AllocError>
        ensures { IfOk result (λ list. list ≡ items.items) }
    {
        let index = index::regrown(*items.allocator(), None, items.as_slice(), 0)?;
        Ok(Messages {
            items,
            index: Some(index),
        })
    }

    /// The messages, the oldest first.
    pub fn as_slice(&self) -> &[Message]
        ensures { result.now ≡ self.now }
    {
        self.items.as_slice()
    }

    /// The messages as a `Vec`.
    pub fn into_vec(self) -> Vec<Message>
        ensures { result.items ≡ self }
    {
        let Messages { items, index: _ } = self;
        items
    }

    /// How many messages there are.
    pub fn len(&self) -> usize
        ensures { result ≡ length self.now }
    {
        self.items.len()
    }

    /// Whether there are no messages.
    pub fn is_empty(&self) -> bool
        ensures { IsTrue result ↔ (self.now ≡ []) }
    {
        self.items.is_empty()
    }

    /// How many bytes they count together.
    pub fn size(&self) -> usize
        requires each { AllByRecursion IsMessage self.now }
        requires fits { sum_by size self.now ≤ buffer_limit }
        ensures { result ≡ sum_by size self.now }
    {
        let mut total = 0;
        for message in self.as_slice() {
            total += message.size();
        }
        total
    }

    /// Puts messages after these, and into their index, which is made where there is none. Where
    /// there is no memory, these stay as they are.
    pub fn append(&mut self, list: Messages) -> Result<(), AllocError>
        ensures ok { OnOk result (self.new ≡ self.old ++ list) }
        ensures err { OnErr result (self.new ≡ self.old) }
    {
        let count = self.items.as_slice().len();
        let mut more = list.into_vec();
        self.items.append(&mut more)?;
        let alloc = *self.items.allocator();
        match index::regrown(alloc, self.index.take(), self.items.as_slice(), count) {
            Ok(index) => {
                self.index = Some(index);
                Ok(())
            }
            Err(fault) => {
                self.items.truncate(count);
                Err(fault)
            }
        }
    }

    /// A copy of the messages with others after them, with an index.
    pub fn followed_by(&self, list: Messages) -> Result<Messages, AllocError>
        ensures { IfOk result (λ all. all ≡ self.now ++ list) }
    {
        let alloc = *self.items.allocator();
        let items = self.items.as_slice();
        let all = joined(alloc, items, list.into_vec())?;
        let index = index::copied(&self.index)?;
        let index = index::regrown(alloc, index, all.as_slice(), items.len())?;
        Ok(Messages {
            items: all,
            index: Some(index),
        })
    }

    /// A copy of the messages of which the mask says that they stay, with an index.
    pub fn kept(&self, mask: &[bool]) -> Result<Messages, AllocError>
        requires { length mask.now ≡ length self.now }
        ensures { IfOk result (λ list. list ≡ staying mask.now self.now) }
    {
        let alloc = self.allocator();
        let items = staying::staying(alloc, self.items.as_slice(), mask)?;
        let index = self.kept_index(mask)?;
        let list = items.as_slice();
        let index = index::regrown(alloc, index, list, list.len())?;
        Ok(Messages {
            items,
            index: Some(index),
        })
    }

    /// The index of the messages of which the mask says that they stay, where there is one of all.
    pub(crate) fn kept_index(&self, mask: &[bool]) -> Result<Option<Index>, AllocError>
        requires { length mask.now ≡ length self.now }
        ensures { IfOk result (λ found. ForSome found (λ index.
            IsIndex (staying mask.now self.now) (length (staying mask.now self.now))
            index.points.items index.ranges.items
            × AreByStem (staying mask.now self.now) (length (staying mask.now self.now))
            index.stems.items)) }
    {
        match &self.index {
            Some(index) => Ok(Some(staying::moved_index(self.allocator(), index, mask)?)),
            None => Ok(None),
        }
    }

    /// Keeps those of the messages of which the mask says that they stay, in place, with the index
    /// of these if there is one.
    pub(crate) fn keep(&mut self, mask: &[bool], index: Option<Index>)
        requires long { length mask.now ≡ length self.old }
        requires index { ForSome index (λ index.
            IsIndex (staying mask.now self.old) (length (staying mask.now self.old))
            index.points.items index.ranges.items
            × AreByStem (staying mask.now self.old) (length (staying mask.now self.old))
            index.stems.items) }
        ensures { self.new ≡ staying mask.now self.old }
    {
        staying::keep(&mut self.items, mask);
        self.index = index;
    }

    /// The allocator of whose memory they take.
    pub(crate) fn allocator(&self) -> Global {
        *self.items.allocator()
    }

    /// The place of the oldest message from a place on that can change what stands at a key. It is
    /// `None` where there is none.
    pub fn next_touching(&self, from: usize, key: &[u8]) -> Option<usize>
        ensures { IsNextTouching self.now from key.now result }
    {
        let items = self.items.as_slice();
        match &self.index {
            Some(index) => index::next_touching(items, index, from, key),
            None => scans::next_touching(items, from, key),
        }
    }

    /// The place of the newest message from a place on that can change what stands at a key. It is
    /// `None` where there is none.
    pub fn newest_touching(&self, from: usize, key: &[u8]) -> Option<usize>
        ensures { IsNewestTouching self.now from key.now result }
    {
        let items = self.items.as_slice();
        match &self.index {
            Some(index) => index::newest_touching(items, index, from, key),
            None => scans::newest_touching(items, from, key),
        }
    }

    /// The place of the first message from a place on that can change what stands at more than one
    /// key. It is `None` where there is none.
    pub fn next_range(&self, from: usize) -> Option<usize>
        ensures { IsNextRange self.now from result }
    {
        let items = self.items.as_slice();
        match &self.index {
            Some(index) => index::next_range(items, index, from),
            None => scans::next_range(items, from),
        }
    }

    /// The place of a message from a place on that can change what stands at one key alone, the
    /// least of these above this one. It is `None` where there is none.
    pub fn next_point(&self, from: usize, key: &[u8]) -> Option<usize>
        ensures { IsNextPoint self.now from key.now result }
    {
        let items = self.items.as_slice();
        match &self.index {
            Some(index) => index::next_point(items, index, from, key),
            None => scans::next_point(items, from, key),
        }
    }

    /// Whether each message can change what stands at a key that is at least `lo` and below `hi`.
    pub fn touching(&self, lo: &[u8], hi: Option<&[u8]>) -> Result<Vec<bool>, AllocError>
        requires { IsBelowEnd lo.now (option_copied hi) }
        ensures { IfOk result (λ mask.
            AreTouching mask.items self.now lo.now (option_copied hi.entry)) }
    {
        let items = self.items.as_slice();
        let alloc = *self.items.allocator();
        match &self.index {
            Some(index) => spans::touching(alloc, items, index, lo, hi),
            None => scans::touching(alloc, items, lo, hi),
        }
    }

    /// For each message on one key, the place of the edge whose keys include that key, and for each
    /// other message any number.
    pub fn owners(&self, edges: &[Edge]) -> Result<Vec<usize>, AllocError>
        requires first { end_before edges.now ≡ Some [] }
        ensures { IfOk result (λ owners. AreOwners owners.items edges.now self.now) }
    {
        let items = self.items.as_slice();
        let alloc = *self.items.allocator();
        match &self.index {
            Some(index) => owners::owners(alloc, items, index, edges),
            None => {
                let index = index::regrown(alloc, None, items, 0)?;
                owners::owners(alloc, items, &index, edges)
            }
        }
    }
}

impl Clone for Messages {
    ghost is_clone = { λ list copy. copy ≡ list };

    fn clone(&self) -> Result<Messages, AllocError> {
        Ok(Messages {
            items: copied(&self.items)?,
            index: index::copied(&self.index)?,
        })
    }
}

// Copies of messages with others after them, in memory that is taken for all at once.
fn joined(alloc: Global, items: &[Message], more: Vec<Message>) -> Result<Vec<Message>, AllocError>
    ensures { IfOk result (λ all. all.items ≡ items.now ++ more.items) }
{
    let mut more = more;
    let mut all = Vec::with_capacity(alloc, items.len().saturating_add(more.len()))?;
    all.extend_with_clones(items)?;
    all.append(&mut more)?;
    Ok(all)
}

// A copy of messages.
fn copied(items: &Vec<Message>) -> Result<Vec<Message>, AllocError>
    ensures { IfOk result (λ copy. copy.items ≡ items.now.items) }
{
    items.clone()
}
