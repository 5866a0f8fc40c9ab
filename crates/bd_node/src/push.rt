//! Messages that go down from a node to its child.

ghost use Rattle.std.specs.Prelude.{◌≡◌, ◌↔◌, ◌+◌, ◌≤◌, IfOk, IsTrue, MatchOption};
ghost use Rattle.std.specs.List.{AllByRecursion, sum_by};
ghost use Rattle.bd_limits.specs.Limits.{buffer_limit};
ghost use Rattle.bd_message.specs.Messages.{IsMessage, size};
ghost use Rattle.bd_node.specs.Nodes.{level_of};
ghost use Rattle.bd_node.specs.Pushes.{CanMake, HasRoomFor, IsGain, IsPushStep, gained, push_step};
ghost use Rattle.bd_node.specs.Shape.{IsShape};

use crate::{Change, Entries, Items, Messages, Node, Step};
use bd_limits::MAX_BUFFER;
use bd_message::Message;
use std::alloc::{AllocError, Global};

/// What a child has after messages have gone down to it.
#[derive(Debug, Drop)]
pub enum Gain {
    /// An inner child has these messages after those that wait in it.
    Messages(Messages),
    /// A leaf has these entries in place of its own.
    Entries(Entries),
}

/// Messages that name no node, which go down from a node to its child.
#[derive(Debug, Drop)]
pub struct Push {
    /// The node.
    pub parent: u64,
    /// The place, among those of the node, of the edge whose child it is.
    pub place: usize,
    /// How many more of the node's messages the edge has seen then.
    pub count: usize,
    /// The child.
    pub child: u64,
    /// What the child gets of them.
    pub gain: Gain,
}

impl Gain {
    /// Whether there is room for it in a child of its level.
    pub fn fits(&self, child: &Node) -> bool
        requires child { IsShape child.now }
        requires gain { IsGain (level_of child.now) self.now }
        ensures { IsTrue result ↔ HasRoomFor child.now self.now }
    {
        match self {
            Gain::Messages(list) => has_room(child.buffer_size(), list.as_slice()),
            Gain::Entries(_) => true,
        }
    }
}

impl Push {
    /// The step that makes it, of copies of both nodes. It is `None` where it can't be made of them.
    pub fn step(
        self,
        alloc: Global,
        root: u64,
        parent: &Node,
        child: &Node,
    ) -> Result<Option<Step>, AllocError>
        requires parent { IsShape parent.now }
        requires child { IsShape child.now }
        requires gain { IsGain (level_of child.now) self.gain }
        ensures { IfOk result (λ found. MatchOption found (¬ CanMake self parent.now child.now)
            (IsPushStep root self parent.now child.now)) }
    {
        if !self.gain.fits(child) {
            return Ok(None);
        }
        let Some(relief) = parent.relief(self.place, self.count)? else {
            return Ok(None);
        };
        let mut above = parent.clone()?;
        above.relieve(relief);
        let step = self.changing(alloc, root, above, child)?;
        Ok(Some(step))
    }

    // The step that changes the node above so, and the child.
    fn changing(
        self,
        alloc: Global,
        root: u64,
        above: Node,
        child: &Node,
    ) -> Result<Step, AllocError>
        ensures { IfOk result (λ step.
            step ≡ push_step root self.parent above self.child (gained child.now self.gain)) }
    {
        let Push {
            parent,
            place: _,
            count: _,
            child: id,
            gain,
        } = self;
        let node = gained(child, gain)?;
        let mut changes = Vec::with_capacity(alloc, 2)?;
        changes.push(Change { id, node })?;
        changes.push(Change {
            id: parent,
            node: above,
        })?;
        Ok(Step {
            made: Items::new(alloc),
            changes: Items::from_vec(changes),
            root,
        })
    }
}

// A copy of a child with what it gets.
fn gained(child: &Node, gain: Gain) -> Result<Node, AllocError>
    ensures { IfOk result (λ n. n ≡ gained child.now gain) }
{
    match gain {
        Gain::Messages(list) => child.followed_by(list),
        Gain::Entries(entries) => Ok(Node::Leaf(entries)),
    }
}

// Whether messages fit beside so many bytes in a buffer.
fn has_room(used: usize, list: &[Message]) -> bool
    requires { AllByRecursion IsMessage list.now }
    ensures { IsTrue result ↔ (used + sum_by size list.now ≤ buffer_limit) }
{
    if MAX_BUFFER < used {
        return false;
    }
    let mut room = MAX_BUFFER - used;
    for message in list {
        let size = message.size();
        if room < size {
            return false;
        }
        room -= size;
    }
    true
}
