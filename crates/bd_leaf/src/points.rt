//! What a batch does to a leaf's entries, key by key.

ghost use Rattle.std.specs.Prelude.{◌≡◌, ◌++◌, ◌∷◌, [], List, All, IfOk, OnOk, not};
ghost use Rattle.std.specs.List.{AllByRecursion, filter};
ghost use Rattle.bd_message.specs.declared.message.Message.{Message};
ghost use Rattle.bd_message.specs.Messages.{IsMessage, IsPlain};
ghost use Rattle.bd_node.specs.Index.{own_key};
ghost use Rattle.bd_node.specs.Touching.{touches};
ghost use Rattle.bd_leaf.specs.Leaves.{AreEntries, IsCovered};
ghost use Rattle.bd_leaf.specs.Points.{IsPoint, IsResolved, IsSorted, dels_of, message_of, messages_of};

use crate::receiving::{end_of, start_of};
use bd_keys::translate;
use bd_message::Message;
use bd_node::{Entry, is_point, own_key, touches};
use std::alloc::{AllocError, Global};

/// What is done at one key.
#[derive(Drop)]
pub enum Point<'a> {
    /// What a message on the key does.
    Sent(&'a Message),
    /// The entry of the key is dropped, which a message on a range of keys does.
    Dropped(&'a Entry),
}

impl<'a> Point<'a> {
    /// The key.
    pub fn key(&self) -> &'a [u8]
        ensures { result.now ≡ own_key (message_of self.now) }
    {
        match self {
            Point::Sent(message) => own_key(message),
            Point::Dropped(entry) => entry.key.as_slice(),
        }
    }
}

/// What messages do to entries, key by key, and at one key the first one first. One on a range of
/// keys drops the points there so far, and each entry there is dropped by a point of its own.
pub fn points_of<'a>(
    alloc: Global,
    entries: &'a [Entry],
    list: &'a [Message],
) -> Result<Vec<Point<'a>>, AllocError>
    requires entries { AreEntries entries.now }
    requires messages { All IsMessage list.now }
    requires plain { All IsPlain list.now }
    ensures { IfOk result (λ points. IsResolved entries.now list.now (messages_of points.items)) }
{
    let mut points = Vec::with_capacity(alloc, list.len())?;
    for message in list {
        add(alloc, entries, &mut points, message)?;
    }
    Ok(points)
}

/// Puts points in the order of their keys. Those at one key stay in their order.
pub fn sort(points: &mut Vec<Point>) -> Result<(), AllocError>
    requires { AllByRecursion IsPoint (messages_of points.old.items) }
    ensures { OnOk result (IsSorted (messages_of points.old.items) (messages_of points.new.items)) }
{
    points.sort_by(|a, b| a.key().cmp(b.key()))
}

// What one message more does.
fn add<'a>(
    alloc: Global,
    entries: &'a [Entry],
    points: &mut Vec<Point<'a>>,
    message: &'a Message,
) -> Result<(), AllocError>
    requires entries { AreEntries entries.now }
    requires message { IsMessage message.now }
    requires plain { IsPlain message.now }
    ensures { OnOk result ((list : List Message)
        → IsResolved entries.now list (messages_of points.old.items)
        → IsResolved entries.now (list ++ message.now ∷ []) (messages_of points.new.items)) }
{
    if is_point(message) {
        return Ok(points.push(Point::Sent(message))?);
    }
    let Message::Cut { prefix, from } = message else {
        unreachable!()
    };
    let gone = covered(alloc, entries, prefix.as_slice(), from.as_slice())?;
    drop_points(points, message);
    drop_entries(points, gone)
}

// Drops the points at the keys that a message can change.
fn drop_points(points: &mut Vec<Point>, message: &Message)
    ensures { points.new.items
        ≡ filter (λ point. not (touches message.now (own_key (message_of point)))) points.old.items }
{
    points.retain(|point| !touches(message, point.key()));
}

// Adds that entries are dropped.
fn drop_entries<'a>(points: &mut Vec<Point<'a>>, entries: &'a [Entry]) -> Result<(), AllocError>
    ensures { OnOk result (messages_of points.new.items
        ≡ messages_of points.old.items ++ dels_of entries.now) }
{
    for entry in entries {
        points.push(Point::Dropped(entry))?;
    }
    Ok(())
}

// The entries whose keys are a prefix and then `from` or what stands after it.
fn covered<'a>(
    alloc: Global,
    entries: &'a [Entry],
    prefix: &[u8],
    from: &[u8],
) -> Result<&'a [Entry], AllocError>
    requires { AreEntries entries.now }
    ensures { IfOk result (λ old. IsCovered entries.now prefix.now from.now old.now) }
{
    let least = translate(alloc, from, 0, prefix)?;
    let start = start_of(entries, &least);
    let end = end_of(entries, start, prefix);
    Ok(&entries[start..end])
}
