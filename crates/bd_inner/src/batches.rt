//! What a push moves from a node to a child.

ghost use Rattle.std.specs.Prelude.{◌≡◌, ◌↔◌, ◌≤◌, ◌∷◌, [], drop, length, IfOk, IfSome, IsTrue};
ghost use Rattle.std.specs.Option.{option_copied, option_to_list};
ghost use Rattle.std.specs.List.{AllByRecursion};
ghost use Rattle.bd_message.specs.Messages.{IsMessage, size};
ghost use Rattle.bd_node.specs.Spans.{AreTouching};
ghost use Rattle.bd_node.specs.Touching.{CanTouch};
ghost use Rattle.bd_inner.specs.Batches.{IsLifted, CanMove, IsPart, IsMoved, IsBatch};

use bd_limits::MAX_BATCH;
use bd_message::Message;
use bd_node::{Edge, Messages};
use std::alloc::{AllocError, Global};

/// Messages for a child.
#[derive(Debug, Drop)]
pub struct Batch {
    /// How many messages of the node's these stand for: those that aren't pending for the child's
    /// edge, too.
    pub count: usize,
    /// The messages on the child's keys, the oldest first.
    pub messages: Messages,
}

/// The oldest of a node's messages that are pending for an edge, as many as fit in 16,384 bytes and
/// at least one where one is pending, freed of the bytes that are left out of the child's keys. The
/// edge's keys end at `hi`, and it hasn't seen the messages from the place `from` on.
pub fn next_batch(
    alloc: Global,
    edge: &Edge,
    hi: Option<&[u8]>,
    buffer: &Messages,
    from: usize,
) -> Result<Batch, AllocError>
    requires within { from ≤ length buffer.now }
    requires edge { IsLifted edge.now (option_copied hi) }
    requires each { AllByRecursion IsMessage (drop from buffer.now) }
    requires gotos { AllByRecursion (CanMove edge.now (option_copied hi)) (drop from buffer.now) }
    ensures { IfOk result (IsBatch edge.now (option_copied hi.entry) (drop from buffer.now)) }
{
    let mask = buffer.touching(edge.pivot.as_slice(), hi)?;
    let (_, list) = buffer.as_slice().split_at(from);
    let (_, mask) = mask.as_slice().split_at(from);
    oldest(alloc, edge, hi, list, mask)
}

// The same of a list of messages, where the mask says which of them can change what stands at a key
// of the edge.
fn oldest(
    alloc: Global,
    edge: &Edge,
    hi: Option<&[u8]>,
    list: &[Message],
    mask: &[bool],
) -> Result<Batch, AllocError>
    requires edge { IsLifted edge.now (option_copied hi) }
    requires each { AllByRecursion IsMessage list.now }
    requires gotos { AllByRecursion (CanMove edge.now (option_copied hi)) list.now }
    requires mask { AreTouching mask.now list.now edge.now.pivot (option_copied hi) }
    ensures { IfOk result (IsBatch edge.now (option_copied hi.entry) list.now) }
{
    let mut messages = Vec::new(alloc);
    let mut size = 0;
    for (count, message) in list.iter().enumerate() {
        if let Some(message) = moved(alloc, edge, hi, message, mask[count])? {
            if message.size() > MAX_BATCH - size {
                return Ok(Batch {
                    count,
                    messages: Messages::from_vec(messages),
                });
            }
            size += message.size();
            messages.push(message)?;
        }
    }
    Ok(Batch {
        count: list.len(),
        messages: Messages::from_vec(messages),
    })
}

// A message on the child's keys, and none where it changes nothing at a key of the edge.
fn moved(
    alloc: Global,
    edge: &Edge,
    hi: Option<&[u8]>,
    message: &Message,
    touches: bool,
) -> Result<Option<Message>, AllocError>
    requires edge { IsLifted edge.now (option_copied hi) }
    requires message { IsMessage message.now }
    requires goto { CanMove edge.now (option_copied hi) message.now }
    requires touches { IsTrue touches ↔ CanTouch message.now edge.now.pivot (option_copied hi) }
    ensures moved { IfOk result (λ found. IsMoved edge.now (option_copied hi.entry)
        (message.now ∷ []) (option_to_list found)) }
    ensures part { IfOk result (λ found. IsPart edge.now (option_copied hi.entry) message.now
        (option_to_list found)) }
{
    if !touches {
        return Ok(None);
    }
    message.free(alloc, &edge.pivot.as_slice()[..edge.lift as usize])
}
