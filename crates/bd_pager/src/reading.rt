//! Nodes that are read from slots.

ghost use Rattle.std.specs.Prelude.{◌≡◌, ◌≢◌, IfOk, IfSome, MatchOption};
ghost use Rattle.bd_node.specs.Nodes.{level_of};
ghost use Rattle.bd_device.specs.Device.{OnlyReads, HasImageCause};
ghost use Rattle.bd_tails.specs.Tails.{AreTails};
ghost use Rattle.bd_format.specs.Slots.{HasNode};
ghost use Rattle.bd_pager.specs.Slots.{IsOfLevel, IsBadSlot};

use bd_device::{Device, ImageFault};
use bd_format::decode;
use bd_format::laws::{images_are_of_one_node, nodes_fit_slots};
use bd_limits::{SLOT_BLOCKS, SLOT_SIZE};
use bd_node::Node;
use bd_slots::slot_block;
use bd_tails::{Tails, read_slot};
use std::alloc::Global;

/// Reads the node of a slot, which is to be of this level, by way of `bytes` and but for the zeros
/// that the slot is known to end in, and learns how much of it is used. `DeviceFault` comes
/// only where a call of the device failed, which is the last one then. `Damaged` comes exactly
/// where the slot has no well-formed node of this level, as where the device has no such slot, and
/// names the slot's first block.
#[tactic(auto, using(bd_device::proofs::Calls::calls))]
pub fn read_node<D: Device>(
    alloc: Global,
    dev: &mut D,
    slot: u32,
    level: u32,
    bytes: &mut [u8; SLOT_SIZE],
    tails: &mut Tails,
) -> Result<Node, ImageFault>
    requires { AreTails (D.contents dev.old) tails.old }
    ensures held { IfSome (D.contents dev.old)
        (λ image. IfOk result (HasNode image slot level)) }
    ensures cause { HasImageCause D.Device dev.old dev.new
        (IsBadSlot (D.contents dev.old) slot level) result }

    ensures tails { AreTails (D.contents dev.new) tails.new }

    // Whatever the contents.
    ensures node { IfOk result (IsOfLevel level) }
    ensures reads { OnlyReads D.Device dev.old dev.new }
{
    images_are_of_one_node();
    nodes_fit_slots();
    let block = slot_block(slot);
    if dev.blocks() < block + SLOT_BLOCKS {
        return Err(ImageFault::Damaged { block });
    }
    read_slot(dev, slot, bytes, tails)?;
    let Some(read) = decode(alloc, bytes)? else {
        return Err(ImageFault::Damaged { block });
    };
    let Some(node) = of_level(read, level) else {
        return Err(ImageFault::Damaged { block });
    };
    Ok(node)
}

// The node, if it is of this level.
fn of_level(node: Node, level: u32) -> Option<Node>
    ensures { MatchOption result (level_of node ≢ level)
        (λ same. (same ≡ node) × (level_of node ≡ level)) }
{
    if node.level() == level {
        Some(node)
    } else {
        None
    }
}
