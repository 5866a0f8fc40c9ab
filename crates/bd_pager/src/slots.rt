//! A node that is written to a slot.

ghost use Rattle.std.specs.Prelude.{◌≡◌, ◌+◌, ◌≤◌, IfSome, OnOk};
ghost use Rattle.bd_limits.specs.Limits.{slot_blocks};
ghost use Rattle.bd_slots.specs.Layout.{slot_block};
ghost use Rattle.bd_device.specs.Calls.{faults_after};
ghost use Rattle.bd_device.specs.Changes.{StaysBut, IsBeforeBut};
ghost use Rattle.bd_device.specs.Device.{left_now, Goes, Stays, FailsLast};
ghost use Rattle.bd_node.specs.Nodes.{level_of};
ghost use Rattle.bd_node.specs.Shape.{IsShape};
ghost use Rattle.bd_tails.specs.Tails.{AreTails, IsOfSlot};
ghost use Rattle.bd_format.specs.Slots.{HasNode};

use bd_device::Device;
use bd_format::encode;
use bd_io::Failed;
use bd_limits::SLOT_SIZE;
use bd_node::Node;
use bd_tails::{Tails, write_slot};

/// Writes a node to a slot, by way of `bytes` and but for the zeros that the slot is known to end
/// in, without a barrier: until one succeeds a crash may leave any bytes there. It takes no memory.
/// `Failed` comes only where a call of the device failed, which is the last one then.
pub fn write_node<D: Device>(
    dev: &mut D,
    slot: u32,
    node: &Node,
    bytes: &mut [u8; SLOT_SIZE],
    tails: &mut Tails,
) -> Result<(), Failed>
    requires shape { IsShape node.now }
    requires tails { AreTails (D.contents dev.old) tails.old }
    requires room { slot_block slot + slot_blocks ≤ D.block_count dev.old }
    ensures held { OnOk result (IfSome (D.contents dev.new)
        (λ image. HasNode image slot (level_of node.now) node.now)) }
    ensures tails { AreTails (D.contents dev.new) tails.new }
    ensures elsewhere { StaysBut (IsOfSlot slot) (D.contents dev.old) (D.contents dev.new) }
    ensures time { Goes D.Device dev.old dev.new
        (IsBeforeBut (IsOfSlot slot) (left_now D.Device dev.old)) }
    ensures stays { Stays D.Device dev.old dev.new }
    ensures cause { FailsLast D.Device dev.old dev.new result }
    ensures write_faults { D.write_fault_count dev.new
        ≡ faults_after (D.write_fault_count dev.old) result }
{
    encode(node, bytes);
    write_slot(dev, slot, bytes, tails)
}
