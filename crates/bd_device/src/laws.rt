ghost use Rattle.std.specs.Prelude.{◌≡◌, ◌<◌, ◌↔◌, ◌⊎◌, IsTrue, OnOk, is_err};
ghost use Rattle.bd_io.specs.Plan.{next_fails};
ghost use Rattle.bd_device.specs.Blocks.{Image};
ghost use Rattle.bd_device.specs.Memory.{attached_size, attached_image, held_image, is_recorded, left_of, write_fails};
ghost use Rattle.bd_device.specs.Moments.{TornAt};

use crate::{BLOCK_SIZE, Device, MemDevice};
use bd_io::Failed;

/// After a write to a device in memory with nothing in flight, also one that failed with a record,
/// a crash may leave each image that has any bytes in that block, and no other.
pub fn law_of_a_write(device: &mut MemDevice, b: u64, from: &[u8; BLOCK_SIZE]) -> Result<(), Failed>
    requires room { b < attached_size device.old }
    requires settled { (c : Image) → left_of device.old device.old.plan.calls c
        → c ≡ held_image device.old }
    ensures any { IsTrue (is_recorded device.old.plan.calls device.old) → (c : Image)
        → TornAt b (λ d. d ≡ held_image device.old) c
        → left_of device.new device.new.plan.calls c }
    ensures only { (c : Image) → left_of device.new device.new.plan.calls c
        → (c ≡ held_image device.old) ⊎ TornAt b (λ d. d ≡ held_image device.old) c }
    ensures fails { is_err result ≡ write_fails device.old }
{
    device.write(b, from)
}

/// After a barrier that succeeded a crash leaves what reads give of a device in memory, and nothing
/// else.
pub fn law_of_a_barrier(device: &mut MemDevice) -> Result<(), Failed>
    requires { IsTrue device.old.attached }
    ensures left { OnOk result ((c : Image)
        → left_of device.new device.new.plan.calls c ↔ (c ≡ attached_image device.new)) }
    ensures fails { is_err result ≡ next_fails device.old.plan }
{
    device.barrier()
}
