//! How a pager writes its nodes for the next checkpoint.

ghost use Rattle.std.specs.Prelude.{◌≡◌, ◌+◌, ◌≤◌, None, Err, length, IfOk};
ghost use Rattle.bd_limits.specs.Limits.{slot_limit};
ghost use Rattle.bd_slots.specs.Layout.{image_blocks, table_length};
ghost use Rattle.bd_device.specs.Device.{HasImageCause};
ghost use Rattle.bd_device.specs.declared.fault.ImageFault.TheVariants.{DeviceFault, NoMemory};
ghost use Rattle.bd_node.specs.Tables.{kept_count};
ghost use Rattle.bd_pager.specs.Counting.{changed_of, free_of};
ghost use Rattle.bd_pager.specs.Moving.{Spills};
ghost use Rattle.bd_pager.specs.Pagers.{table_of};
ghost use Rattle.bd_pager.specs.WritingOut.{write_faults_after, IsWrittenOut};

use super::Pager;
use crate::draft::Draft;
use crate::writing_all::write_all;
use bd_device::{Device, ImageFault};
use bd_io::Failed;
use bd_keys::Items;
use bd_slots::table_length;

impl<D: Device> Pager<D> {
    /// Writes all that the next checkpoint needs but its superblock: each node that is in memory
    /// to a slot of its own, and then the table of all nodes to slots that it returns.
    /// `mark_saved` may follow once a superblock with these slots is published. Nothing that is
    /// seen changes, also where it fails, and it writes without a barrier to slots alone that the
    /// last checkpoint doesn't hold. There have to be at most 65,536 slots, and of those that it
    /// doesn't hold as many as nodes were changed or made and as the table takes. `DeviceFault`
    /// comes only where a call of the device failed, which is the last one then, and nothing is
    /// ready after it. `NoMemory` comes before the first write, and leaves all as it was. It takes
    /// the time of all nodes and slots.
    pub fn write_out(&mut self) -> Result<Items<u32>, ImageFault>
        requires size { D.block_count self.old.dev ≡ image_blocks (length self.old.spare) }
        requires slots { length self.old.spare ≤ slot_limit }
        requires room { changed_of self.old + table_length (kept_count (table_of self.old))
            ≤ free_of self.old }
        ensures spills { Spills D.Device self.old self.new }
        ensures written { IfOk result (λ at. IsWrittenOut (D.contents self.new.dev) at self.new) }
        ensures no_memory { result ≡ Err NoMemory → self.new ≡ self.old }
        ensures failed { result ≡ Err DeviceFault → self.new.written ≡ None }
        ensures cause { HasImageCause D.Device self.old.dev self.new.dev (λ _. ⊥) result }
        ensures write_faults { D.write_fault_count self.new.dev
            ≡ write_faults_after (D.write_fault_count self.old.dev) result }
    {
        let spots = &self.reader.spots;
        let taken = table_length(spots.len());
        let Ok(draft) = Draft::new(self.alloc, spots, taken, self.usage.spare.count()) else {
            return Err(ImageFault::NoMemory);
        };
        self.written = None;
        match write_all(
            &mut self.reader,
            &mut self.usage,
            self.root,
            self.next,
            draft,
        ) {
            Ok((written, at)) => {
                self.written = Some(written);
                Ok(at)
            }
            Err(Failed) => Err(ImageFault::DeviceFault),
        }
    }
}
