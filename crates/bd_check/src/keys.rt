//! Whether a tree has what stands at the keys below a pager's root.

ghost use Rattle.std.specs.Prelude.{IfOk};
ghost use Rattle.bd_message.specs.KeyMaps.{HasMapCause, NeverWorn};
ghost use Rattle.bd_node.specs.Tables.{IsSound, root_at};
ghost use Rattle.bd_entries.specs.Verdicts.{IsVerdict};
ghost use Rattle.bd_pager.specs.Pagers.{is_bad, is_known, nodes_of, table_of, IsReadOf};
ghost use Rattle.bd_check.specs.Verdicts.{key_count_limit};

use bd_device::Device;
use bd_entries::{Entries, check_entries};
use bd_message::MapFault;
use bd_pager::Pager;
use bd_tree::Tree;
use std::alloc::Global;

// The most keys that are looked at.
const MAX_KEYS: u64 = 16_777_216;

/// Whether a tree has what stands at the keys below the root of a pager, where its nodes are sound;
/// its modes have to be 0 where there are no modes. At most 16,777,216 keys are looked at, the least
/// first. It returns the pager, whose nodes stay as they are. A fault is that of a scan, or
/// `NoMemory`.
pub fn check_keys<D: Device>(
    alloc: Global,
    pager: Pager<D>,
    has_modes: bool,
) -> (Pager<D>, Result<Entries, MapFault>)
    ensures verdict { is_known D.Device pager
        → IsSound (nodes_of D.Device pager) (table_of pager)
        → IfOk result.1 (IsVerdict has_modes
        (root_at (nodes_of D.Device pager) (table_of pager)) key_count_limit) }
    ensures left { IsReadOf D.Device pager result.0 }
    ensures cause { HasMapCause (D.fault_count pager.dev) (D.fault_count result.0.dev)
        (D.last_failed result.0.dev) (is_bad D.Device result.0) NeverWorn result.1 }
{
    let mut tree = Tree::over(alloc, pager);
    let found = check_entries(alloc, &mut tree, has_modes, MAX_KEYS);
    (tree.into_store(), found)
}
