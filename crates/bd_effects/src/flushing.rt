//! The flush steps of a command, over any store.

ghost use Rattle.std.specs.Prelude.{◌≡◌, ◌≢◌, ◌≤◌, true, false, None, Ok};
ghost use Rattle.std.specs.Option.{option_copied};
ghost use Rattle.bd_message.specs.KeyMaps.{HasMapCause};
ghost use Rattle.bd_node.specs.Frames.{OfSound, OnlyReads, Stays};
ghost use Rattle.bd_path.specs.Made.{AreKnown};
ghost use Rattle.bd_view.specs.Trees.{waiting_limit, IsSourceFor, IsStepIn, IsStepFound, IsWornToStep, IsSettledIn};

use bd_command::Command;
use bd_limits::{LATE_ROOT, SOFT_BUFFER};
use bd_message::MapFault;
use bd_node::NodeStore;
use bd_tree::Tree;

/// Makes a flush step where more bytes wait in the root than the command's limit, and else, before a
/// graft, where 1,024 bytes or more wait for its source on the way of that, and says whether it made
/// one. A fault leaves all as it was.
pub fn flush<S: NodeStore>(
    tree: &mut Tree<S>,
    command: &Command,
    source: Option<&[u8]>,
) -> Result<bool, MapFault>
    requires source { IsSourceFor command.now (option_copied source) }
    ensures enough { result ≡ Ok false
        → (S.table tree.old.store).size ≤ waiting_limit command.now }
    ensures idle { (S.table tree.old.store).size ≤ waiting_limit command.now
        → option_copied source.entry ≡ None
        → (result ≡ Ok false) × (tree.new.store ≡ tree.old.store) }
    ensures found { result ≡ Ok true
        → IsStepFound command.now (S.table tree.old.store) (S.table tree.new.store) }
    ensures walk { tree.new.walk ≡ tree.old.walk }
    ensures stays { Stays S.NodeStore tree.old.store tree.new.store }
    ensures rest { result ≢ Ok true → OnlyReads S.NodeStore tree.old.store tree.new.store }
    ensures cause { HasMapCause (S.fault_count tree.old.store) (S.fault_count tree.new.store)
        (S.last_failed tree.new.store) (S.bad tree.new.store)
        (IsWornToStep (AreKnown S.NodeStore tree.old.store) (S.nodes tree.old.store)
        (S.table tree.old.store) command.now) result }

    // Where the nodes are known and sound.
    ensures step { OfSound S.NodeStore tree.old.store (result ≡ Ok true
        → IsStepIn command.now (S.nodes tree.old.store) (S.table tree.old.store)
        (S.nodes tree.new.store) (S.table tree.new.store)) }
    ensures settled { OfSound S.NodeStore tree.old.store (result ≡ Ok false
        → IsSettledIn (option_copied source.entry) (S.nodes tree.old.store)
        (S.table tree.old.store)) }
{
    if tree.flush_step(waiting_limit(command))? {
        return Ok(true);
    }
    match source {
        Some(source) => tree.settle_step(source),
        None => Ok(false),
    }
}

/// Up to how many bytes that wait in the root a command makes no flush step from there.
pub fn waiting_limit(command: &Command) -> usize
    ensures { result ≡ waiting_limit command.now }
{
    match command {
        Command::Truncate { .. } | Command::Remove { .. } => LATE_ROOT,
        Command::Mkdir { .. }
        | Command::Create { .. }
        | Command::Write { .. }
        | Command::Rename { .. }
        | Command::Clone { .. }
        | Command::Chmod { .. }
        | Command::Read { .. }
        | Command::Stat { .. }
        | Command::List { .. } => SOFT_BUFFER,
    }
}
