//! What a reading command is answered, over any key map.

ghost use Rattle.std.specs.Prelude.{◌≡◌, false, IfOk};
ghost use Rattle.bd_command.specs.Command.{writes, IsCommand, IsReply};
ghost use Rattle.bd_model.specs.Tree.{Tree, IsTree};
ghost use Rattle.bd_model.specs.Step.{step};
ghost use Rattle.bd_message.specs.KeyMaps.{HasMapCause, NeverWorn};
ghost use Rattle.bd_message.specs.Reads.{IsLeft};
ghost use Rattle.bd_represent.specs.Represents.{Represents};

use bd_command::{Command, Reply};
use bd_dirs::{list, stat};
use bd_files::read;
use bd_message::MapFault;
use bd_scan::Scan;
use std::alloc::Global;

/// What a reading command is answered, over any key map.
pub fn answer<M: Scan>(alloc: Global, m: &mut M, command: &Command) -> Result<Reply, MapFault>
    requires limits { IsCommand command.now }
    requires reads { writes command.now ≡ false }
    ensures reply { M.is_known m.old → (t : Tree) → IsTree t → Represents (M.has m.old) t
        → IfOk result (λ reply. reply ≡ (step t command.now).1) }
    ensures small { IfOk result IsReply }
    ensures left { IsLeft M.KeyMap m.old m.new }
    ensures cause { HasMapCause (M.fault_count m.old) (M.fault_count m.new)
        (M.last_failed m.new) (M.bad m.new) NeverWorn result }
{
    match command {
        Command::Read { path, off, len } => read(alloc, m, path, *off, *len),
        Command::Stat { path } => stat(alloc, m, path),
        Command::List { path, after } => list(alloc, m, path, after.as_ref()),
        Command::Mkdir { .. }
        | Command::Create { .. }
        | Command::Write { .. }
        | Command::Truncate { .. }
        | Command::Remove { .. }
        | Command::Rename { .. }
        | Command::Clone { .. }
        | Command::Chmod { .. } => unreachable!(),
    }
}
