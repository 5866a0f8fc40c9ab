//! What each writing command sends.

ghost use Rattle.std.specs.Prelude.{◌≡◌, List, IsTrue, IfOk};
ghost use Rattle.bd_command.specs.Command.{writes};
ghost use Rattle.bd_command.specs.declared.Command.{Command};
ghost use Rattle.bd_model.specs.Tree.{Tree, IsTree};
ghost use Rattle.bd_message.specs.declared.message.Message.{Message};
ghost use Rattle.bd_message.specs.KeyMaps.{At, HasMapCause, NeverWorn};
ghost use Rattle.bd_message.specs.Reads.{IsLeft};
ghost use Rattle.bd_represent.specs.Represents.{Represents};
ghost use Rattle.bd_files.specs.FilePlans as files;
ghost use Rattle.bd_dirs.specs.Sendings.{Batch, sending};
ghost use Rattle.bd_dirs.specs.Plans.{HasSize, IsPlan, IsReady, SendsMessages, IsPlanKind};

use crate::changes::{chmod, create, mkdir, remove};
use crate::moving::{clone_to, rename};
use crate::plan::Plan;
use bd_command::Command;
use bd_files::{FilePlan, plan_truncate, plan_write};
use bd_message::{KeyMap, MapFault};
use std::alloc::Global;

/// What a writing command comes to: the first refusal that holds, or what is to be done with the
/// key map. A write carries 1 to 2,048 bytes.
pub fn plan_command<M: KeyMap>(
    alloc: Global,
    m: &mut M,
    command: &Command,
) -> Result<Plan, MapFault>
    requires writes { IsTrue (writes command.now) }
    requires size { HasSize command.now }
    ensures plan { M.is_known m.old → (t : Tree) → IsTree t → Represents (M.has m.old) t
        → IfOk result (IsPlan (M.has m.old) t command.now) }
    ensures kind { IfOk result (IsPlanKind command.now) }
    ensures ready { IfOk result IsReady }
    ensures left { IsLeft M.KeyMap m.old m.new }
    ensures cause { HasMapCause (M.fault_count m.old) (M.fault_count m.new)
        (M.last_failed m.new) (M.bad m.new) NeverWorn result }
{
    match command {
        Command::Mkdir { path } => mkdir(alloc, m, path),
        Command::Create { path } => create(alloc, m, path),
        Command::Write { path, off, bytes } => {
            Ok(of_file(plan_write(alloc, m, path, *off, bytes.as_slice())?))
        }
        Command::Truncate { path, len } => Ok(of_file(plan_truncate(alloc, m, path, *len)?)),
        Command::Remove { path } => remove(alloc, m, path),
        Command::Rename { a, b } => rename(alloc, m, a, b),
        Command::Clone { a, b } => clone_to(alloc, m, a, b),
        Command::Chmod { path, mode } => chmod(alloc, m, path, *mode),
        Command::Read { .. } | Command::Stat { .. } | Command::List { .. } => unreachable!(),
    }
}

/// The plan of a file as one of a command.
fn of_file(plan: FilePlan) -> Plan
    ensures plan { (sent : List Message) (at : At) (t : Tree) (c : Command)
        → sending at t c ≡ Batch sent → files.IsFilePlan sent at t c plan → IsPlan at t c result }
    ensures kind { SendsMessages result }
    ensures ready { files.IsReady plan → IsReady result }
{
    match plan {
        FilePlan::Refused(refusal) => Plan::Refused(refusal),
        FilePlan::Apply(list) => Plan::Apply(list),
    }
}
