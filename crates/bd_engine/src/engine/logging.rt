//! The log of an engine.

ghost use Rattle.std.specs.Prelude.{◌≡◌, ◌≤◌, ◌++◌, [], ◌∷◌, take, length, None, IsTrue, OnOk, OnErr, is_ok};
ghost use Rattle.bd_command.specs.Log.{IsLogged, log_record};
ghost use Rattle.bd_device.specs.Blocks.{Image};
ghost use Rattle.bd_device.specs.Calls.{faults_after};
ghost use Rattle.bd_device.specs.Device.{left_now, Goes, Stays, FailsLast};
ghost use Rattle.bd_log.specs.Batches.{IsLogRecord};
ghost use Rattle.bd_log.specs.Logs.{room_left, after_sync};
ghost use Rattle.bd_checkpoint.specs.Kept.{IsWithWaiting, IsWithAllOrNone};
ghost use Rattle.bd_view.specs.Moves.{logged, synced};
ghost use Rattle.bd_view.specs.Views.{log_size, record_room};
ghost use Rattle.bd_engine.specs.Engines.{view_of, stop_by, IsStopped, KeepsNodesOn};

use super::Engine;
use bd_checkpoint::sync_by;
use bd_command::laws::log_records_fit;
use bd_command::{Command, MAX_RECORD};
use bd_device::Device;
use bd_io::Failed;
use bd_log::Log;
use bd_pager::Pager;
use bd_view::laws::logs_have_the_same_numbers;
use bd_wire::Out;

impl<D: Device> Engine<D> {
    /// Appends a command's record to the log, where there is room for it: it waits for the next
    /// sync. It takes no memory.
    pub fn log(&mut self, command: &Command)
        requires logged { IsLogged command.now }
        requires room { log_size command.now ≤ record_room command.now (view_of D.Device self.old) }
        ensures view { view_of D.Device self.new ≡ logged command.now (view_of D.Device self.old) }
        ensures log { self.new ≡ record self.old {
          log = record self.old.log {
            waiting = self.old.log.waiting ++ log_record command.now ∷ [];
          };
        } }
    {
        append_record(&mut self.log, command);
    }

    /// Commits the records that wait in the log. With none waiting it makes no call of the device.
    /// An image that a crash inside it leaves stands for what one of before stood for, or for that
    /// with the records that waited; one that a crash after it leaves, once it is Ok, for the
    /// latter. It takes no memory. `Failed` comes only where a call of the device failed, which is
    /// the last one then and stops the engine; the records then still wait.
    pub fn sync(&mut self) -> Result<(), Failed>
        requires going { self.old.stop ≡ None }
        ensures view { OnOk result
            (view_of D.Device self.new ≡ synced (view_of D.Device self.old)) }
        ensures err { OnErr result (view_of D.Device self.new ≡ view_of D.Device self.old) }
        ensures log { OnOk result (self.new.log ≡ after_sync self.old.log) }
        ensures same_log { OnErr result (self.new.log ≡ self.old.log) }
        ensures nodes { KeepsNodesOn D.Device self.old self.new }

        // What a crash leaves, inside it and after it.
        ensures time { Goes D.Device self.old.pager.dev self.new.pager.dev (IsWithAllOrNone
            self.old.live self.old.log (left_now D.Device self.old.pager.dev)) }
        ensures kept { OnOk result ((c : Image) → left_now D.Device self.new.pager.dev c
            → IsWithWaiting self.old.live self.old.log (left_now D.Device self.old.pager.dev) c) }

        // Whatever is known.
        ensures idle { (view_of D.Device self.old).waiting ≡ 0
            → self.new.pager.dev ≡ self.old.pager.dev }
        ensures idle_ok { (view_of D.Device self.old).waiting ≡ 0 → IsTrue (is_ok result) }
        ensures goes { OnOk result (self.new.stop ≡ None) }
        ensures stop { OnErr result (IsStopped D.Device self.old self.new) }
        ensures cause { FailsLast D.Device self.old.pager.dev self.new.pager.dev result }
        ensures write_faults { D.write_fault_count self.new.pager.dev
            ≡ faults_after (D.write_fault_count self.old.pager.dev) result }
        ensures stays { Stays D.Device self.old.pager.dev self.new.pager.dev }
    {
        logs_have_the_same_numbers();
        let synced = sync_by(self.tree.map.store_mut(), &mut self.log);
        self.stop = stop_by(self.tree.map.store(), &synced);
        synced
    }
}

// The number of the device's last call, where that call, a write or a barrier, failed.
pub(super) fn stop_by<D: Device>(pager: &Pager<D>, done: &Result<(), Failed>) -> Option<u64>
    ensures { result ≡ stop_by (D.call_count pager.now.dev) done.now }
{
    match done {
        Ok(()) => None,
        Err(Failed) => Some(pager.calls()),
    }
}

// Appends a command's record to a log.
fn append_record(log: &mut Log, command: &Command)
    requires logged { IsLogged command.now }
    requires room { log_size command.now ≤ room_left log.old }
    ensures log { log.new ≡ record log.old {
      waiting = log.old.waiting ++ log_record command.now ∷ [];
    } }
    ensures is_record { IsLogRecord (log_record command.now) }
{
    let mut array = [0; MAX_RECORD];
    write_record(command, &mut array);
    log.append(&array[..command.log_size()]);
}

// Writes a command's record into an array.
fn write_record(command: &Command, array: &mut [u8; MAX_RECORD])
    requires { IsLogged command.now }
    ensures record { take (log_size command.now) array.new ≡ log_record command.now }
    ensures is_record { IsLogRecord (log_record command.now) }
    ensures fits { log_size command.now ≤ length array.new }
{
    log_records_fit();
    let mut out = Out::new(array);
    command.log_write(&mut out);
}
