//! How a volume is made ready for a writing command.

ghost use Rattle.std.specs.Prelude.{◌≡◌, ◌≢◌, ◌+◌, ◌^◌, ◌<◌, ◌≤◌, ◌⊎◌, true, false, None, Ok, IfErr, OnOk};
ghost use Rattle.std.specs.Option.{option_copied};
ghost use Rattle.bd_command.specs.Log.{IsLogged};
ghost use Rattle.bd_pager.specs.Pagers.{table_of};
ghost use Rattle.bd_view.specs.Trees.{waiting_limit, IsSourceFor, IsSettledFor};
ghost use Rattle.bd_view.specs.Views.{free_slots, need_slots};
ghost use Rattle.bd_view.specs.Moves.{AreSteps, HasStepped, CannotSave};
ghost use Rattle.bd_pager.specs.Counting.{memory_of, IsFull};
ghost use Rattle.bd_engine.specs.Engines.{flushes_after, memory_limit, IsSoundOn};
ghost use Rattle.bd_volume.specs.Volume.{view_of, count_of, stop_of};
ghost use Rattle.bd_volume.specs.Steps.{Ends, ShowsStep, ShowsFault, KeepsStanding, HasLogRoom, HasSettled, IsStepFault, IsCommandFault};

use super::Volume;
use crate::fault::Fault;
use bd_command::Command;
use bd_device::Device;
use bd_effects::waiting_limit;
use bd_limits::MAX_FLUSHES;
use bd_message::Counter;
use bd_view::laws::records_have_room;

impl<D: Device> Volume<D> {
    // Makes the volume ready for a writing command that is accepted: one more can be counted, the
    // log has room for its record, flush steps are made while more bytes wait in the root than the
    // command's limit, or before a graft 1,024 bytes or more for its source on the way of that, and
    // slots are free for what it sends.
    pub(crate) fn make_ready(
        &mut self,
        command: &Command,
        source: Option<&[u8]>,
    ) -> Result<(), Fault>
        requires logged { IsLogged command.now }
        requires source { IsSourceFor command.now (option_copied source) }
        requires going { stop_of self.old ≡ None }
        ensures stepped { IsSoundOn D.Device self.old.engine → HasStepped command.now
            (view_of D.Device self.old) (view_of D.Device self.new) }
        ensures settled { IsSoundOn D.Device self.old.engine → OnOk result (HasSettled command.now
            (option_copied source.entry) (view_of D.Device self.old) (view_of D.Device self.new)) }
        ensures sound { IsSoundOn D.Device self.old.engine
            → IsSoundOn D.Device self.new.engine }
        ensures keeps { KeepsStanding D.Device self.old self.new }
        ensures fails { IsSoundOn D.Device self.old.engine → IfErr result (λ fault.
            IsCommandFault fault (count_of self.old) command.now
            (view_of D.Device self.old) (view_of D.Device self.new)) }

        // Whatever is known.
        ensures enough { OnOk result
            ((table_of self.new.engine.pager).size ≤ waiting_limit command.now) }
        ensures room { OnOk result (need_slots command.now (view_of D.Device self.new)
            ≤ free_slots (view_of D.Device self.new)) }
        ensures counts { OnOk result (count_of self.old + 1 < 2 ^ 64) }
        ensures log { OnOk result (HasLogRoom command.now (view_of D.Device self.new)) }
        ensures shows { IfErr result (λ fault. ShowsFault D.Device fault (count_of self.old)
            self.old.engine.flushes command.now self.new.engine) }
        ensures ends { Ends D.Device self.old self.new result }
        ensures count_stays { count_of self.new ≡ count_of self.old }
    {
        if self.count == u64::MAX {
            return Err(Fault::Worn(Counter::Count));
        }
        let _ = self.engine.flushes();
        self.make_log_room(command)?;
        for _made in 0..MAX_FLUSHES {
            if !self.flush_step(command, source)? {
                return Ok(());
            }
        }
        self.make_room(command)?;
        if self.engine.root_size() <= waiting_limit(command) {
            return Ok(());
        }
        Err(Fault::Worn(Counter::Flushes))
    }

    // Makes sure that the log has room for a command's record, by a checkpoint.
    fn make_log_room(&mut self, command: &Command) -> Result<(), Fault>
        requires logged { IsLogged command.now }
        requires going { stop_of self.old ≡ None }
        ensures steps { IsSoundOn D.Device self.old.engine
            → AreSteps command.now 0 (view_of D.Device self.old) (view_of D.Device self.new) }
        ensures sound { IsSoundOn D.Device self.old.engine
            → IsSoundOn D.Device self.new.engine }
        ensures keeps { KeepsStanding D.Device self.old self.new }
        ensures fails { IsSoundOn D.Device self.old.engine → IfErr result (λ fault.
            IsStepFault fault command.now (view_of D.Device self.new)) }

        // Whatever is known.
        ensures log { OnOk result (HasLogRoom command.now (view_of D.Device self.new)) }
        ensures shows { IfErr result (λ fault.
            ShowsStep D.Device fault command.now self.new.engine) }
        ensures flushes { self.new.engine.flushes ≡ self.old.engine.flushes }
        ensures ends { Ends D.Device self.old self.new result }
        ensures count_stays { count_of self.new ≡ count_of self.old }
    {
        if command.log_size() <= self.engine.record_room(command) {
            return Ok(());
        }
        if self.engine.free() < self.engine.save_need() {
            return Err(Fault::Full {
                free: self.engine.free(),
                need: self.engine.need(command),
            });
        }
        records_have_room();
        self.save()
    }

    // Makes room for a flush step, and makes it where more bytes wait in the root than the command's
    // limit, and else, before a graft, where 1,024 bytes or more wait for its source on the way of
    // that, and says whether it did.
    fn flush_step(&mut self, command: &Command, source: Option<&[u8]>) -> Result<bool, Fault>
        requires logged { IsLogged command.now }
        requires source { IsSourceFor command.now (option_copied source) }
        requires going { stop_of self.old ≡ None }
        ensures flushed { IsSoundOn D.Device self.old.engine → result ≡ Ok true
            → AreSteps command.now 1 (view_of D.Device self.old) (view_of D.Device self.new) }
        ensures rest { IsSoundOn D.Device self.old.engine → result ≢ Ok true
            → AreSteps command.now 0 (view_of D.Device self.old) (view_of D.Device self.new) }
        ensures settled { IsSoundOn D.Device self.old.engine → result ≡ Ok false
            → IsSettledFor (option_copied source.entry) (view_of D.Device self.new).tree }
        ensures sound { IsSoundOn D.Device self.old.engine
            → IsSoundOn D.Device self.new.engine }
        ensures keeps { KeepsStanding D.Device self.old self.new }
        ensures fails { IsSoundOn D.Device self.old.engine → IfErr result (λ fault.
            IsStepFault fault command.now (view_of D.Device self.new)) }

        // Whatever is known.
        ensures enough { result ≡ Ok false
            → (table_of self.new.engine.pager).size ≤ waiting_limit command.now }
        ensures room { result ≡ Ok false → need_slots command.now (view_of D.Device self.new)
            ≤ free_slots (view_of D.Device self.new) }
        ensures log { HasLogRoom command.now (view_of D.Device self.old)
            → HasLogRoom command.now (view_of D.Device self.new) }
        ensures shows { IfErr result (λ fault.
            ShowsStep D.Device fault command.now self.new.engine) }
        ensures counted { self.new.engine.flushes
            ≡ flushes_after self.old.engine.flushes result }
        ensures ends { Ends D.Device self.old self.new result }
        ensures count_stays { count_of self.new ≡ count_of self.old }
    {
        self.make_room(command)?;
        let flushed = self.engine.flush(command, source);
        self.engine.sound_nodes_are_undamaged();
        Ok(flushed?)
    }

    // Makes sure that slots are free for the next step of a command, and that few changed nodes are
    // in memory.
    fn make_room(&mut self, command: &Command) -> Result<(), Fault>
        requires logged { IsLogged command.now }
        requires going { stop_of self.old ≡ None }
        ensures steps { IsSoundOn D.Device self.old.engine
            → AreSteps command.now 0 (view_of D.Device self.old) (view_of D.Device self.new) }
        ensures sound { IsSoundOn D.Device self.old.engine
            → IsSoundOn D.Device self.new.engine }
        ensures keeps { KeepsStanding D.Device self.old self.new }
        ensures fails { IsSoundOn D.Device self.old.engine → IfErr result (λ fault.
            IsStepFault fault command.now (view_of D.Device self.new)) }

        // Whatever is known.
        ensures few { OnOk result ((memory_of self.new.engine.pager ≤ memory_limit)
            ⊎ IsFull self.new.engine.pager) }
        ensures room { OnOk result (need_slots command.now (view_of D.Device self.new)
            ≤ free_slots (view_of D.Device self.new)) }
        ensures log { HasLogRoom command.now (view_of D.Device self.old)
            → HasLogRoom command.now (view_of D.Device self.new) }
        ensures shows { IfErr result (λ fault.
            ShowsStep D.Device fault command.now self.new.engine) }
        ensures flushes { self.new.engine.flushes ≡ self.old.engine.flushes }
        ensures ends { Ends D.Device self.old self.new result }
        ensures count_stays { count_of self.new ≡ count_of self.old }
    {
        self.save_if_short(command)?;
        self.spill()?;
        let (free, need) = (self.engine.free(), self.engine.need(command));
        if free < need {
            return Err(Fault::Full { free, need });
        }
        Ok(())
    }

    // Makes a checkpoint where too few slots are free for the next step of a command and it can make
    // more free.
    fn save_if_short(&mut self, command: &Command) -> Result<(), Fault>
        requires logged { IsLogged command.now }
        requires going { stop_of self.old ≡ None }
        ensures steps { IsSoundOn D.Device self.old.engine
            → AreSteps command.now 0 (view_of D.Device self.old) (view_of D.Device self.new) }
        ensures sound { IsSoundOn D.Device self.old.engine
            → IsSoundOn D.Device self.new.engine }
        ensures keeps { KeepsStanding D.Device self.old self.new }
        ensures fails { IsSoundOn D.Device self.old.engine → IfErr result (λ fault.
            IsStepFault fault command.now (view_of D.Device self.new)) }

        // Whatever is known.
        ensures room { OnOk result ((need_slots command.now (view_of D.Device self.new)
            ≤ free_slots (view_of D.Device self.new)) ⊎ CannotSave (view_of D.Device self.new)) }
        ensures log { HasLogRoom command.now (view_of D.Device self.old)
            → HasLogRoom command.now (view_of D.Device self.new) }
        ensures shows { IfErr result (λ fault.
            ShowsStep D.Device fault command.now self.new.engine) }
        ensures flushes { self.new.engine.flushes ≡ self.old.engine.flushes }
        ensures ends { Ends D.Device self.old self.new result }
        ensures count_stays { count_of self.new ≡ count_of self.old }
    {
        if self.engine.need(command) <= self.engine.free() {
            return Ok(());
        }
        if !self.can_save() {
            return Ok(());
        }
        records_have_room();
        self.save()
    }
}
