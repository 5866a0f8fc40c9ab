//! How a volume replays the commands of an image's log.

ghost use Rattle.std.specs.Prelude.{◌≡◌, ◌≢◌, ◌+◌, ◌^◌, ◌<◌, ◌≤◌, [], true, false, None, Ok, All, IfErr, OnOk};
ghost use Rattle.std.specs.Option.{option_copied};
ghost use Rattle.bd_limits.specs.Limits.{flush_limit};
ghost use Rattle.bd_command.specs.Log.{IsLogged};
ghost use Rattle.bd_model.specs.Tree.{Tree};
ghost use Rattle.bd_message.specs.KeyMaps.{SameAt, IsApplied, IsGrafted};
ghost use Rattle.bd_pager.specs.Pagers.{table_of};
ghost use Rattle.bd_represent.specs.Plans.{IsSmallBatch};
ghost use Rattle.bd_dirs.specs.Plans.{IsPlan, IsPlanKind, IsReady};
ghost use Rattle.bd_dirs.specs.Sendings.{Batch, Move};
ghost use Rattle.bd_dirs.specs.declared.plan.Plan.TheVariants as plan;
ghost use Rattle.bd_view.specs.Trees.{waiting_limit, IsSourceFor, IsSettledFor};
ghost use Rattle.bd_view.specs.Moves.{FlushesAgain, AreFlushedAgain};
ghost use Rattle.bd_engine.specs.Engines.{keys_of, flushes_after, IsSoundOn};
ghost use Rattle.bd_volume.specs.Volume.{view_of, without_walk, count_of, stop_of};
ghost use Rattle.bd_volume.specs.Replays.{ReplaysEarly, HasReplayCause, HasTreeOn, SendsAgain, HasFlushedAgain, ReplaysOn, IsFlushFault, IsAgainFault, IsSendFault, IsReplayFault, ReplaysFront, StopsReplaying, ShowsReplay};
ghost use Rattle.bd_volume.specs.Steps.{ShowsStep, ShowsFault};

use super::Volume;
use crate::fault::Fault;
use bd_checkpoint::PlacedCommand;
use bd_command::Command;
use bd_device::Device;
use bd_dirs::Plan;
use bd_effects::waiting_limit;
use bd_limits::MAX_FLUSHES;
use bd_message::{Counter, Message};

/// Whether a replay writes nodes.
#[derive(Clone, Copy)]
pub(crate) enum Replay {
    /// Changed nodes are written early, to slots that the last checkpoint doesn't hold.
    Spills,
    /// Nothing is written: all changed nodes stay in memory.
    WritesNothing,
}

impl<D: Device> Volume<D> {
    // Replays the commands of open batches, one after the other. No record waits again.
    pub(crate) fn replay(&mut self, how: Replay, commands: &[PlacedCommand]) -> Result<(), Fault>
        requires logged { All (λ p. IsLogged p.command) commands.now }
        requires going { stop_of self.old ≡ None }
        ensures replays { OnOk result
            (ReplaysFront D.Device commands.now [] self.old self.new) }
        ensures fails { IfErr result (λ fault.
            StopsReplaying D.Device fault commands.now self.old) }
        ensures shows { IfErr result (λ fault.
            ShowsReplay D.Device fault commands.now self.old self.new) }
        ensures writes { ReplaysEarly D.Device how self.old self.new result }
        ensures cause { HasReplayCause D.Device self.old self.new result }
    {
        for placed in commands {
            self.replay_one(how, placed)?;
        }
        Ok(())
    }

    // The same volume, of which no graft is told any more.
    pub(crate) fn forget_walk(self) -> Volume<D>
        ensures { result ≡ without_walk self }
    {
        let Volume { engine, count } = self;
        Volume {
            engine: engine.forget_walk(),
            count,
        }
    }

    // Replays a command: it is planned, makes its flush steps, and sends what it comes to.
    fn replay_one(&mut self, how: Replay, placed: &PlacedCommand) -> Result<(), Fault>
        requires logged { IsLogged placed.now.command }
        requires going { stop_of self.old ≡ None }
        ensures replays { (t : Tree) → HasTreeOn D.Device self.old t
            → OnOk result (ReplaysOn D.Device t placed.now.command self.old self.new) }
        ensures sound { IsSoundOn D.Device self.old.engine
            → IsSoundOn D.Device self.new.engine }
        ensures counts { OnOk result (count_of self.new ≡ count_of self.old + 1) }
        ensures fails { IfErr result (λ fault.
            IsReplayFault D.Device fault placed.now self.old) }
        ensures shows { IfErr result (λ fault. ShowsFault D.Device fault (count_of self.old)
            self.old.engine.flushes placed.now.command self.new.engine) }
        ensures few { self.new.engine.flushes ≤ self.old.engine.flushes + flush_limit }
        ensures writes { ReplaysEarly D.Device how self.old self.new result }
        ensures cause { HasReplayCause D.Device self.old self.new result }
    {
        if self.count == u64::MAX {
            return Err(Fault::Worn(Counter::Count));
        }
        let plan = self.engine.plan(&placed.command)?;
        self.send_planned(how, placed, plan)?;
        self.count += 1;
        Ok(())
    }

    // Does what is planned for a command of the log.
    fn send_planned(&mut self, how: Replay, placed: &PlacedCommand, plan: Plan) -> Result<(), Fault>
        requires logged { IsLogged placed.now.command }
        requires ready { IsReady plan }
        requires kind { IsPlanKind placed.now.command plan }
        requires going { stop_of self.old ≡ None }
        ensures replays { (t : Tree) → HasTreeOn D.Device self.old t
            → IsPlan (keys_of D.Device self.old.engine.pager) t placed.now.command plan
            → OnOk result (ReplaysOn D.Device t placed.now.command self.old self.new) }
        ensures sound { IsSoundOn D.Device self.old.engine
            → IsSoundOn D.Device self.new.engine }
        ensures fails { IfErr result (λ fault.
            IsSendFault D.Device fault placed.now plan self.old) }
        ensures shows { IfErr result (λ fault. ShowsFault D.Device fault (count_of self.old)
            self.old.engine.flushes placed.now.command self.new.engine) }
        ensures few { self.new.engine.flushes ≤ self.old.engine.flushes + flush_limit }
        ensures writes { ReplaysEarly D.Device how self.old self.new result }
        ensures cause { HasReplayCause D.Device self.old self.new result }
        ensures count_stays { count_of self.new ≡ count_of self.old }
    {
        match plan {
            Plan::Refused(_) => Err(Fault::Damaged {
                block: placed.block,
            }),
            Plan::Apply(list) => self.append_again(how, &placed.command, list.as_slice()),
            Plan::Graft { s, d, keep } => {
                self.graft_again(how, &placed.command, s.as_slice(), d.as_slice(), keep)
            }
        }
    }

    // Makes the flush steps of a command of the log, and puts its messages after those that wait in
    // the root.
    fn append_again(
        &mut self,
        how: Replay,
        command: &Command,
        list: &[Message],
    ) -> Result<(), Fault>
        requires logged { IsLogged command.now }
        requires small { IsSmallBatch list.now }
        requires going { stop_of self.old ≡ None }
        ensures sends { IsSoundOn D.Device self.old.engine → OnOk result (SendsAgain
            command.now (Batch list.now) (view_of D.Device self.old) (view_of D.Device self.new)) }
        ensures applied { IsSoundOn D.Device self.old.engine → OnOk result (IsApplied
            (keys_of D.Device self.old.engine.pager) list.now
            (keys_of D.Device self.new.engine.pager)) }
        ensures sound { IsSoundOn D.Device self.old.engine
            → IsSoundOn D.Device self.new.engine }
        ensures fails { IfErr result (λ fault.
            IsAgainFault D.Device fault command.now self.old) }
        ensures shows { IfErr result (λ fault. ShowsFault D.Device fault (count_of self.old)
            self.old.engine.flushes command.now self.new.engine) }
        ensures few { self.new.engine.flushes ≤ self.old.engine.flushes + flush_limit }
        ensures writes { ReplaysEarly D.Device how self.old self.new result }
        ensures cause { HasReplayCause D.Device self.old self.new result }
        ensures count_stays { count_of self.new ≡ count_of self.old }
    {
        self.flush_again(how, command, None)?;
        Ok(self.engine.append(list)?)
    }

    // Makes the flush steps of a command of the log, and its graft.
    fn graft_again(
        &mut self,
        how: Replay,
        command: &Command,
        s: &[u8],
        d: &[u8],
        keep: bool,
    ) -> Result<(), Fault>
        requires logged { IsLogged command.now }
        requires ready { IsReady (plan.Graft s.now d.now keep) }
        requires kind { IsPlanKind command.now (plan.Graft s.now d.now keep) }
        requires going { stop_of self.old ≡ None }
        ensures sends { IsSoundOn D.Device self.old.engine → OnOk result (SendsAgain
            command.now (Move s.now d.now keep) (view_of D.Device self.old)
            (view_of D.Device self.new)) }
        ensures grafted { IsSoundOn D.Device self.old.engine → OnOk result (IsGrafted
            (keys_of D.Device self.old.engine.pager) s.now d.now keep
            (keys_of D.Device self.new.engine.pager)) }
        ensures sound { IsSoundOn D.Device self.old.engine
            → IsSoundOn D.Device self.new.engine }
        ensures fails { IfErr result (λ fault.
            IsAgainFault D.Device fault command.now self.old) }
        ensures shows { IfErr result (λ fault. ShowsFault D.Device fault (count_of self.old)
            self.old.engine.flushes command.now self.new.engine) }
        ensures few { self.new.engine.flushes ≤ self.old.engine.flushes + flush_limit }
        ensures writes { ReplaysEarly D.Device how self.old self.new result }
        ensures cause { HasReplayCause D.Device self.old self.new result }
        ensures count_stays { count_of self.new ≡ count_of self.old }
    {
        self.flush_again(how, command, Some(s))?;
        Ok(self.engine.graft(s, d, keep)?)
    }

    // Makes flush steps while more bytes wait in the root than the limit of a command of the log, or
    // before a graft 1,024 bytes or more for its source on the way of that. They need no slots.
    fn flush_again(
        &mut self,
        how: Replay,
        command: &Command,
        source: Option<&[u8]>,
    ) -> Result<(), Fault>
        requires logged { IsLogged command.now }
        requires source { IsSourceFor command.now (option_copied source) }
        requires going { stop_of self.old ≡ None }
        ensures flushed { IsSoundOn D.Device self.old.engine → OnOk result
            (HasFlushedAgain command.now (option_copied source.entry) (view_of D.Device self.old)
            (view_of D.Device self.new)) }
        ensures same { IsSoundOn D.Device self.old.engine
            → SameAt (keys_of D.Device self.old.engine.pager)
            (keys_of D.Device self.new.engine.pager) }
        ensures sound { IsSoundOn D.Device self.old.engine
            → IsSoundOn D.Device self.new.engine }
        ensures fails { IfErr result (λ fault.
            IsAgainFault D.Device fault command.now self.old) }
        ensures shows { IfErr result (λ fault. ShowsFault D.Device fault (count_of self.old)
            self.old.engine.flushes command.now self.new.engine) }
        ensures few { self.new.engine.flushes ≤ self.old.engine.flushes + flush_limit }
        ensures enough { OnOk result
            ((table_of self.new.engine.pager).size ≤ waiting_limit command.now) }
        ensures writes { ReplaysEarly D.Device how self.old self.new result }
        ensures cause { HasReplayCause D.Device self.old self.new result }
        ensures count_stays { count_of self.new ≡ count_of self.old }
    {
        let _ = self.engine.flushes();
        for _made in 0..MAX_FLUSHES {
            if !self.flush_once(how, command, source)? {
                return Ok(());
            }
        }
        if self.engine.root_size() <= waiting_limit(command) {
            return Ok(());
        }
        Err(Fault::Worn(Counter::Flushes))
    }

    // Writes changed nodes early where it may, makes a flush step where more bytes wait in the root
    // than the limit of a command of the log, and else, before a graft, where 1,024 bytes or more
    // wait for its source on the way of that, and says whether it did.
    fn flush_once(
        &mut self,
        how: Replay,
        command: &Command,
        source: Option<&[u8]>,
    ) -> Result<bool, Fault>
        requires logged { IsLogged command.now }
        requires source { IsSourceFor command.now (option_copied source) }
        requires going { stop_of self.old ≡ None }
        ensures flushed { IsSoundOn D.Device self.old.engine → result ≡ Ok true
            → FlushesAgain command.now (view_of D.Device self.old) (view_of D.Device self.new) }
        ensures rest { IsSoundOn D.Device self.old.engine → result ≢ Ok true
            → view_of D.Device self.new ≡ view_of D.Device self.old }
        ensures settled { IsSoundOn D.Device self.old.engine → result ≡ Ok false
            → IsSettledFor (option_copied source.entry) (view_of D.Device self.new).tree }
        ensures same { IsSoundOn D.Device self.old.engine
            → SameAt (keys_of D.Device self.old.engine.pager)
            (keys_of D.Device self.new.engine.pager) }
        ensures sound { IsSoundOn D.Device self.old.engine
            → IsSoundOn D.Device self.new.engine }
        ensures fails { IfErr result (λ fault.
            IsFlushFault D.Device fault command.now self.old) }
        ensures shows { IfErr result (λ fault.
            ShowsStep D.Device fault command.now self.new.engine) }
        ensures counted { self.new.engine.flushes
            ≡ flushes_after self.old.engine.flushes result }
        ensures enough { result ≡ Ok false
            → (table_of self.new.engine.pager).size ≤ waiting_limit command.now }
        ensures writes { ReplaysEarly D.Device how self.old self.new result }
        ensures cause { HasReplayCause D.Device self.old self.new result }
        ensures count_stays { count_of self.new ≡ count_of self.old }
    {
        self.make_space(how)?;
        Ok(self.engine.flush(command, source)?)
    }

    // Writes changed nodes early, as `spill` does, where it may.
    fn make_space(&mut self, how: Replay) -> Result<(), Fault>
        requires { stop_of self.old ≡ None }
        ensures view { IsSoundOn D.Device self.old.engine
            → view_of D.Device self.new ≡ view_of D.Device self.old }
        ensures sound { IsSoundOn D.Device self.old.engine
            → IsSoundOn D.Device self.new.engine }
        ensures kind { IfErr result (λ fault. fault ≡ Fault.Device) }
        ensures writes { ReplaysEarly D.Device how self.old self.new result }
        ensures cause { HasReplayCause D.Device self.old self.new result }
        ensures flushes { self.new.engine.flushes ≡ self.old.engine.flushes }
        ensures count_stays { count_of self.new ≡ count_of self.old }
    {
        match how {
            Replay::Spills => self.spill(),
            Replay::WritesNothing => Ok(()),
        }
    }
}
