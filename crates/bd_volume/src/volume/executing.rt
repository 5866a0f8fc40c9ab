//! How a volume executes a command.

ghost use Rattle.std.specs.Prelude.{◌≡◌, ◌+◌, ◌≤◌, ℕ, false, None, IfOk, IfErr, OnOk, OnErr, IsTrue, IsSome};
ghost use Rattle.bd_command.specs.Command.{writes, accepted, IsCommand, IsReply};
ghost use Rattle.bd_command.specs.Log.{IsLogged};
ghost use Rattle.bd_model.specs.Tree.{Tree};
ghost use Rattle.bd_model.specs.Step.{step, refusal_of};
ghost use Rattle.bd_message.specs.KeyMaps.{IsApplied, IsGrafted};
ghost use Rattle.bd_represent.specs.Plans.{IsSmallBatch};
ghost use Rattle.bd_represent.specs.Represents.{Represents};
ghost use Rattle.bd_dirs.specs.Plans.{IsPlan, IsPlanKind, IsReady};
ghost use Rattle.bd_dirs.specs.Sendings.{Batch, Move};
ghost use Rattle.bd_dirs.specs.declared.plan.Plan.TheVariants as plan;
ghost use Rattle.bd_effects.specs.Carrying.{accepts, TakesStep};
ghost use Rattle.bd_view.specs.Moves.{HasStepped, IsAccepted};
ghost use Rattle.bd_engine.specs.Engines.{keys_of, IsSoundOn, IsReadOn};
ghost use Rattle.bd_volume.specs.Volume.{StandsFor, GoesBy, view_of, count_of, stop_of};
ghost use Rattle.bd_volume.specs.Steps.{Ends, ShowsFault, IsCommandFault, IsOfAccepted, LogsIn, KeepsStanding, HasLogged, TakesSafely};

use super::Volume;
use crate::fault::Fault;
use bd_command::{Command, Reply};
use bd_device::Device;
use bd_dirs::Plan;
use bd_message::Message;
use bd_view::laws::records_have_room;

impl<D: Device> Volume<D> {
    // Executes a command whose fields are within their limits, where the volume wasn't stopped.
    pub(crate) fn execute(&mut self, command: &Command) -> Result<Reply, Fault>
        requires limits { IsCommand command.now }
        requires going { stop_of self.old ≡ None }
        ensures step { IfOk result (λ reply. (t : Tree) (n : ℕ) → StandsFor D.Device self.old t n
            → StandsFor D.Device self.new (step t command.now).0 (n + accepted command.now reply)) }
        ensures replies { IfOk result (λ reply. (t : Tree) (n : ℕ)
            → StandsFor D.Device self.old t n → reply ≡ (step t command.now).1) }
        ensures stays { OnErr result ((t : Tree) (n : ℕ) → StandsFor D.Device self.old t n
            → StandsFor D.Device self.new t n) }
        ensures time { (t : Tree) (n : ℕ) → StandsFor D.Device self.old t n
            → GoesBy D.Device self.old self.new t n }
        ensures moved { IfOk result (λ reply. accepted command.now reply ≡ 1
            → (t : Tree) (n : ℕ) → StandsFor D.Device self.old t n
            → IsAccepted t command.now (view_of D.Device self.old) (view_of D.Device self.new)) }
        ensures unmoved { IfOk result (λ reply. accepted command.now reply ≡ 0
            → view_of D.Device self.new ≡ view_of D.Device self.old) }
        ensures begun { IsSoundOn D.Device self.old.engine → OnErr result
            (HasStepped command.now (view_of D.Device self.old) (view_of D.Device self.new)) }
        ensures fails { IsSoundOn D.Device self.old.engine → IfErr result (λ fault.
            IsCommandFault fault (count_of self.old) command.now
            (view_of D.Device self.old) (view_of D.Device self.new)) }
        ensures refused { OnErr result ((t : Tree) (n : ℕ) → StandsFor D.Device self.old t n
            → IsSome (refusal_of t command.now)
            → view_of D.Device self.new ≡ view_of D.Device self.old) }
        ensures accepting { IfErr result (λ fault. (t : Tree) (n : ℕ)
            → StandsFor D.Device self.old t n → IsOfAccepted fault t command.now) }

        // Whatever is known.
        ensures shows { IfErr result (λ fault. ShowsFault D.Device fault (count_of self.old)
            self.old.engine.flushes command.now self.new.engine) }
        ensures small { IfOk result IsReply }
        ensures counts { IfOk result (λ reply.
            count_of self.new ≡ count_of self.old + accepted command.now reply) }
        ensures count_stays { OnErr result (count_of self.new ≡ count_of self.old) }
        ensures ends { Ends D.Device self.old self.new result }
    {
        if !command.writes() {
            return self.answer(command);
        }
        let plan = self.plan(command)?;
        self.carry_out(command, plan)
    }

    // What a reading command is answered.
    fn answer(&mut self, command: &Command) -> Result<Reply, Fault>
        requires limits { IsCommand command.now }
        requires reads { writes command.now ≡ false }
        requires going { stop_of self.old ≡ None }
        ensures replies { IfOk result (λ reply. (t : Tree) (n : ℕ)
            → StandsFor D.Device self.old t n → reply ≡ (step t command.now).1) }
        ensures fails { IsSoundOn D.Device self.old.engine → IfErr result (λ fault.
            IsCommandFault fault (count_of self.old) command.now
            (view_of D.Device self.old) (view_of D.Device self.new)) }

        // Whatever is known.
        ensures read { IsReadOn D.Device self.old.engine self.new.engine }
        ensures shows { IfErr result (λ fault. ShowsFault D.Device fault (count_of self.old)
            self.old.engine.flushes command.now self.new.engine) }
        ensures accepting { IfErr result (λ fault. (t : Tree) → IsOfAccepted fault t command.now) }
        ensures small { IfOk result IsReply }
        ensures ends { Ends D.Device self.old self.new result }
        ensures count_stays { count_of self.new ≡ count_of self.old }
    {
        let answered = self.engine.answer(command);
        self.engine.sound_nodes_are_undamaged();
        Ok(answered?)
    }

    // What a writing command comes to.
    fn plan(&mut self, command: &Command) -> Result<Plan, Fault>
        requires limits { IsCommand command.now }
        requires writes { IsTrue (writes command.now) }
        requires going { stop_of self.old ≡ None }
        ensures plan { (t : Tree) (n : ℕ) → StandsFor D.Device self.old t n → IfOk result
            (IsPlan (keys_of D.Device self.old.engine.pager) t command.now) }
        ensures fails { IsSoundOn D.Device self.old.engine → IfErr result (λ fault.
            IsCommandFault fault (count_of self.old) command.now
            (view_of D.Device self.old) (view_of D.Device self.new)) }

        // Whatever is known.
        ensures kind { IfOk result (IsPlanKind command.now) }
        ensures ready { IfOk result IsReady }
        ensures read { IsReadOn D.Device self.old.engine self.new.engine }
        ensures shows { IfErr result (λ fault. ShowsFault D.Device fault (count_of self.old)
            self.old.engine.flushes command.now self.new.engine) }
        ensures accepting { IfErr result (λ fault. (t : Tree) → IsOfAccepted fault t command.now) }
        ensures ends { Ends D.Device self.old self.new result }
        ensures count_stays { count_of self.new ≡ count_of self.old }
    {
        let planned = self.engine.plan(command);
        self.engine.sound_nodes_are_undamaged();
        Ok(planned?)
    }

    // Does what is planned for a writing command, and answers it.
    fn carry_out(&mut self, command: &Command, plan: Plan) -> Result<Reply, Fault>
        requires logged { IsLogged command.now }
        requires ready { IsReady plan }
        requires kind { IsPlanKind command.now plan }
        requires going { stop_of self.old ≡ None }
        ensures step { IsSoundOn D.Device self.old.engine → (t : Tree)
            → Represents (keys_of D.Device self.old.engine.pager) t
            → IsPlan (keys_of D.Device self.old.engine.pager) t command.now plan
            → IfOk result (TakesStep t command.now (keys_of D.Device self.new.engine.pager)) }
        ensures moved { IsSoundOn D.Device self.old.engine → (t : Tree)
            → IsPlan (keys_of D.Device self.old.engine.pager) t command.now plan
            → IfOk result (λ reply. accepted command.now reply ≡ 1 → IsAccepted t command.now
            (view_of D.Device self.old) (view_of D.Device self.new)) }
        ensures safe { (t : Tree) (n : ℕ) → StandsFor D.Device self.old t n
            → IsPlan (keys_of D.Device self.old.engine.pager) t command.now plan
            → IfOk result (TakesSafely D.Device command.now self.old self.new t n) }
        ensures keeps { OnErr result (KeepsStanding D.Device self.old self.new) }
        ensures stepped { IsSoundOn D.Device self.old.engine → OnErr result
            (HasStepped command.now (view_of D.Device self.old) (view_of D.Device self.new)) }
        ensures sound { IsSoundOn D.Device self.old.engine
            → IsSoundOn D.Device self.new.engine }
        ensures fails { IsSoundOn D.Device self.old.engine → IfErr result (λ fault.
            IsCommandFault fault (count_of self.old) command.now
            (view_of D.Device self.old) (view_of D.Device self.new)) }

        // Whatever is known.
        ensures unmoved { IfOk result (λ reply. accepted command.now reply ≡ 0
            → view_of D.Device self.new ≡ view_of D.Device self.old) }
        ensures accepting { OnErr result (IsTrue (accepts plan)) }
        ensures shows { IfErr result (λ fault. ShowsFault D.Device fault (count_of self.old)
            self.old.engine.flushes command.now self.new.engine) }
        ensures small { IfOk result IsReply }
        ensures counts { IfOk result (λ reply.
            count_of self.new ≡ count_of self.old + accepted command.now reply) }
        ensures count_stays { OnErr result (count_of self.new ≡ count_of self.old) }
        ensures ends { Ends D.Device self.old self.new result }
    {
        match plan {
            Plan::Refused(refusal) => Ok(Reply::Refused(refusal)),
            Plan::Apply(list) => {
                self.send(command, list.as_slice())?;
                Ok(Reply::Done)
            }
            Plan::Graft { s, d, keep } => {
                self.graft(command, s.as_slice(), d.as_slice(), keep)?;
                Ok(Reply::Done)
            }
        }
    }

    // Makes the volume ready for a writing command, and puts its messages after those that wait in
    // the root.
    fn send(&mut self, command: &Command, list: &[Message]) -> Result<(), Fault>
        requires logged { IsLogged command.now }
        requires small { IsSmallBatch list.now }
        requires going { stop_of self.old ≡ None }
        ensures sends { IsSoundOn D.Device self.old.engine → OnOk result (LogsIn command.now
            (Batch list.now) (view_of D.Device self.old) (view_of D.Device self.new)) }
        ensures applied { IsSoundOn D.Device self.old.engine → OnOk result (IsApplied
            (keys_of D.Device self.old.engine.pager) list.now
            (keys_of D.Device self.new.engine.pager)) }
        ensures logged { OnOk result (HasLogged D.Device command.now self.old self.new) }
        ensures keeps { OnErr result (KeepsStanding D.Device self.old self.new) }
        ensures stepped { IsSoundOn D.Device self.old.engine → OnErr result
            (HasStepped command.now (view_of D.Device self.old) (view_of D.Device self.new)) }
        ensures sound { IsSoundOn D.Device self.old.engine
            → IsSoundOn D.Device self.new.engine }
        ensures fails { IsSoundOn D.Device self.old.engine → IfErr result (λ fault.
            IsCommandFault fault (count_of self.old) command.now
            (view_of D.Device self.old) (view_of D.Device self.new)) }

        // Whatever is known.
        ensures shows { IfErr result (λ fault. ShowsFault D.Device fault (count_of self.old)
            self.old.engine.flushes command.now self.new.engine) }
        ensures counts { OnOk result (count_of self.new ≡ count_of self.old + 1) }
        ensures count_stays { OnErr result (count_of self.new ≡ count_of self.old) }
        ensures ends { Ends D.Device self.old self.new result }
    {
        records_have_room();
        self.make_ready(command, None)?;
        let appended = self.engine.append(list);
        self.engine.sound_nodes_are_undamaged();
        appended?;
        self.engine.log(command);
        self.count += 1;
        Ok(())
    }

    // Makes the volume ready for a writing command, and makes its graft.
    fn graft(&mut self, command: &Command, s: &[u8], d: &[u8], keep: bool) -> Result<(), Fault>
        requires logged { IsLogged command.now }
        requires ready { IsReady (plan.Graft s.now d.now keep) }
        requires kind { IsPlanKind command.now (plan.Graft s.now d.now keep) }
        requires going { stop_of self.old ≡ None }
        ensures sends { IsSoundOn D.Device self.old.engine → OnOk result (LogsIn command.now
            (Move s.now d.now keep) (view_of D.Device self.old) (view_of D.Device self.new)) }
        ensures grafted { IsSoundOn D.Device self.old.engine → OnOk result (IsGrafted
            (keys_of D.Device self.old.engine.pager) s.now d.now keep
            (keys_of D.Device self.new.engine.pager)) }
        ensures logged { OnOk result (HasLogged D.Device command.now self.old self.new) }
        ensures keeps { OnErr result (KeepsStanding D.Device self.old self.new) }
        ensures stepped { IsSoundOn D.Device self.old.engine → OnErr result
            (HasStepped command.now (view_of D.Device self.old) (view_of D.Device self.new)) }
        ensures sound { IsSoundOn D.Device self.old.engine
            → IsSoundOn D.Device self.new.engine }
        ensures fails { IsSoundOn D.Device self.old.engine → IfErr result (λ fault.
            IsCommandFault fault (count_of self.old) command.now
            (view_of D.Device self.old) (view_of D.Device self.new)) }

        // Whatever is known.
        ensures shows { IfErr result (λ fault. ShowsFault D.Device fault (count_of self.old)
            self.old.engine.flushes command.now self.new.engine) }
        ensures counts { OnOk result (count_of self.new ≡ count_of self.old + 1) }
        ensures count_stays { OnErr result (count_of self.new ≡ count_of self.old) }
        ensures ends { Ends D.Device self.old self.new result }
    {
        records_have_room();
        self.make_ready(command, Some(s))?;
        let grafted = self.engine.graft(s, d, keep);
        self.engine.sound_nodes_are_undamaged();
        grafted?;
        self.engine.log(command);
        self.count += 1;
        Ok(())
    }
}
