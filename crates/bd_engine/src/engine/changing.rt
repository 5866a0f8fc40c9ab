//! What commands ask of an engine's nodes, and do to them.

ghost use Rattle.std.specs.Prelude.{◌≡◌, ◌≢◌, ◌≤◌, false, true, None, Ok, IsTrue, IfOk, IfErr, OnOk, OnErr};
ghost use Rattle.std.specs.Option.{option_copied};
ghost use Rattle.bd_limits.specs.Limits.{late_limit};
ghost use Rattle.bd_command.specs.Command.{writes, IsCommand, IsReply};
ghost use Rattle.bd_model.specs.Tree.{Tree, IsTree};
ghost use Rattle.bd_model.specs.Step.{step};
ghost use Rattle.bd_message.specs.KeyMaps.{NeverWorn, SameAt, IsApplied, IsGrafted};
ghost use Rattle.bd_represent.specs.Plans.{IsSmallBatch};
ghost use Rattle.bd_represent.specs.Represents.{Represents};
ghost use Rattle.bd_dirs.specs.Plans.{HasSize, IsPlan, IsPlanKind, IsReady};
ghost use Rattle.bd_dirs.specs.declared.plan.Plan.TheVariants as plan;
ghost use Rattle.bd_node.specs.Steps.{HasGrown};
ghost use Rattle.bd_graft.specs.Grafting.{IsWornForGraft, IsWornByGraft, OnWorn};
ghost use Rattle.bd_pager.specs.Pagers.{nodes_of, table_of};
ghost use Rattle.bd_recall.specs.Kept.{findings, KeepsWritten};
ghost use Rattle.bd_view.specs.Trees.{waiting_limit, IsSourceFor, IsStepFound, FlushesFor, IsSettledFor, HasAppended, HasGrafted, IsWalked};
ghost use Rattle.bd_engine.specs.Engines.{view_of, keys_of, IsSoundOn, flushes_after, HasCause, IsWornIn, IsReadOn, OnlyNodesOn};

use super::Engine;
use bd_command::{Command, Reply};
use bd_device::Device;
use bd_dirs::{Plan, plan_command};
use bd_effects::{answer, append, flush, graft};
use bd_message::{MapFault, Message};
use bd_recall::Recalled;

impl<D: Device> Engine<D> {
    /// What a reading command is answered. Only the device is read, and the view stays.
    pub fn answer(&mut self, command: &Command) -> Result<Reply, MapFault>
        requires limits { IsCommand command.now }
        requires reads { writes command.now ≡ false }
        ensures reply { IsSoundOn D.Device self.old → (t : Tree) → IsTree t
            → Represents (keys_of D.Device self.old.pager) t
            → IfOk result (λ reply. reply ≡ (step t command.now).1) }
        ensures small { IfOk result IsReply }
        ensures read { IsReadOn D.Device self.old self.new }
        ensures cause { HasCause D.Device self.old.pager self.new.pager NeverWorn result }
    {
        answer(self.alloc, &mut self.tree, command)
    }

    /// What a writing command comes to. Only the device is read, and the view stays.
    pub fn plan(&mut self, command: &Command) -> Result<Plan, MapFault>
        requires writes { IsTrue (writes command.now) }
        requires size { HasSize command.now }
        ensures plan { IsSoundOn D.Device self.old → (t : Tree) → IsTree t
            → Represents (keys_of D.Device self.old.pager) t
            → IfOk result (IsPlan (keys_of D.Device self.old.pager) t command.now) }
        ensures kind { IfOk result (IsPlanKind command.now) }
        ensures ready { IfOk result IsReady }
        ensures read { IsReadOn D.Device self.old self.new }
        ensures cause { HasCause D.Device self.old.pager self.new.pager NeverWorn result }
    {
        plan_command(self.alloc, &mut self.tree, command)
    }

    /// Makes a flush step of a writing command where more bytes wait in the root than its limit, and
    /// else, before a graft, where 1,024 bytes or more wait for its source on the way of that, and
    /// says whether it made one: the steps that were made are counted. What stands at the keys
    /// stays. It writes nothing, and a fault leaves the view.
    pub fn flush(&mut self, command: &Command, source: Option<&[u8]>) -> Result<bool, MapFault>
        requires writes { IsTrue (writes command.now) }
        requires source { IsSourceFor command.now (option_copied source) }
        ensures enough { result ≡ Ok false
            → (table_of self.old.pager).size ≤ waiting_limit command.now }
        ensures idle { (table_of self.old.pager).size ≤ waiting_limit command.now
            → option_copied source.entry ≡ None → result ≡ Ok false }
        ensures found { result ≡ Ok true
            → IsStepFound command.now (table_of self.old.pager) (table_of self.new.pager) }
        ensures counts { self.new.flushes ≡ flushes_after self.old.flushes result }
        ensures only { OnlyNodesOn D.Device self.old self.new }
        ensures walk { self.new.walk ≡ self.old.walk }
        ensures rest { result ≢ Ok true → IsReadOn D.Device self.old self.new }
        ensures cause { HasCause D.Device self.old.pager self.new.pager
            (IsWornIn D.Device self.old.pager command.now) result }

        // Where the nodes are known and sound.
        ensures flushes { IsSoundOn D.Device self.old → result ≡ Ok true
            → FlushesFor command.now (view_of D.Device self.old).tree
            (view_of D.Device self.new).tree }
        ensures settled { IsSoundOn D.Device self.old → result ≡ Ok false
            → IsSettledFor (option_copied source.entry) (view_of D.Device self.old).tree }
        ensures sound { IsSoundOn D.Device self.old → IsSoundOn D.Device self.new }
        ensures same { IsSoundOn D.Device self.old
            → SameAt (keys_of D.Device self.old.pager) (keys_of D.Device self.new.pager) }
    {
        self.tree.map.store().nodes_are_placed();
        let flushed = flush(&mut self.tree.map, command, source);
        self.flushes = flushes_after(self.flushes, &flushed);
        self.tree.map.store().nodes_are_placed();
        flushed
    }

    /// Puts messages after those that wait in the root, where at most 24,576 bytes do. It writes
    /// nothing, and a fault leaves the view.
    pub fn append(&mut self, list: &[Message]) -> Result<(), MapFault>
        requires small { IsSmallBatch list.now }
        requires room { (table_of self.old.pager).size ≤ late_limit }
        ensures table { OnOk result
            (HasGrown (table_of self.old.pager) list.now (table_of self.new.pager)) }
        ensures only { OnlyNodesOn D.Device self.old self.new }
        ensures walk { self.new.walk ≡ self.old.walk }
        ensures flushes { self.new.flushes ≡ self.old.flushes }
        ensures err { OnErr result (IsReadOn D.Device self.old self.new) }
        ensures cause { HasCause D.Device self.old.pager self.new.pager NeverWorn result }

        // Where the nodes are known and sound.
        ensures appended { IsSoundOn D.Device self.old → OnOk result
            (HasAppended list.now (view_of D.Device self.old).tree
            (view_of D.Device self.new).tree) }
        ensures applied { IsSoundOn D.Device self.old → OnOk result (IsApplied
            (keys_of D.Device self.old.pager) list.now (keys_of D.Device self.new.pager)) }
        ensures sound { IsSoundOn D.Device self.old → IsSoundOn D.Device self.new }
    {
        self.tree.map.store().nodes_are_placed();
        let appended = append(&mut self.tree.map, list);
        follow(&mut self.tree.recalled, list, &appended);
        self.tree.map.store().nodes_are_placed();
        appended
    }

    /// Makes a graft, where at most 24,576 bytes wait in the root. It writes nothing, and a fault
    /// leaves the view.
    pub fn graft(&mut self, s: &[u8], d: &[u8], keep: bool) -> Result<(), MapFault>
        requires ready { IsReady (plan.Graft s.now d.now keep) }
        requires room { (table_of self.old.pager).size ≤ late_limit }
        ensures walked { OnOk result
            (IsWalked (table_of self.old.pager) (table_of self.new.pager) self.new.walk) }
        ensures only { OnlyNodesOn D.Device self.old self.new }
        ensures flushes { self.new.flushes ≡ self.old.flushes }
        ensures err { OnErr result (IsReadOn D.Device self.old self.new) }
        ensures cause { HasCause D.Device self.old.pager self.new.pager
            (IsWornForGraft (table_of self.old.pager)) result }

        // Where the nodes are known and sound.
        ensures grafts { IsSoundOn D.Device self.old → OnOk result
            (HasGrafted s.now d.now keep (view_of D.Device self.old).tree
            (view_of D.Device self.new).tree) }
        ensures grafted { IsSoundOn D.Device self.old → OnOk result (IsGrafted
            (keys_of D.Device self.old.pager) s.now d.now keep
            (keys_of D.Device self.new.pager)) }
        ensures sound { IsSoundOn D.Device self.old → IsSoundOn D.Device self.new }
        ensures worn { IsSoundOn D.Device self.old → IfErr result (OnWorn (IsWornByGraft
            (nodes_of D.Device self.old.pager) (table_of self.old.pager)
            s.now d.now keep)) }
    {
        self.tree.map.store().nodes_are_placed();
        self.tree.recalled.forget_grafted(s, d, keep);
        let grafted = graft(&mut self.tree.map, s, d, keep);
        self.tree.map.store().nodes_are_placed();
        grafted
    }
}

// How many flush steps were made after a call that says whether it made one.
fn flushes_after(before: u64, flushed: &Result<bool, MapFault>) -> u64
    ensures { result ≡ flushes_after before flushed.now }
{
    let Ok(true) = flushed else {
        return before;
    };
    before.saturating_add(1)
}

// Keeps what is known of look-ups after messages, where they were put.
fn follow(recalled: &mut Recalled, list: &[Message], appended: &Result<(), MapFault>)
    ensures put { OnOk appended.now
        (KeepsWritten (findings recalled.old) list.now (findings recalled.new)) }
    ensures failed { OnErr appended.now (findings recalled.new ≡ findings recalled.old) }
{
    if appended.is_ok() {
        recalled.follow(list);
    }
}
