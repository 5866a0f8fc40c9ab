//! How what is kept changes: all of a step or nothing.

ghost use Rattle.std.specs.Prelude.{◌≡◌, ℕ, ◌+◌, ◌≤◌, ◌^◌, false, [], ◌==◌, if◌then◌else◌, OnOk, OnErr, IfOk};
ghost use Rattle.bd_message.specs.KeyMaps.{HasMapCause, NeverWorn};
ghost use Rattle.bd_node.specs.declared.node.Node.{Node};
ghost use Rattle.bd_node.specs.Nodes.{appended};
ghost use Rattle.bd_node.specs.Pushes.{IsPush, CanPush, HasPushed, IsPushed};
ghost use Rattle.bd_node.specs.Stores.{FitsRoot};
ghost use Rattle.bd_node.specs.Steps.{IsStep, StayAbove, IsTableAfter, IsCommitted, IsWornBy, IsWornByAdding, IsRootOf, append_step, extend_step, grown};
ghost use Rattle.std.specs.HashMap.{spare};
ghost use Rattle.bd_memnodes.specs.Maps.{nodes_in, count_in};
ghost use Rattle.bd_memnodes.specs.Stored.{table_in, HasMemory, IsWhole};
ghost use Rattle.bd_memnodes.specs.Carried.{IsPlanOf, IsAdditionOf, IsStepOf, SameKept};

use crate::kept::Kept;
use crate::plan::{Addition, Plan, check_counts, exchanges};
use bd_message::{Counter, MapFault, Message};
use bd_node::{Messages, Node, Nodes, Push, Step};
use std::alloc::{AllocError, Global};
use std::collections::HashMap;
use std::rc::Rc;

impl Kept {
    /// Makes a step, or leaves all as it is.
    pub fn commit(&mut self, alloc: Global, step: Step) -> Result<(), MapFault>
        requires whole { IsWhole self.old }
        requires step { IsStep (table_in self.old) step }
        requires above { StayAbove (nodes_in self.old.nodes) (table_in self.old) step }
        ensures committed { OnOk result (IsCommitted (nodes_in self.old.nodes)
            (table_in self.old) step (nodes_in self.new.nodes) (table_in self.new)) }
        ensures table { OnOk result (IsTableAfter (table_in self.old) step (table_in self.new)) }
        ensures whole { IsWhole self.new }
        ensures err { OnErr result (SameKept self.old self.new) }
        ensures cause { HasMapCause 0 0 false (λ _. ⊥) (IsWornBy (table_in self.old) step) result }
    {
        let plan = self.planned(alloc, step)?;
        self.make_room(plan.made.len(), plan.changes.len())?;
        self.carry_out(plan);
        Ok(())
    }

    // The plan of a step for which each counter has room.
    fn planned(&self, alloc: Global, step: Step) -> Result<Plan, MapFault>
        ensures plan { IfOk result (λ plan. IsPlanOf self.now step plan) }
        ensures cause { HasMapCause 0 0 false (λ _. ⊥) (IsWornBy (table_in self.now) step) result }
    {
        if self.next.checked_add(step.made.len() as u64).is_none() {
            return Err(MapFault::Worn(Counter::NextId));
        }
        let plan = Plan::of(alloc, step)?;
        match check_counts(alloc, &self.counts, plan.names.as_slice()) {
            Ok(()) => Ok(plan),
            Err(fault) => Err(fault),
        }
    }

    /// Puts messages after those that wait in the root, or leaves all as it is.
    pub fn append(&mut self, alloc: Global, list: Messages) -> Result<(), MapFault>
        requires whole { IsWhole self.old }
        requires fits { FitsRoot (table_in self.old) list }
        ensures committed { (root : Node) → nodes_in self.old.nodes self.old.root ≡ Some root
            → OnOk result (IsCommitted (nodes_in self.old.nodes) (table_in self.old)
            (append_step (table_in self.old) root list) (nodes_in self.new.nodes)
            (table_in self.new)) }
        ensures table { OnOk result (table_in self.new ≡ grown (table_in self.old) list) }
        ensures whole { IsWhole self.new }
        ensures err { OnErr result (SameKept self.old self.new) }
        ensures cause { HasMapCause 0 0 false (λ _. ⊥) NeverWorn result }
    {
        let added = list.size();
        append_at(alloc, &mut self.nodes, self.root, list)?;
        self.size += added;
        Ok(())
    }

    /// Puts messages after those that wait in the root, and made nodes under the next ids, or leaves
    /// all as it is.
    pub fn extend(&mut self, alloc: Global, made: Nodes, list: Messages) -> Result<(), MapFault>
        requires whole { IsWhole self.old }
        requires step { (root : Node) → IsRootOf (table_in self.old) root
            → IsStep (table_in self.old) (extend_step (table_in self.old) root made list) }
        ensures committed { (root : Node) → nodes_in self.old.nodes self.old.root ≡ Some root
            → OnOk result (IsCommitted (nodes_in self.old.nodes) (table_in self.old)
            (extend_step (table_in self.old) root made list) (nodes_in self.new.nodes)
            (table_in self.new)) }
        ensures table { (root : Node) → IsRootOf (table_in self.old) root
            → OnOk result (IsTableAfter (table_in self.old)
            (extend_step (table_in self.old) root made list) (table_in self.new)) }
        ensures whole { IsWhole self.new }
        ensures err { OnErr result (SameKept self.old self.new) }
        ensures cause { HasMapCause 0 0 false (λ _. ⊥)
            (IsWornByAdding (table_in self.old) made list) result }
    {
        let addition = self.addition(alloc, made, list.as_slice())?;
        self.make_room(addition.made.len(), 0)?;
        let added = list.size();
        append_at(alloc, &mut self.nodes, self.root, list)?;
        self.add_counted(addition);
        self.size += added;
        Ok(())
    }

    // Made nodes and the names that come with them and with messages, for which each counter has
    // room.
    fn addition(&self, alloc: Global, made: Nodes, list: &[Message]) -> Result<Addition, MapFault>
        ensures addition { IfOk result (IsAdditionOf self.now made list.now) }
        ensures cause { HasMapCause 0 0 false (λ _. ⊥)
            (IsWornByAdding (table_in self.now) made list.now) result }
    {
        if self.next.checked_add(made.len() as u64).is_none() {
            return Err(MapFault::Worn(Counter::NextId));
        }
        let addition = Addition::of(alloc, made, list)?;
        match check_counts(alloc, &self.counts, addition.names.as_slice()) {
            Ok(()) => Ok(addition),
            Err(fault) => Err(fault),
        }
    }

    /// Lets messages go down from a kept node to its child, or leaves all as it is.
    pub fn push_down(&mut self, alloc: Global, push: Push) -> Result<(), MapFault>
        requires whole { IsWhole self.old }
        requires push { IsPush (table_in self.old) push }
        requires can { CanPush (nodes_in self.old.nodes) (table_in self.old) push }
        ensures pushed { (parent child : Node) → nodes_in self.old.nodes push.parent ≡ Some parent
            → nodes_in self.old.nodes push.child ≡ Some child
            → OnOk result (IsPushed (nodes_in self.old.nodes) (table_in self.old) push parent child
            (nodes_in self.new.nodes) (table_in self.new)) }
        ensures table { OnOk result (HasPushed (table_in self.old) push (table_in self.new)) }
        ensures whole { IsWhole self.new }
        ensures err { OnErr result (SameKept self.old self.new) }
        ensures cause { HasMapCause 0 0 false (λ _. ⊥) NeverWorn result }
    {
        let step = self.push_step(alloc, push)?;
        let changes = exchanges(alloc, step.changes)?;
        self.make_room(0, changes.len())?;
        self.replace_all(changes);
        Ok(())
    }

    // The step that makes a push, of copies of the two nodes.
    fn push_step(&self, alloc: Global, push: Push) -> Result<Step, AllocError>
        requires whole { IsWhole self.now }
        requires push { IsPush (table_in self.now) push }
        requires can { CanPush (nodes_in self.now.nodes) (table_in self.now) push }
        ensures { IfOk result (IsStepOf self.now push) }
    {
        let Some(parent) = self.nodes.get(&push.parent) else {
            unreachable!()
        };
        let Some(child) = self.nodes.get(&push.child) else {
            unreachable!()
        };
        let made = push.step(alloc, self.root, parent, child)?;
        match made {
            Some(step) => Ok(step),
            None => unreachable!(),
        }
    }

    // Takes the memory for a step with so many made and changed nodes.
    fn make_room(&mut self, made: usize, changed: usize) -> Result<(), AllocError>
        requires { self.old.dead.items ≡ [] }
        ensures memory { OnOk result (HasMemory made changed self.new) }
        ensures same { SameKept self.old self.new }
    {
        self.nodes.reserve(made)?;
        self.counts.reserve(made)?;
        let Some(given) = made.checked_add(changed) else {
            return Err(AllocError);
        };
        let Some(all) = self.nodes.len().checked_add(given) else {
            return Err(AllocError);
        };
        self.dead.reserve(all)
    }
}

// Puts messages after those that wait in a kept node.
fn append_at(
    alloc: Global,
    nodes: &mut HashMap<u64, Rc<Node>>,
    id: u64,
    list: Messages,
) -> Result<(), AllocError>
    ensures ok { (n : Node) → nodes_in nodes.old id ≡ Some n → OnOk result ((i : ℕ)
        → nodes_in nodes.new i
        ≡ (if id == i then Some (appended n list) else nodes_in nodes.old i)) }
    ensures err { OnErr result ((i : ℕ) → nodes_in nodes.new i ≡ nodes_in nodes.old i) }
    ensures spare { spare nodes.new ≡ spare nodes.old }
{
    match nodes.get_mut(&id) {
        Some(shared) => append_to(alloc, shared, list),
        None => Ok(()),
    }
}

// Puts messages after those that wait in a node: in its place where nobody else holds it, else in
// the place of a copy.
fn append_to(alloc: Global, shared: &mut Rc<Node>, list: Messages) -> Result<(), AllocError>
    ensures ok { OnOk result (shared.new.value ≡ appended shared.old.value list) }
    ensures err { OnErr result (shared.new.value ≡ shared.old.value) }
{
    if let Some(node) = Rc::get_mut(shared) {
        return node.append(list);
    }
    let mut node = (**shared).clone()?;
    node.append(list)?;
    *shared = Rc::new(alloc, node)?;
    Ok(())
}
