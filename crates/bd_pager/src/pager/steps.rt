//! How a pager makes steps.

ghost use Rattle.std.specs.Prelude.{◌≡◌, ◌+◌, ◌<◌, ◌^◌, [], length, Some, None, IfOk, IfSome, OnOk, OnErr};
ghost use Rattle.std.specs.Option.{option_map};
ghost use Rattle.bd_message.specs.KeyMaps.{HasMapCause, NeverWorn};
ghost use Rattle.bd_node.specs.declared.node.Node.{Node};
ghost use Rattle.bd_node.specs.Shape.{IsShape};
ghost use Rattle.bd_node.specs.Steps.{IsStep, IsInPlace, StayAbove, IsTableAfter, IsCommitted, IsWornBy, IsWornByAdding, IsRootOf, extend_step};
ghost use Rattle.bd_node.specs.Stores.{visited, OnlyReadsBy, StaysBy};
ghost use Rattle.bd_node.specs.Tables.{IsKept, IsSound};
ghost use Rattle.bd_pager.specs.Causes.{is_bad_to_commit, is_bad_to_extend};
ghost use Rattle.bd_pager.specs.Committing.{IsNewRoot, IsPlanOf, IsRecountOf};
ghost use Rattle.bd_pager.specs.Extending.{IsAdditionOf};
ghost use Rattle.bd_pager.specs.Keeping.{KeepsSaved};
ghost use Rattle.bd_pager.specs.Pagers.{table_of, nodes_of, spots_of, is_known, IsReadOf};
ghost use Rattle.bd_pager.specs.Places.{copy_in, IsBadSpot};
ghost use Rattle.bd_pager.specs.Stepping.{put_at, held};
ghost use Rattle.bd_pager.specs.Testing.{NamesLower};

use super::Pager;
use crate::committing::{NewRoot, Plan, carry_out, made_puts, put_in, puts_of};
use crate::extending::{Addition, extend_spots};
use crate::stepping::Put;
use crate::tested::outdate;
use bd_counts::{NewCounts, added, recount};
use bd_device::Device;
use bd_message::{Counter, MapFault, Message};
use bd_node::{Items, Messages, Node, Step};

impl<D: Device> Pager<D> {
    /// Makes a step, all of it or nothing. The counts are exact after it, whatever the device has; a
    /// node whose count has fallen to 0 goes, and what it alone named too. All that it needs is read
    /// before the first change: what the changed nodes were, the nodes that go, and a root that was
    /// none. One visit for each made node. `Damaged` names the first block of the slot of one of
    /// these, which hasn't it; or where a count would fall too low, that of the first slot of the
    /// checkpoint, by rising ids, without a node of its level that names nodes of lower levels
    /// alone, and where there is no such slot that of its table.
    pub fn commit(&mut self, step: Step) -> Result<(), MapFault>
        requires step { IsStep (table_of self.old) step }
        requires in_place { is_known D.Device self.old
            → IsSound (nodes_of D.Device self.old) (table_of self.old)
            → IsInPlace (nodes_of D.Device self.old) (table_of self.old) step }
        ensures table { OnOk result (IsTableAfter (table_of self.old) step (table_of self.new)) }
        ensures committed { is_known D.Device self.old
            → IsSound (nodes_of D.Device self.old) (table_of self.old)
            → OnOk result (IsCommitted (nodes_of D.Device self.old) (table_of self.old) step
            (nodes_of D.Device self.new) (table_of self.new)) }
        ensures stays { StaysBy (is_known D.Device) (KeepsSaved D.Device) (λ _. [])
            self.old self.new }
        ensures err { OnErr result (OnlyReadsBy (is_known D.Device) (nodes_of D.Device) table_of
            (IsReadOf D.Device) (λ _. []) self.old self.new) }
        ensures visits { OnOk result
            (self.new.visits ≡ visited self.old.visits (length step.made)) }
        ensures err_visits { OnErr result (self.new.visits ≡ self.old.visits) }
        ensures cause { HasMapCause (D.fault_count self.old.dev) (D.fault_count self.new.dev)
            (D.last_failed self.new.dev) (is_bad_to_commit D.Device self.new step)
            (IsWornBy (table_of self.old) step) result }
    {
        let made = step.made.len() as u64;
        let plan = match self.planned(step) {
            Ok(plan) => plan,
            Err(fault) => return Err(fault),
        };
        let root = plan.root;
        let size = plan.new_root.size;
        outdate(&mut self.reader.tested, &self.reader.spots, &plan);
        match carry_out(
            &mut self.reader.spots,
            &mut self.reader.cache,
            &mut self.usage,
            self.root,
            plan,
        ) {
            Ok(()) => {}
            Err(_) => return Err(MapFault::NoMemory),
        }
        self.root = root;
        self.size = size;
        self.next += made;
        self.visits = self.visits.saturating_add(made);
        self.written = None;
        Ok(())
    }

    // What a step needs, read and in memory that is taken.
    fn planned(&mut self, step: Step) -> Result<Plan, MapFault>
        requires step { IsStep (table_of self.old) step }
        requires above { is_known D.Device self.old
            → IsSound (nodes_of D.Device self.old) (table_of self.old)
            → StayAbove (nodes_of D.Device self.old) (table_of self.old) step }
        ensures plan { IfOk result (IsPlanOf (D.contents self.old.dev) (spots_of self.old)
            (table_of self.old) step) }
        ensures left { OnlyReadsBy (is_known D.Device) (nodes_of D.Device) table_of
            (IsReadOf D.Device) (λ _. []) self.old self.new }
        ensures visits { self.new.visits ≡ self.old.visits }
        ensures cause { HasMapCause (D.fault_count self.old.dev) (D.fault_count self.new.dev)
            (D.last_failed self.new.dev) (is_bad_to_commit D.Device self.new step)
            (IsWornBy (table_of self.old) step) result }
    {
        if self.next.checked_add(step.made.len() as u64).is_none() {
            return Err(MapFault::Worn(Counter::NextId));
        }
        let recount = match self.recounted(&step) {
            Ok(recount) => recount,
            Err(fault) => return Err(fault),
        };
        let Step {
            made,
            changes,
            root,
        } = step;
        let puts = match puts_of(self.alloc, self.next, made, changes) {
            Ok(puts) => puts,
            Err(_) => return Err(MapFault::NoMemory),
        };
        let new_root = match self.root_after(puts.as_slice(), root) {
            Ok(new_root) => new_root,
            Err(fault) => return Err(fault),
        };
        Ok(Plan {
            puts,
            recount,
            root,
            new_root,
        })
    }

    // What a step makes of the counts.
    fn recounted(&mut self, step: &Step) -> Result<NewCounts, MapFault>
        requires step { IsStep (table_of self.old) step.now }
        requires above { is_known D.Device self.old
            → IsSound (nodes_of D.Device self.old) (table_of self.old)
            → StayAbove (nodes_of D.Device self.old) (table_of self.old) step.now }
        ensures counts { IfOk result (IsRecountOf (D.contents self.old.dev) (spots_of self.old)
            (table_of self.old) step.now) }
        ensures left { OnlyReadsBy (is_known D.Device) (nodes_of D.Device) table_of
            (IsReadOf D.Device) (λ _. []) self.old self.new }
        ensures visits { self.new.visits ≡ self.old.visits }
        ensures cause { HasMapCause (D.fault_count self.old.dev) (D.fault_count self.new.dev)
            (D.last_failed self.new.dev) (is_bad_to_commit D.Device self.new step.now)
            (IsWornBy (table_of self.old) step.now) result }
    {
        let found = match recount(self.alloc, &mut *self, step) {
            Ok(found) => found,
            Err(fault) => return Err(fault),
        };
        let Some(recount) = found else {
            return Err(self.damage());
        };
        Ok(recount)
    }

    // The root of this id after a step that puts these nodes: found unless it is one of them.
    fn root_after(&mut self, puts: &[Put], root: u64) -> Result<NewRoot, MapFault>
        requires shape { IfSome (put_at puts.now root) (λ node. IsShape node.value) }
        requires there { put_at puts.now root ≡ None → IsKept (table_of self.old) root }
        ensures root { IfOk result (IsNewRoot (D.contents self.old.dev) (spots_of self.old) root
            (option_map held (put_at puts.now root))) }
        ensures left { OnlyReadsBy (is_known D.Device) (nodes_of D.Device) table_of
            (IsReadOf D.Device) (λ _. []) self.old self.new }
        ensures visits { self.new.visits ≡ self.old.visits }
        ensures cause { HasMapCause (D.fault_count self.old.dev) (D.fault_count self.new.dev)
            (D.last_failed self.new.dev) (λ b. is_known D.Device self.new
            → IsBadSpot (D.contents self.new.dev) (spots_of self.new root) b) NeverWorn result }
    {
        if let Some(node) = put_in(puts, root) {
            return Ok(NewRoot {
                copy: None,
                size: node.buffer_size(),
            });
        }
        let node = match self.reader.find(self.alloc, root) {
            Ok(node) => node,
            Err(fault) => return Err(fault),
        };
        let size = node.buffer_size();
        Ok(NewRoot {
            copy: Some(node),
            size,
        })
    }

    /// Puts messages after those that wait in the root, and new nodes under the next ids, which the
    /// messages and one another may name: the commit of the root changed so, for the cost of the
    /// messages and the new nodes, and of a look at what the root names where a fetch would look at
    /// it, unless a caller holds the root's node. It makes no call of the device, unless what the
    /// root names can't be right. One visit for each new node. `Damaged` comes only there, and
    /// names the first block of the first slot of the checkpoint, by rising ids, without a node of
    /// its level that names nodes of lower levels alone, and where there is no such slot that of
    /// its table.
    pub fn extend(&mut self, made: Items<Node>, list: Messages) -> Result<(), MapFault>
        requires { (root : Node) → IsRootOf (table_of self.old) root
            → IsStep (table_of self.old) (extend_step (table_of self.old) root made list) }
        ensures table { (root : Node) → IsRootOf (table_of self.old) root
            → OnOk result (IsTableAfter (table_of self.old)
            (extend_step (table_of self.old) root made list) (table_of self.new)) }
        ensures committed { is_known D.Device self.old
            → IsSound (nodes_of D.Device self.old) (table_of self.old)
            → (root : Node) → nodes_of D.Device self.old (table_of self.old).root ≡ Some root
            → OnOk result (IsCommitted (nodes_of D.Device self.old) (table_of self.old)
            (extend_step (table_of self.old) root made list)
            (nodes_of D.Device self.new) (table_of self.new)) }
        ensures stays { StaysBy (is_known D.Device) (KeepsSaved D.Device) (λ _. [])
            self.old self.new }
        ensures err { OnErr result (OnlyReadsBy (is_known D.Device) (nodes_of D.Device) table_of
            (IsReadOf D.Device) (λ _. []) self.old self.new) }
        ensures visits { OnOk result
            (self.new.visits ≡ visited self.old.visits (length made)) }
        ensures err_visits { OnErr result (self.new.visits ≡ self.old.visits) }
        ensures device { IfSome (copy_in (spots_of self.old (table_of self.old).root))
            (NamesLower (spots_of self.old)) → self.new.dev ≡ self.old.dev }
        ensures ok_device { OnOk result (self.new.dev ≡ self.old.dev) }
        ensures cause { HasMapCause (D.fault_count self.old.dev) (D.fault_count self.new.dev)
            (D.last_failed self.new.dev) (is_bad_to_extend D.Device self.new)
            (IsWornByAdding (table_of self.old) made list) result }
    {
        if !self.reader.copy_names_lower(self.root) {
            return Err(self.damage());
        }
        let count = made.len() as u64;
        let added = list.size();
        let addition = match self.addition(made, list.as_slice()) {
            Ok(addition) => addition,
            Err(fault) => return Err(fault),
        };
        match extend_spots(
            self.alloc,
            &mut self.reader.spots,
            &mut self.usage,
            self.root,
            addition,
            list,
        ) {
            Ok(()) => {}
            Err(_) => return Err(MapFault::NoMemory),
        }
        self.size += added;
        self.next += count;
        self.visits = self.visits.saturating_add(count);
        self.written = None;
        Ok(())
    }

    // New nodes, and the counts with the names in them and in messages.
    fn addition(&self, made: Items<Node>, list: &[Message]) -> Result<Addition, MapFault>
        ensures addition { IfOk result (IsAdditionOf (table_of self.now) made list.now) }
        ensures cause { HasMapCause (D.fault_count self.now.dev) (D.fault_count self.now.dev)
            (D.last_failed self.now.dev) (λ _. ⊥) (IsWornByAdding (table_of self.now) made list.now)
            result }
    {
        if self.next.checked_add(made.len() as u64).is_none() {
            return Err(MapFault::Worn(Counter::NextId));
        }
        let counts = match added(self.alloc, self, made.as_slice(), list) {
            Ok(counts) => counts,
            Err(fault) => return Err(fault),
        };
        match made_puts(self.alloc, self.next, made) {
            Ok(puts) => Ok(Addition { puts, counts }),
            Err(_) => Err(MapFault::NoMemory),
        }
    }
}
