//! How a pager lets messages go down.

ghost use Rattle.std.specs.Prelude.{◌≡◌, [], IfOk, OnOk, OnErr, Some};
ghost use Rattle.bd_message.specs.KeyMaps.{HasMapCause, NeverWorn};
ghost use Rattle.bd_node.specs.declared.node.Node.{Node};
ghost use Rattle.bd_node.specs.Pushes.{IsPush, CanPush, HasPushed, IsPushed};
ghost use Rattle.bd_node.specs.Stores.{OnlyReadsBy, StaysBy};
ghost use Rattle.bd_node.specs.Tables.{IsKept, IsSound};
ghost use Rattle.bd_pager.specs.Causes.{is_bad_to_push};
ghost use Rattle.bd_pager.specs.Keeping.{KeepsSaved};
ghost use Rattle.bd_pager.specs.Pagers.{table_of, nodes_of, spots_of, is_known, IsReadOf};
ghost use Rattle.bd_pager.specs.Places.{IsBadSpot};
ghost use Rattle.bd_pager.specs.Pushing.{IsPushPlan, IsReadAs};

use super::Pager;
use crate::pushing::{push_in_place, push_puts, put_kept, waiting_in};
use crate::stepping::Put;
use bd_device::Device;
use bd_message::MapFault;
use bd_node::{Node, Push};
use std::rc::Rc;

impl<D: Device> Pager<D> {
    /// Lets messages go down from a private node to its private child: the commit of both changed
    /// so, for the cost of what goes down and of a look at what else waits in the two where these
    /// were changed before and nobody else holds them; else copies of them are changed. No visit.
    /// `Damaged` names the first block of the slot of one of the two, which hasn't it; or where the
    /// messages can't go down, as the nodes aren't sound, that of the first slot of the checkpoint,
    /// by rising ids, without a node of its level that names nodes of lower levels alone, and where
    /// there is no such slot that of its table.
    pub fn push_down(&mut self, push: Push) -> Result<(), MapFault>
        requires push { IsPush (table_of self.old) push }
        requires can { is_known D.Device self.old
            → IsSound (nodes_of D.Device self.old) (table_of self.old)
            → CanPush (nodes_of D.Device self.old) (table_of self.old) push }
        ensures table { OnOk result (HasPushed (table_of self.old) push (table_of self.new)) }
        ensures committed { is_known D.Device self.old
            → IsSound (nodes_of D.Device self.old) (table_of self.old)
            → (parent child : Node) → nodes_of D.Device self.old push.parent ≡ Some parent
            → nodes_of D.Device self.old push.child ≡ Some child
            → OnOk result (IsPushed (nodes_of D.Device self.old) (table_of self.old) push
            parent child (nodes_of D.Device self.new) (table_of self.new)) }
        ensures stays { StaysBy (is_known D.Device) (KeepsSaved D.Device) (λ _. [])
            self.old self.new }
        ensures err { OnErr result (OnlyReadsBy (is_known D.Device) (nodes_of D.Device) table_of
            (IsReadOf D.Device) (λ _. []) self.old self.new) }
        ensures visits { self.new.visits ≡ self.old.visits }
        ensures cause { HasMapCause (D.fault_count self.old.dev) (D.fault_count self.new.dev)
            (D.last_failed self.new.dev) (is_bad_to_push D.Device self.new push) NeverWorn result }
    {
        match push_in_place(self.alloc, &mut self.reader.spots, push) {
            Ok(None) => {}
            Ok(Some(push)) => return self.push_copies(push),
            Err(_) => return Err(MapFault::NoMemory),
        }
        self.size = waiting_in(&self.reader.spots, self.root);
        self.written = None;
        Ok(())
    }

    // The same, of copies of both nodes.
    fn push_copies(&mut self, push: Push) -> Result<(), MapFault>
        requires push { IsPush (table_of self.old) push }
        requires can { is_known D.Device self.old
            → IsSound (nodes_of D.Device self.old) (table_of self.old)
            → CanPush (nodes_of D.Device self.old) (table_of self.old) push }
        ensures table { OnOk result (HasPushed (table_of self.old) push (table_of self.new)) }
        ensures committed { is_known D.Device self.old
            → IsSound (nodes_of D.Device self.old) (table_of self.old)
            → (parent child : Node) → nodes_of D.Device self.old push.parent ≡ Some parent
            → nodes_of D.Device self.old push.child ≡ Some child
            → OnOk result (IsPushed (nodes_of D.Device self.old) (table_of self.old) push
            parent child (nodes_of D.Device self.new) (table_of self.new)) }
        ensures stays { StaysBy (is_known D.Device) (KeepsSaved D.Device) (λ _. [])
            self.old self.new }
        ensures err { OnErr result (OnlyReadsBy (is_known D.Device) (nodes_of D.Device) table_of
            (IsReadOf D.Device) (λ _. []) self.old self.new) }
        ensures visits { self.new.visits ≡ self.old.visits }
        ensures cause { HasMapCause (D.fault_count self.old.dev) (D.fault_count self.new.dev)
            (D.last_failed self.new.dev) (is_bad_to_push D.Device self.new push) NeverWorn result }
    {
        let (parent, child) = (push.parent, push.child);
        let puts = match self.push_plan(push) {
            Ok(puts) => puts,
            Err(fault) => return Err(fault),
        };
        match put_kept(
            &mut self.reader.spots,
            &mut self.reader.cache,
            &mut self.usage,
            puts,
        ) {
            Ok(()) => {}
            Err(_) => return Err(MapFault::NoMemory),
        }
        self.reader.tested.forget(parent);
        self.reader.tested.forget(child);
        self.size = waiting_in(&self.reader.spots, self.root);
        self.written = None;
        Ok(())
    }

    // The changed copies that are to be put for both nodes, read and in memory that is taken.
    fn push_plan(&mut self, push: Push) -> Result<Vec<Put>, MapFault>
        requires push { IsPush (table_of self.old) push }
        requires can { is_known D.Device self.old
            → IsSound (nodes_of D.Device self.old) (table_of self.old)
            → CanPush (nodes_of D.Device self.old) (table_of self.old) push }
        ensures plan { IfOk result (λ puts. IsPushPlan (D.contents self.old.dev)
            (spots_of self.old) push puts.items) }
        ensures left { OnlyReadsBy (is_known D.Device) (nodes_of D.Device) table_of
            (IsReadOf D.Device) (λ _. []) self.old self.new }
        ensures visits { self.new.visits ≡ self.old.visits }
        ensures cause { HasMapCause (D.fault_count self.old.dev) (D.fault_count self.new.dev)
            (D.last_failed self.new.dev) (is_bad_to_push D.Device self.new push) NeverWorn result }
    {
        let parent = match self.read(push.parent) {
            Ok(node) => node,
            Err(fault) => return Err(fault),
        };
        let child = match self.read(push.child) {
            Ok(node) => node,
            Err(fault) => return Err(fault),
        };
        match push_puts(self.alloc, &parent, child, push) {
            Ok(Some(puts)) => Ok(puts),
            Ok(None) => Err(self.damage()),
            Err(_) => Err(MapFault::NoMemory),
        }
    }

    // The node of a kept id, without a visit, and without a look at what it names.
    fn read(&mut self, id: u64) -> Result<Rc<Node>, MapFault>
        requires { IsKept (table_of self.old) id }
        ensures node { IfOk result (λ node. IsReadAs (D.contents self.old.dev)
            (spots_of self.old) id node.value) }
        ensures left { OnlyReadsBy (is_known D.Device) (nodes_of D.Device) table_of
            (IsReadOf D.Device) (λ _. []) self.old self.new }
        ensures visits { self.new.visits ≡ self.old.visits }
        ensures cause { HasMapCause (D.fault_count self.old.dev) (D.fault_count self.new.dev)
            (D.last_failed self.new.dev) (λ b. is_known D.Device self.new
            → IsBadSpot (D.contents self.new.dev) (spots_of self.new id) b) NeverWorn result }
    {
        match self.reader.find(self.alloc, id) {
            Ok(node) => Ok(node),
            Err(fault) => Err(fault),
        }
    }
}
