//! Nodes that are found: in memory, among those that were read, or in slots.

ghost use Rattle.std.specs.Prelude.{◌≡◌, ◌↔◌, ℕ, None, Some, false, IsSome, IsTrue, IfOk, IfSome};
ghost use Rattle.std.specs.List.{AllByRecursion};
ghost use Rattle.bd_message.specs.KeyMaps.{HasMapCause, NeverWorn};
ghost use Rattle.bd_device.specs.Device.{OnlyReads};
ghost use Rattle.bd_cache.specs.Cache.{kept_at, room_of};
ghost use Rattle.bd_node.specs.declared.node.Node.{Node};
ghost use Rattle.bd_node.specs.Nodes.{level_of, names};
ghost use Rattle.bd_format.specs.Slots.{HasNode};
ghost use Rattle.bd_pager.specs.Damage.{AreSavedEntries, IsFirstDamaged};
ghost use Rattle.bd_pager.specs.Slots.{IsOfLevel, IsBadSlot};
ghost use Rattle.bd_pager.specs.Places.{spots_in, level_in, copy_in, nodes_at, IsAlone, IsLowerIn, IsRead, AreCached, IsBadSpot};
ghost use Rattle.bd_pager.specs.Readers.{IsFoundAs, IsReading, map_fault};
ghost use Rattle.bd_pager.specs.Testing.{is_tested, IsAtHand};

use crate::damage::first_damaged;
use crate::extending::copy_names_lower;
use crate::naming::names_lower;
use crate::place::{Place, Spot};
use crate::read_node;
use crate::tested::Tested;
use bd_cache::NodeCache;
use bd_device::{Device, ImageFault};
use bd_format::laws::images_are_decoded;
use bd_limits::SLOT_SIZE;
use bd_message::MapFault;
use bd_node::Node;
use bd_table::TableEntry;
use bd_tails::Tails;
use std::alloc::{AllocError, Global};
use std::collections::HashMap;
use std::rc::Rc;

/// The kept nodes, and what reads those that are in slots. It has no invariant.
#[derive(Drop)]
pub struct NodeReader<D: Device> {
    pub dev: D,
    pub spots: HashMap<u64, Spot>,
    /// Nodes that were read from slots that alone have them, or were written there.
    pub cache: NodeCache,
    /// Which nodes in memory, and of those that were read, name kept nodes of lower levels alone.
    pub tested: Tested,
    /// Whether the device was lent since, so that slots may have other nodes now.
    pub is_lent: bool,
    /// How much of each slot is used, as far as reads and writes have told.
    pub tails: Tails,
    pub buffer: Box<[u8; SLOT_SIZE]>,
}

/// What is known of a node before anything is read.
#[derive(Drop)]
enum Found {
    Copy(Rc<Node>),
    InSlot { slot: u32, level: u32 },
}

impl<D: Device> NodeReader<D> {
    /// The node of a kept id: the one in memory, or else the one of its slot, which is read unless
    /// it was before.
    pub fn find(&mut self, alloc: Global, id: u64) -> Result<Rc<Node>, MapFault>
        requires reading { IsReading (D.contents self.old.dev) self.old }
        requires there { IsSome (spots_in self.old.spots id) }
        ensures contents { IsSome (D.contents self.old.dev) → IfOk result (λ node.
            nodes_at (D.contents self.old.dev) (spots_in self.old.spots) id ≡ Some node.value) }
        ensures node { IfOk result
            (λ node. IsOfLevel (level_in (spots_in self.old.spots id)) node.value) }
        ensures copy { IfSome (copy_in (spots_in self.old.spots id))
            (λ n. IfOk result (λ node. node.value ≡ n)) }
        ensures at_hand { IfOk result (λ node. IsAtHand (spots_in self.old.spots) self.new.cache
            self.new.tested id node.value) }
        ensures reading { IsReading (D.contents self.new.dev) self.new }
        ensures spots { self.new.spots ≡ self.old.spots }
        ensures lent { self.old.is_lent ≡ false → self.new.is_lent ≡ false }
        ensures room { room_of self.new.cache ≡ room_of self.old.cache }
        ensures reads { OnlyReads D.Device self.old.dev self.new.dev }
        ensures cause { HasMapCause (D.fault_count self.old.dev) (D.fault_count self.new.dev)
            (D.last_failed self.new.dev)
            (IsBadSpot (D.contents self.old.dev) (spots_in self.old.spots id)) NeverWorn result }
    {
        images_are_decoded();
        let found = match self.look_up(id) {
            Ok(found) => found,
            Err(_) => return Err(MapFault::NoMemory),
        };
        match found {
            Found::Copy(node) => Ok(node),
            Found::InSlot { slot, level } => self.load(alloc, id, slot, level),
        }
    }

    /// The node of a kept id, as `find` gives it, and whether it names kept nodes of lower levels
    /// alone. It looks at the names unless it has found that before.
    pub fn find_lower(&mut self, alloc: Global, id: u64) -> Result<(Rc<Node>, bool), MapFault>
        requires reading { IsReading (D.contents self.old.dev) self.old }
        requires there { IsSome (spots_in self.old.spots id) }
        ensures contents { IsSome (D.contents self.old.dev) → IfOk result (λ found.
            nodes_at (D.contents self.old.dev) (spots_in self.old.spots) id
            ≡ Some found.0.value) }
        ensures node { IfOk result
            (λ found. IsOfLevel (level_in (spots_in self.old.spots id)) found.0.value) }
        ensures copy { IfSome (copy_in (spots_in self.old.spots id))
            (λ n. IfOk result (λ found. found.0.value ≡ n)) }
        ensures lower { IfOk result (λ found. IsTrue found.1 ↔ AllByRecursion
            (IsLowerIn (spots_in self.old.spots) (level_of found.0.value))
            (names found.0.value)) }
        ensures reading { IsReading (D.contents self.new.dev) self.new }
        ensures spots { self.new.spots ≡ self.old.spots }
        ensures lent { self.old.is_lent ≡ false → self.new.is_lent ≡ false }
        ensures room { room_of self.new.cache ≡ room_of self.old.cache }
        ensures reads { OnlyReads D.Device self.old.dev self.new.dev }
        ensures cause { HasMapCause (D.fault_count self.old.dev) (D.fault_count self.new.dev)
            (D.last_failed self.new.dev)
            (IsBadSpot (D.contents self.old.dev) (spots_in self.old.spots id)) NeverWorn result }
    {
        let node = match self.find(alloc, id) {
            Ok(node) => node,
            Err(fault) => return Err(fault),
        };
        let is_lower = self.test(id, &node);
        Ok((node, is_lower))
    }

    // Whether the node of an id, which is at hand, names kept nodes of lower levels alone.
    fn test(&mut self, id: u64, node: &Node) -> bool
        requires reading { IsReading (D.contents self.old.dev) self.old }
        requires there { IsSome (spots_in self.old.spots id) }
        requires at_hand { IsAtHand (spots_in self.old.spots) self.old.cache self.old.tested id
            node.now }
        ensures lower { IsTrue result ↔ AllByRecursion
            (IsLowerIn (spots_in self.old.spots) (level_of node.now)) (names node.now) }
        ensures reading { IsReading (D.contents self.new.dev) self.new }
        ensures spots { self.new.spots ≡ self.old.spots }
        ensures lent { self.new.is_lent ≡ self.old.is_lent }
        ensures room { room_of self.new.cache ≡ room_of self.old.cache }
        ensures device { self.new.dev ≡ self.old.dev }
    {
        if self.tested.has(id) {
            return true;
        }
        if !names_lower(&self.spots, node) {
            return false;
        }
        self.tested.note(id);
        true
    }

    /// Whether the node of an id that is in memory names kept nodes of lower levels alone. It looks
    /// at the names unless that was found before.
    pub fn copy_names_lower(&self, id: u64) -> bool
        requires { IsReading (D.contents self.now.dev) self.now }
        ensures { (n : Node) → copy_in (spots_in self.now.spots id) ≡ Some n → IsTrue result
            ↔ AllByRecursion (IsLowerIn (spots_in self.now.spots) (level_of n)) (names n) }
    {
        self.tested.has(id) || copy_names_lower(&self.spots, id)
    }

    /// The block that is damaged where the nodes aren't sound, by the entries of the last
    /// checkpoint and its table's slots.
    pub fn first_damaged(
        &mut self,
        alloc: Global,
        entries: &[TableEntry],
        at: &[u32],
    ) -> Result<u64, MapFault>
        requires reading { IsReading (D.contents self.old.dev) self.old }
        requires entries { AreSavedEntries entries.now }
        ensures first { IfOk result
            (IsFirstDamaged (D.contents self.old.dev) entries.now at.now) }
        ensures reading { IsReading (D.contents self.new.dev) self.new }
        ensures spots { self.new.spots ≡ self.old.spots }
        ensures lent { self.old.is_lent ≡ false → self.new.is_lent ≡ false }
        ensures room { room_of self.new.cache ≡ room_of self.old.cache }
        ensures reads { OnlyReads D.Device self.old.dev self.new.dev }
        ensures cause { HasMapCause (D.fault_count self.old.dev) (D.fault_count self.new.dev)
            (D.last_failed self.new.dev) (λ _. ⊥) NeverWorn result }
    {
        self.trust();
        match first_damaged(
            alloc,
            &mut self.dev,
            entries,
            at,
            &mut self.buffer,
            &mut self.tails,
        ) {
            Ok(block) => Ok(block),
            Err(fault) => Err(map_fault(fault)),
        }
    }

    // What is known of a kept id before anything is read.
    fn look_up(&self, id: u64) -> Result<Found, AllocError>
        requires { IsSome (spots_in self.now.spots id) }
        ensures { IfOk result (λ found. IsFoundAs found (spots_in self.now.spots id)) }
    {
        match self.spots.get(&id) {
            Some(spot) => found_in(spot),
            None => unreachable!(),
        }
    }

    // The node of an id that is in this slot alone, and of this level.
    fn load(&mut self, alloc: Global, id: u64, slot: u32, level: u32) -> Result<Rc<Node>, MapFault>
        requires reading { IsReading (D.contents self.old.dev) self.old }
        requires alone { IsAlone slot level (spots_in self.old.spots id) }
        ensures held { IfSome (D.contents self.old.dev)
            (λ image. IfOk result (λ node. HasNode image slot level node.value)) }
        ensures node { IfOk result (λ node. IsOfLevel level node.value) }
        ensures at_hand { IfOk result (λ node. IsAtHand (spots_in self.old.spots) self.new.cache
            self.new.tested id node.value) }
        ensures reading { IsReading (D.contents self.new.dev) self.new }
        ensures spots { self.new.spots ≡ self.old.spots }
        ensures lent { self.old.is_lent ≡ false → self.new.is_lent ≡ false }
        ensures room { room_of self.new.cache ≡ room_of self.old.cache }
        ensures reads { OnlyReads D.Device self.old.dev self.new.dev }
        ensures cause { HasMapCause (D.fault_count self.old.dev) (D.fault_count self.new.dev)
            (D.last_failed self.new.dev)
            (IsBadSlot (D.contents self.old.dev) slot level) NeverWorn result }
    {
        self.trust();
        match self.cache.get(id) {
            Some(node) => Ok(node),
            None => self.read(alloc, id, slot, level),
        }
    }

    // The node of an id, as this slot has it.
    fn read(&mut self, alloc: Global, id: u64, slot: u32, level: u32) -> Result<Rc<Node>, MapFault>
        requires reading { IsReading (D.contents self.old.dev) self.old }
        requires alone { IsAlone slot level (spots_in self.old.spots id) }
        requires trusted { self.old.is_lent ≡ false }
        requires uncached { kept_at self.old.cache id ≡ None }
        ensures held { IfSome (D.contents self.old.dev)
            (λ image. IfOk result (λ node. HasNode image slot level node.value)) }
        ensures node { IfOk result (λ node. IsOfLevel level node.value) }
        ensures at_hand { IfOk result (λ node. IsAtHand (spots_in self.old.spots) self.new.cache
            self.new.tested id node.value) }
        ensures reading { IsReading (D.contents self.new.dev) self.new }
        ensures spots { self.new.spots ≡ self.old.spots }
        ensures lent { self.old.is_lent ≡ false → self.new.is_lent ≡ false }
        ensures room { room_of self.new.cache ≡ room_of self.old.cache }
        ensures reads { OnlyReads D.Device self.old.dev self.new.dev }
        ensures cause { HasMapCause (D.fault_count self.old.dev) (D.fault_count self.new.dev)
            (D.last_failed self.new.dev)
            (IsBadSlot (D.contents self.old.dev) slot level) NeverWorn result }
    {
        let node = match read_node(
            alloc,
            &mut self.dev,
            slot,
            level,
            &mut self.buffer,
            &mut self.tails,
        ) {
            Ok(node) => node,
            Err(fault) => return Err(map_fault(fault)),
        };
        let node = match Rc::new(alloc, node) {
            Ok(node) => node,
            Err(_) => return Err(MapFault::NoMemory),
        };
        self.tested.forget(id);
        self.keep(id, &node);
        Ok(node)
    }

    /// Gives up what was read before the device was lent.
    pub fn trust(&mut self)
        requires { IsReading (D.contents self.old.dev) self.old }
        ensures reading { IsReading (D.contents self.new.dev) self.new }
        ensures trusted { self.new.is_lent ≡ false }
        ensures kept { self.old.is_lent ≡ false → self.new.cache ≡ self.old.cache }
        ensures room { room_of self.new.cache ≡ room_of self.old.cache }
        ensures spots { self.new.spots ≡ self.old.spots }
        ensures device { self.new.dev ≡ self.old.dev }
    {
        if !self.is_lent {
            return;
        }
        self.cache.clear();
        self.tails.forget();
        self.is_lent = false;
    }

    // Keeps a node that was read for the next time, if there is memory.
    fn keep(&mut self, id: u64, node: &Rc<Node>)
        requires reading { IsReading (D.contents self.old.dev) self.old }
        requires read { IsRead (D.contents self.old.dev) self.old.is_lent
            (spots_in self.old.spots id) node.now.value }
        requires untested { is_tested self.old.tested id ≡ false }
        requires uncached { kept_at self.old.cache id ≡ None }
        ensures reading { IsReading (D.contents self.new.dev) self.new }
        ensures cached { IfSome (kept_at self.new.cache id) (λ m. m ≡ node.now.value) }
        ensures tested { self.new.tested ≡ self.old.tested }
        ensures lent { self.new.is_lent ≡ self.old.is_lent }
        ensures room { room_of self.new.cache ≡ room_of self.old.cache }
        ensures spots { self.new.spots ≡ self.old.spots }
        ensures device { self.new.dev ≡ self.old.dev }
    {
        let Ok(copy) = node.clone() else {
            return;
        };
        let _ = self.cache.put(id, copy);
    }
}

// What is known of a kept node before anything is read.
fn found_in(spot: &Spot) -> Result<Found, AllocError>
    ensures { IfOk result (λ found. IsFoundAs found (Some spot.now)) }
{
    match &spot.place {
        Place::Memory { node, .. } => Ok(Found::Copy(node.clone()?)),
        Place::Slot {
            node: Some(node),
            ..
        } => Ok(Found::Copy(node.clone()?)),
        Place::Slot { slot, node: None } => Ok(Found::InSlot {
            slot: *slot,
            level: spot.level,
        }),
    }
}

// The fault of a store where a slot wasn't read.
fn map_fault(fault: ImageFault) -> MapFault
    ensures { result ≡ map_fault fault }
{
    match fault {
        ImageFault::DeviceFault => MapFault::DeviceFault,
        ImageFault::Damaged { block } => MapFault::Damaged { block },
        ImageFault::NoMemory => MapFault::NoMemory,
    }
}
