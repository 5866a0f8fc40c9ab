//! What pagers are made of.

ghost use Rattle.std.specs.Prelude.{◌≡◌, ◌≤◌, ◌<◌, ◌++◌, IfOk, IfSome, AllPairs, Contains};
ghost use Rattle.bd_cache.specs.Cache.{room_of};
ghost use Rattle.bd_slots.specs.Layout.{AreSlots, IsTablePlace, image_blocks};
ghost use Rattle.bd_device.specs.Device.{OnlyReads, HasImageCause};
ghost use Rattle.bd_node.specs.New.{new_root};
ghost use Rattle.bd_table.specs.Tables.{AreFreeSlots, IsRoot, slots_of};
ghost use Rattle.bd_tails.specs.Tails.{AreTails};
ghost use Rattle.bd_pager.specs.Fresh.{AreFreshParts, IsFreshUsage, assembled};
ghost use Rattle.bd_pager.specs.Opened.{AreOpened, IsOpened, IsUnchanged, IsBadStart};
ghost use Rattle.bd_pager.specs.Places.{spots_in};
ghost use Rattle.bd_format.specs.Slots.{HasNode};
ghost use Rattle.bd_pager.specs.Slots.{IsOfLevel, IsBadSlot};

use crate::entries::{root_entry, saved_spots, spare_beside};
use crate::place::{Place, Spot};
use crate::read_node;
use crate::usage::Usage;
use bd_cache::NodeCache;
use bd_device::{Device, ImageFault};
use bd_keys::Bytes;
use bd_limits::SLOT_SIZE;
use bd_node::{Edge, Edges, Items, Messages, Node};
use bd_slots::SlotSet;
use bd_table::{Table, TableEntry};
use bd_tails::Tails;
use std::alloc::{AllocError, Global};
use std::collections::{BTreeSet, HashMap};
use std::rc::Rc;

/// All of a pager but its device.
#[derive(Drop)]
pub struct Parts {
    pub spots: HashMap<u64, Spot>,
    pub saved: Table,
    pub at: Vec<u32>,
    pub usage: Usage,
    pub root: u64,
    pub size: usize,
    pub next: u64,
    pub cache: NodeCache,
    pub tails: Tails,
    pub buffer: Box<[u8; SLOT_SIZE]>,
}

impl Parts {
    /// Those of a pager over so many slots that has saved nothing: a root of level 1 without a
    /// child, in memory. At most `room` nodes that were read will be kept.
    pub fn fresh(alloc: Global, slots: u32, room: usize) -> Result<Parts, AllocError>
        requires { 1 ≤ room }
        ensures fresh { IfOk result (AreFreshParts slots) }
        ensures room { IfOk result (λ parts. room_of parts.cache ≡ room) }
    {
        let node = Rc::new(alloc, childless_root(alloc)?)?;
        let root = Spot {
            refs: 1,
            level: 1,
            place: Place::Memory { node, slot: None },
        };
        let mut spots = HashMap::new(alloc);
        spots.insert(1, root)?;
        Ok(Parts {
            spots,
            saved: Table {
                next_id: 2,
                root: 1,
                entries: Items::from_vec(Vec::new(alloc)),
            },
            at: Vec::new(alloc),
            usage: fresh_usage(alloc, slots)?,
            root: 1,
            size: 0,
            next: 2,
            cache: NodeCache::new(alloc, room)?,
            tails: Tails::new(alloc, slots)?,
            buffer: Box::new(alloc, [0; SLOT_SIZE])?,
        })
    }

    /// Those of a pager over the checkpoint whose table has the slots `at`, of so many. At most
    /// `room` nodes that were read will be kept. `Damaged` comes exactly where those slots have no
    /// table or the root's slot has no node of its level, and names the first block of the first
    /// of them, or that of the root's.
    #[tactic(auto, using(bd_device::proofs::Calls::calls))]
    pub fn read<D: Device>(
        alloc: Global,
        dev: &mut D,
        slots: u32,
        at: Vec<u32>,
        room: usize,
    ) -> Result<Parts, ImageFault>
        requires place { IsTablePlace slots at.items }
        requires size { D.block_count dev.old ≡ image_blocks slots }
        requires room { 1 ≤ room }
        ensures parts { IfOk result (λ parts. IsOpened (D.contents dev.old) slots at.items
            (assembled dev.new parts)) }
        ensures usage { IfOk result (λ parts. IsUnchanged parts.usage) }
        ensures room { IfOk result (λ parts. room_of parts.cache ≡ room) }
        ensures reads { OnlyReads D.Device dev.old dev.new }
        ensures cause { HasImageCause D.Device dev.old dev.new
            (IsBadStart (D.contents dev.old) slots at.items) result }
    {
        let saved = bd_table::read(alloc, dev, slots, at.as_slice())?;
        let entry = root_entry(saved.entries.as_slice(), saved.root);
        let (node, tails, buffer) = read_root(alloc, dev, slots, entry)?;
        let size = node.buffer_size();
        let spots = opened_spots(alloc, &saved, entry, node)?;
        let usage = opened_usage(alloc, slots, at.as_slice(), saved.entries.as_slice())?;
        let cache = NodeCache::new(alloc, room)?;
        Ok(Parts {
            spots,
            root: saved.root,
            next: saved.next_id,
            saved,
            at,
            usage,
            size,
            cache,
            tails,
            buffer,
        })
    }
}

// What is used where nothing is saved, and a root with the id 1 is in memory.
fn fresh_usage(alloc: Global, slots: u32) -> Result<Usage, AllocError>
    ensures { IfOk result (IsFreshUsage slots) }
{
    let mut listed = BTreeSet::new(alloc);
    listed.insert(1)?;
    Ok(Usage {
        spare: SlotSet::new(alloc, slots)?,
        free: SlotSet::new(alloc, slots)?,
        changed: 1,
        in_memory: 1,
        listed,
    })
}

// What is used where nothing was changed since a checkpoint.
fn opened_usage(
    alloc: Global,
    slots: u32,
    at: &[u32],
    entries: &[TableEntry],
) -> Result<Usage, AllocError>
    requires { AreSlots slots (at.now ++ slots_of entries.now) }
    ensures spare { IfOk result
        (λ usage. AreFreeSlots slots (at.now ++ slots_of entries.now) usage.spare) }
    ensures unchanged { IfOk result IsUnchanged }
{
    Ok(Usage {
        spare: spare_beside(alloc, slots, at, entries)?,
        free: spare_beside(alloc, slots, at, entries)?,
        changed: 0,
        in_memory: 0,
        listed: BTreeSet::new(alloc),
    })
}

// The node of an entry, read from its slot, what is known of tails then, and a slot's bytes.
#[tactic(auto, using(bd_device::proofs::Calls::calls))]
fn read_root<D: Device>(
    alloc: Global,
    dev: &mut D,
    slots: u32,
    entry: TableEntry,
) -> Result<(Rc<Node>, Tails, Box<[u8; SLOT_SIZE]>), ImageFault>
    ensures held { IfSome (D.contents dev.old)
        (λ image. IfOk result (λ read. HasNode image entry.slot entry.level read.0.value)) }
    ensures node { IfOk result (λ read. IsOfLevel entry.level read.0.value) }
    ensures tails { IfOk result (λ read. AreTails (D.contents dev.new) read.1) }
    ensures reads { OnlyReads D.Device dev.old dev.new }
    ensures cause { HasImageCause D.Device dev.old dev.new
        (IsBadSlot (D.contents dev.old) entry.slot entry.level) result }
{
    let mut buffer = Box::new(alloc, [0; SLOT_SIZE])?;
    let mut tails = Tails::new(alloc, slots)?;
    let node = read_node(alloc, dev, entry.slot, entry.level, &mut buffer, &mut tails)?;
    Ok((Rc::new(alloc, node)?, tails, buffer))
}

// The nodes of a table, each in its slot, and the root in memory too.
fn opened_spots(
    alloc: Global,
    saved: &Table,
    entry: TableEntry,
    node: Rc<Node>,
) -> Result<HashMap<u64, Spot>, AllocError>
    requires rising { AllPairs (λ e o. e.id < o.id) saved.now.entries }
    requires root { IsRoot saved.now.root entry }
    requires among { Contains saved.now.entries entry }
    ensures { IfOk result (λ spots. AreOpened saved.now entry node (spots_in spots)) }
{
    let mut spots = saved_spots(alloc, saved.entries.as_slice())?;
    let root = Spot {
        refs: entry.refs,
        level: entry.level,
        place: Place::Slot {
            slot: entry.slot,
            node: Some(node),
        },
    };
    spots.insert(saved.root, root)?;
    Ok(spots)
}

// A root of level 1 with one edge and no child.
fn childless_root(alloc: Global) -> Result<Node, AllocError>
    ensures { IfOk result (λ node. node ≡ new_root) }
{
    let edge = Edge {
        pivot: Bytes::from_vec(Vec::new(alloc)),
        lift: 0,
        source: Bytes::from_vec(Vec::new(alloc)),
        child: None,
        seen: 0,
    };
    let mut edges = Vec::new(alloc);
    edges.push(edge)?;
    Ok(Node::Inner {
        level: 1,
        edges: Edges::from_vec(edges),
        buffer: Messages::new(alloc),
    })
}
