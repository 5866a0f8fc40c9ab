//! Lines on nodes over a device in memory, after the calls of the lines above: `fails CALL..` (the
//! device of the next image fails at these of its calls), `image SLOTS ROOM WRITES` (without keys,
//! with at most ROOM nodes kept that were read, and records of so many writes), `save SLOT` (a
//! checkpoint, whose table has this slot alone, or any for `-`), `unsaved` (a checkpoint fails, and
//! leaves what is told of the nodes as it was), `close SLOT` (a checkpoint, and only the device is
//! left), `open ROOM` (the nodes are read again), `read ROOM` (they are read again to be asked) and
//! `ask` (they are asked as they are), and `back` (only the device is left again). Of nodes that may be
//! changed: `spill EARLY` (from then on, after each flush,
//! all changed nodes but so many are written), `usage CHANGED FREE`, `alike` (their numbers are those of the tree, with as
//! many visits since `open`), `failing-flush LIMIT` (one that goes on where a step fails, if this
//! leaves what is told as it was) and `faults COUNT`. Of nodes that are asked: `same-nodes` (those of
//! the tree, each named as often) and `calls LOW HIGH` (of the device since `read`). Of a device:
//! `root ID REFS SLOT` (the table has one node), `write BLOCK BYTES`, `aside` (it is kept),
//! `copy FROM TO COUNT` (blocks of the one kept aside), `damaged BLOCK` and `undamaged` (where all keys
//! of one byte are asked).

use crate::asks::{is_at, same_keys};
use crate::machine::{Machine, flush as flush_tree};
use crate::stop::{Stop, ensure, within};
use crate::stored::{Saved, Stored, flush, in_memory};
use crate::walk::walked;
use crate::words::{WORDS, bytes, number};
use bd_device::{Device, ImageFault, MemDevice};
use bd_limits::BLOCK_SIZE;
use bd_message::{KeyMap, MapFault, Message};
use bd_node::NodeStore;
use bd_pager::Pager;
use bd_slots::{image_blocks, is_table_place};
use bd_table::{Table, read};
use bd_tree::Tree;
use std::alloc::{AllocError, Global};

/// Nodes over a device: such as may be changed, such as are asked, or the device with a checkpoint.
pub struct Disk {
    stored: Option<Stored<MemDevice>>,
    found: Option<Tree<Pager<MemDevice>>>,
    saved: Option<Saved<MemDevice>>,
    /// The slots of the last checkpoint's table.
    at: Vec<u32>,
    slots: u32,
    /// A device that is kept.
    aside: Option<MemDevice>,
    /// The calls at which the next device fails.
    fail: Vec<u64>,
    /// How many calls of the device, or visits of the tree, there were before.
    before: u64,
    /// How many changed nodes stay in memory after a flush, where others are written then.
    early: Option<u64>,
}

// Written out, so that a drop is one call.
impl Drop for Disk {
    fn drop(self) {
        let Disk {
            stored: _,
            found: _,
            saved: _,
            at: _,
            slots: _,
            aside: _,
            fail: _,
            before: _,
            early: _,
        } = self;
    }
}

/// Runs a line, if it is one of these.
pub fn run(machine: &mut Machine, words: &[&str; WORDS]) -> Result<bool, Stop> {
    Ok(run_change(machine, words)? || run_start(machine, words)? || run_device(machine, words)?)
}

/// The same, of lines on nodes that may be changed.
fn run_change(machine: &mut Machine, words: &[&str; WORDS]) -> Result<bool, Stop> {
    let disk = &mut machine.disk;
    match words[0] {
        "image" => disk.begin(machine.alloc, words)?,
        "save" => disk.save(words[1])?,
        "unsaved" => disk.fails_to_save()?,
        "spill" => disk.early = Some(number(words[1])?),
        "usage" => disk.has_usage(number(words[1])?, number(words[2])?)?,
        "alike" => machine.disk.has_numbers_of(&machine.tree)?,
        "failing-flush" => failing_flush(machine, number(words[1])? as usize)?,
        "faults" => disk.has_faults(number(words[1])?)?,
        _ => return Ok(false),
    }
    Ok(true)
}

/// The same, of lines on checkpoints and new starts.
fn run_start(machine: &mut Machine, words: &[&str; WORDS]) -> Result<bool, Stop> {
    let alloc = machine.alloc;
    let disk = &mut machine.disk;
    match words[0] {
        "close" => disk.close(words[1])?,
        "open" => {
            disk.before = machine.tree.store().visits();
            disk.open(alloc, number(words[1])? as usize)?;
        }
        "read" => disk.read(alloc, number(words[1])? as usize)?,
        "ask" => disk.ask(alloc)?,
        "back" => disk.back(alloc)?,
        "same-nodes" => same_nodes(machine)?,
        "calls" => disk.has_calls(number(words[1])?, number(words[2])?)?,
        _ => return Ok(false),
    }
    Ok(true)
}

/// The same, of lines on a device with a checkpoint.
fn run_device(machine: &mut Machine, words: &[&str; WORDS]) -> Result<bool, Stop> {
    let alloc = machine.alloc;
    let disk = &mut machine.disk;
    match words[0] {
        "root" => disk.has_root(alloc, words)?,
        "write" => disk.overwrite(alloc, words)?,
        "aside" => disk.put_aside()?,
        "copy" => disk.copy(words)?,
        "damaged" => disk.is_damaged(alloc, Some(number(words[1])?))?,
        "undamaged" => disk.is_damaged(alloc, None)?,
        "new" => renew(machine)?,
        _ => return Ok(false),
    }
    Ok(true)
}

/// Begins again without keys; the device that is kept stays.
fn renew(machine: &mut Machine) -> Result<(), Stop> {
    let aside = machine.disk.aside.take();
    *machine = Machine::new(machine.alloc)?;
    machine.disk.aside = aside;
    Ok(())
}

/// What is told of nodes but for their visits.
type Told = (u64, u64, usize, u64, u32);

/// What is told of these.
fn told(stored: &Stored<MemDevice>) -> Told {
    let pager = stored.pager();
    (
        pager.kept(),
        pager.next_id(),
        pager.root_size(),
        pager.changed(),
        pager.free(),
    )
}

/// Flushes, and writes changed nodes early.
fn flush_early(
    alloc: Global,
    stored: &mut Stored<MemDevice>,
    limit: usize,
    early: Option<u64>,
) -> Result<(), Stop> {
    flush(alloc, stored, limit)?;
    match early {
        Some(early) => Ok(stored.spill(early)?),
        None => Ok(()),
    }
}

/// What is there, or no meaning of the line.
fn there<T>(found: Option<T>) -> Result<T, Stop> {
    found.ok_or(Stop::NoLine)
}

impl Disk {
    /// Nothing.
    pub fn new(alloc: Global) -> Disk {
        Disk {
            stored: None,
            found: None,
            saved: None,
            at: Vec::new(alloc),
            slots: 0,
            aside: None,
            fail: Vec::new(alloc),
            before: 0,
            early: None,
        }
    }

    /// The device of the next image fails at these calls.
    pub fn fails(&mut self, calls: &str) -> Result<(), Stop> {
        for call in calls.split(' ') {
            self.fail.push(number(call)?)?;
        }
        Ok(())
    }

    /// After one more message, where there are nodes that may be changed.
    pub fn apply(&mut self, alloc: Global, list: &[Message]) -> Result<(), Stop> {
        match (&mut self.stored, list) {
            (Some(stored), [message]) => stored.apply(alloc, message),
            _ => Ok(()),
        }
    }

    /// After one more graft.
    pub fn graft(&mut self, alloc: Global, s: &[u8], d: &[u8], keep: bool) -> Result<(), Stop> {
        match &mut self.stored {
            Some(stored) => stored.graft(alloc, s, d, keep),
            None => Ok(()),
        }
    }

    /// With at most so many bytes that wait in the root.
    pub fn flush(&mut self, alloc: Global, limit: usize) -> Result<(), Stop> {
        match &mut self.stored {
            Some(stored) => flush_early(alloc, stored, limit, self.early),
            None => Ok(()),
        }
    }

    /// The nodes that are asked have this at a key, where there are such.
    pub fn is_at(&mut self, key: &[u8], value: Option<&[u8]>) -> Result<(), Stop> {
        match &mut self.found {
            Some(found) => is_at(found, key, value),
            None => Ok(()),
        }
    }

    /// The nodes that are asked have the keys of a map, where there are such.
    pub fn has_keys_of<M: KeyMap>(&mut self, alloc: Global, map: &mut M) -> Result<(), Stop> {
        match &mut self.found {
            Some(found) => same_keys(alloc, map, found).map(|_| ()),
            None => Ok(()),
        }
    }

    /// Begins an image.
    fn begin(&mut self, alloc: Global, words: &[&str; WORDS]) -> Result<(), Stop> {
        let slots = number(words[1])?.min(1_000) as u32;
        let room = number(words[2])? as usize;
        let writes = number(words[3])? as usize;
        self.slots = slots;
        self.stored = Some(in_memory(alloc, slots, room, writes, &self.fail)?);
        Ok(())
    }

    /// A checkpoint, whose table has this slot.
    fn save(&mut self, slot: &str) -> Result<(), Stop> {
        match &mut self.stored {
            Some(stored) => is_place(&stored.save()?, slot),
            None => Err(Stop::NoLine),
        }
    }

    /// A checkpoint fails, and leaves what is told of the nodes as it was.
    fn fails_to_save(&mut self) -> Result<(), Stop> {
        match &mut self.stored {
            Some(stored) => fails_to_save(stored),
            None => Err(Stop::NoLine),
        }
    }

    /// So many nodes were changed, and so many slots are free.
    fn has_usage(&self, changed: u64, free: u64) -> Result<(), Stop> {
        match &self.stored {
            Some(stored) => {
                within(stored.pager().changed(), changed, changed)?;
                within(u64::from(stored.pager().free()), free, free)
            }
            None => Err(Stop::NoLine),
        }
    }

    /// The device has failed so often.
    fn has_faults(&self, count: u64) -> Result<(), Stop> {
        match &self.stored {
            Some(stored) => within(stored.pager().faults(), count, count),
            None => Err(Stop::NoLine),
        }
    }

    /// The nodes' numbers are those of a tree in memory.
    fn has_numbers_of<S: NodeStore>(&self, tree: &Tree<S>) -> Result<(), Stop> {
        let (store, before) = (tree.store(), self.before);
        match &self.stored {
            Some(stored) => {
                let pager = stored.pager();
                let visits = store.visits().saturating_sub(before);
                within(pager.kept(), store.kept(), store.kept())?;
                within(pager.next_id(), store.next_id(), store.next_id())?;
                within(pager.visits(), visits, visits)?;
                ensure(pager.root_size() == store.root_size())
            }
            None => Err(Stop::NoLine),
        }
    }

    /// A checkpoint, whose table has this slot, after which only the device is left.
    fn close(&mut self, slot: &str) -> Result<(), Stop> {
        let saved = there(self.stored.take())?.saved(self.slots)?;
        self.at = saved.at.clone()?;
        self.saved = Some(saved);
        is_place(&self.at, slot)
    }

    /// The nodes of the device, to be changed.
    fn open(&mut self, alloc: Global, room: usize) -> Result<(), Stop> {
        self.stored = Some(Stored::open(alloc, there(self.saved.take())?, room)?);
        Ok(())
    }

    /// The nodes of the device, to be asked.
    fn read(&mut self, alloc: Global, room: usize) -> Result<(), Stop> {
        let saved = there(self.saved.take())?;
        self.before = saved.device.calls();
        let stored = Stored::open(alloc, saved, room)?;
        self.found = Some(Tree::over(alloc, stored.into_pager()));
        Ok(())
    }

    /// The nodes that may be changed, to be asked.
    fn ask(&mut self, alloc: Global) -> Result<(), Stop> {
        let stored = there(self.stored.take())?;
        self.found = Some(Tree::over(alloc, stored.into_pager()));
        Ok(())
    }

    /// Only the device with the last checkpoint.
    fn back(&mut self, alloc: Global) -> Result<(), Stop> {
        let at = Vec::from_slice(alloc, &self.at)?;
        let found = there(self.found.take())?;
        self.saved = Some(Saved {
            device: found.into_store().into_device(),
            slots: self.slots,
            at,
        });
        Ok(())
    }

    /// So many calls of the device since `read`.
    fn has_calls(&self, low: u64, high: u64) -> Result<(), Stop> {
        match &self.found {
            Some(found) => within(found.store().calls().saturating_sub(self.before), low, high),
            None => Err(Stop::NoLine),
        }
    }

    /// The table has one node, with this id, so many references and this slot.
    fn has_root(&mut self, alloc: Global, words: &[&str; WORDS]) -> Result<(), Stop> {
        match &mut self.saved {
            Some(saved) => is_root(&table_of(alloc, saved)?, words),
            None => Err(Stop::NoLine),
        }
    }

    /// Other bytes in a block, and zeros after them.
    fn overwrite(&mut self, alloc: Global, words: &[&str; WORDS]) -> Result<(), Stop> {
        let block = number(words[1])?;
        let text = bytes(alloc, words[2])?;
        let mut bytes = [0; BLOCK_SIZE];
        for (byte, from) in bytes.iter_mut().zip(text.as_slice()) {
            *byte = *from;
        }
        match &mut self.saved {
            Some(saved) => overwrite(&mut saved.device, block, &bytes),
            None => Err(Stop::NoLine),
        }
    }

    /// Keeps the device.
    fn put_aside(&mut self) -> Result<(), Stop> {
        let saved = there(self.saved.take())?;
        self.aside = Some(saved.device);
        Ok(())
    }

    /// Copies blocks of the device that is kept.
    fn copy(&mut self, words: &[&str; WORDS]) -> Result<(), Stop> {
        let first = number(words[1])?;
        let into = number(words[2])?;
        let count = number(words[3])?;
        match (&mut self.aside, &mut self.saved) {
            (Some(from), Some(saved)) => {
                copy_blocks(from, &mut saved.device, (first, into), count)
            }
            _ => Err(Stop::NoLine),
        }
    }

    /// This block is damaged, or none, where the nodes are read again and all keys of one byte are
    /// asked.
    fn is_damaged(&mut self, alloc: Global, block: Option<u64>) -> Result<(), Stop> {
        let found = match self.read(alloc, 64) {
            Ok(()) => self.ask_all(),
            Err(stop) => Err(stop),
        };
        match found {
            Ok(()) => ensure(block.is_none()),
            Err(Stop::Image(ImageFault::Damaged { block: at }))
            | Err(Stop::Map(MapFault::Damaged { block: at })) => ensure(block == Some(at)),
            Err(stop) => Err(stop),
        }
    }

    /// Asks all keys of one byte.
    fn ask_all(&mut self) -> Result<(), Stop> {
        match &mut self.found {
            Some(found) => ask_all(found),
            None => Err(Stop::NoLine),
        }
    }
}

/// Whether a table has this slot alone, where one is named.
fn is_place(at: &[u32], slot: &str) -> Result<(), Stop> {
    if slot == "-" {
        return Ok(());
    }
    let slot = number(slot)?;
    match at {
        [first] => within(u64::from(*first), slot, slot),
        _ => Err(Stop::Differs),
    }
}

/// A checkpoint fails, and leaves what is told of the nodes as it was.
fn fails_to_save(stored: &mut Stored<MemDevice>) -> Result<(), Stop> {
    let before = told(stored);
    let visits = stored.pager().visits();
    match stored.save() {
        Err(ImageFault::DeviceFault) => {
            ensure(told(stored) == before && stored.pager().visits() == visits)
        }
        Ok(_) | Err(_) => Err(Stop::Differs),
    }
}

/// Flushes until at most so many bytes wait, and goes on where a step over the device fails.
fn failing_flush(machine: &mut Machine, limit: usize) -> Result<(), Stop> {
    flush_tree(&mut machine.tree, limit)?;
    match &mut machine.disk.stored {
        Some(stored) => flush_on(machine.alloc, stored, limit),
        None => Err(Stop::NoLine),
    }
}

/// The same over the device, if each failure leaves what is told of the nodes as it was.
fn flush_on(alloc: Global, stored: &mut Stored<MemDevice>, limit: usize) -> Result<(), Stop> {
    for _ in 0..1_000 {
        let before = told(stored);
        match stored.flush_step(alloc, limit) {
            Ok(true) => {}
            Ok(false) => return Ok(()),
            Err(MapFault::DeviceFault) => ensure(told(stored) == before)?,
            Err(fault) => return Err(Stop::Map(fault)),
        }
    }
    Err(Stop::NoLine)
}

/// The nodes that are asked are those of the tree, each named as often.
fn same_nodes(machine: &mut Machine) -> Result<(), Stop> {
    let want = walked(machine.alloc, machine.tree.store_mut())?;
    match &mut machine.disk.found {
        Some(found) => ensure(walked(machine.alloc, found.store_mut())? == want),
        None => Err(Stop::NoLine),
    }
}

/// The table of a checkpoint.
fn table_of(alloc: Global, saved: &mut Saved<MemDevice>) -> Result<Table, Stop> {
    let fits = saved.device.blocks() == image_blocks(saved.slots);
    if !fits || !is_table_place(saved.slots, &saved.at) {
        return Err(Stop::NoLine);
    }
    Ok(read(alloc, &mut saved.device, saved.slots, &saved.at)?)
}

/// Whether a table has one node, with this id, so many references and this slot.
fn is_root(table: &Table, words: &[&str; WORDS]) -> Result<(), Stop> {
    let want = (number(words[1])?, number(words[2])?, number(words[3])?);
    match table.entries.as_slice() {
        [entry] => ensure((entry.id, entry.refs, u64::from(entry.slot)) == want),
        _ => Err(Stop::Differs),
    }
}

/// Writes a block, where there is one.
fn overwrite(device: &mut MemDevice, block: u64, bytes: &[u8; BLOCK_SIZE]) -> Result<(), Stop> {
    if block >= device.blocks() {
        return Err(Stop::NoLine);
    }
    Ok(device.write(block, bytes)?)
}

/// Copies so many blocks to another device, from one block on to another one on.
fn copy_blocks(
    from: &mut MemDevice,
    to: &mut MemDevice,
    places: (u64, u64),
    count: u64,
) -> Result<(), Stop> {
    let (first, into) = places;
    let mut bytes = [0; BLOCK_SIZE];
    for index in 0..count {
        let block = first.saturating_add(index);
        if block >= from.blocks() {
            return Err(Stop::NoLine);
        }
        from.read(block, &mut bytes)?;
        overwrite(to, into.saturating_add(index), &bytes)?;
    }
    Ok(())
}

/// Asks all keys of one byte.
fn ask_all(tree: &mut Tree<Pager<MemDevice>>) -> Result<(), Stop> {
    for number in 0..=255 {
        let _value = tree.get(&[number])?;
    }
    Ok(())
}
