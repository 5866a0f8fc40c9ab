//! Nodes over a device, which can be saved and read again.

use crate::stop::Stop;
use bd_device::{Device, ImageFault, MemDevice};
use bd_graft::graft;
use bd_io::Failed;
use bd_keys::starts;
use bd_limits::{GRAFT_SIZE, MAX_BUFFER, MAX_KEY, MAX_SLOTS};
use bd_message::{MapFault, Message};
use bd_node::Messages;
use bd_pager::Pager;
use bd_slots::{image_blocks, is_table_place, table_length};
use bd_step::flush_step;
use std::alloc::Global;
use std::marker::Model;

/// A pager over a device that has the blocks of an image.
#[derive(Drop)]
pub struct Stored<D: Device> {
    pager: Pager<D>,
}

impl<D: Device> Model for Stored<D> {
    ghost use Rattle.bd_pager.specs.Pagers.{Paged};
    ghost use Rattle.rows_tree.specs.Images.{IsOnImage};

    ghost Value = { Paged D };

    ghost view = { λ s. s.pager };

    ghost invariant = { λ s. IsOnImage D.Device s.pager };
}

/// A device of so many slots with a checkpoint, whose table has the slots `at`.
#[derive(Drop)]
pub struct Saved<D> {
    pub device: D,
    pub slots: u32,
    pub at: Vec<u32>,
}

impl<D: Device + Drop> Stored<D> {
    /// A pager that has saved nothing and keeps at most `room` nodes that it has read. A device
    /// that hasn't the blocks of so many slots faults.
    pub fn fresh(
        alloc: Global,
        device: D,
        slots: u32,
        room: usize,
    ) -> Result<Stored<D>, ImageFault> {
        if slots > MAX_SLOTS || device.blocks() != image_blocks(slots) || room == 0 {
            return Err(ImageFault::DeviceFault);
        }
        match Pager::fresh(alloc, device, slots, room) {
            Ok(pager) => Ok(Stored { pager }),
            Err(refused) => Err(refused.fault),
        }
    }

    /// The pager over a checkpoint. A device that hasn't the blocks of so many slots faults.
    pub fn open(alloc: Global, saved: Saved<D>, room: usize) -> Result<Stored<D>, ImageFault> {
        let Saved { device, slots, at } = saved;
        if slots > MAX_SLOTS || device.blocks() != image_blocks(slots) || room == 0 {
            return Err(ImageFault::DeviceFault);
        }
        if !is_table_place(slots, &at) {
            return Err(ImageFault::DeviceFault);
        }
        match Pager::open(alloc, device, slots, at, room) {
            Ok(pager) => Ok(Stored { pager }),
            Err(refused) => Err(refused.fault),
        }
    }

    /// The pager, which is lent.
    pub fn pager(&self) -> &Pager<D> {
        &self.pager
    }

    /// The pager.
    pub fn into_pager(self) -> Pager<D> {
        let Stored { pager } = self;
        pager
    }

    /// One more message, where there is room.
    #[tactic(auto, using(crate::proofs::ImageLemmas::images))]
    pub fn apply(&mut self, alloc: Global, message: &Message) -> Result<(), Stop> {
        let room = MAX_BUFFER.saturating_sub(self.pager.root_size());
        if !message.is_message() || message.size() > room {
            return Err(Stop::NoLine);
        }
        if let Message::Goto { .. } = message {
            return Err(Stop::NoLine);
        }
        let mut list = Vec::new(alloc);
        list.push(message.clone()?)?;
        self.pager.append(Messages::from_vec(list))?;
        Ok(())
    }

    /// One more graft, where it is allowed.
    #[tactic(auto, using(crate::proofs::ImageLemmas::images))]
    pub fn graft(&mut self, alloc: Global, s: &[u8], d: &[u8], keep: bool) -> Result<(), Stop> {
        let room = MAX_BUFFER.saturating_sub(self.pager.root_size());
        let is_short = s.len() <= MAX_KEY && d.len() <= MAX_KEY;
        if !is_short || room < GRAFT_SIZE || (!keep && starts(d, s)) {
            return Err(Stop::NoLine);
        }
        graft(alloc, &mut self.pager, s, d, keep)?;
        Ok(())
    }

    /// A step of a flush, where more than so many bytes wait. Whether it was made.
    #[tactic(auto, using(crate::proofs::ImageLemmas::images))]
    pub fn flush_step(&mut self, alloc: Global, limit: usize) -> Result<bool, MapFault> {
        flush_step(alloc, &mut self.pager, limit)
    }

    /// Writes changed nodes early.
    #[tactic(auto, using(crate::proofs::ImageLemmas::images))]
    pub fn spill(&mut self, early: u64) -> Result<(), Failed> {
        self.pager.spill(early)
    }

    /// Makes a checkpoint, whose table has the slots that are returned. Where there is no room for
    /// it, that is want of memory.
    pub fn save(&mut self) -> Result<Vec<u32>, ImageFault> {
        let taken = table_length(self.pager.kept() as usize) as u64;
        if self.pager.changed().saturating_add(taken) > u64::from(self.pager.free()) {
            return Err(ImageFault::NoMemory);
        }
        let at = self.pager.write_out()?;
        self.pager.mark_saved();
        Ok(at.into_vec())
    }

    /// Makes a checkpoint, and leaves the device with it alone.
    pub fn saved(mut self, slots: u32) -> Result<Saved<D>, Stop> {
        let at = self.save()?;
        Ok(Saved {
            device: self.into_pager().into_device(),
            slots,
            at,
        })
    }
}

/// A pager that has saved nothing over a device in memory of so many slots, which can keep so many
/// writes and fails at the calls of these numbers.
pub fn in_memory(
    alloc: Global,
    slots: u32,
    room: usize,
    writes: usize,
    fail: &[u64],
) -> Result<Stored<MemDevice>, Stop> {
    if slots > MAX_SLOTS {
        return Err(Stop::NoLine);
    }
    let device = MemDevice::new(alloc, image_blocks(slots), writes, fail)?;
    Ok(Stored::fresh(alloc, device, slots, room)?)
}

/// Flushes until at most so many bytes wait in the root.
pub fn flush<D: Device + Drop>(
    alloc: Global,
    stored: &mut Stored<D>,
    limit: usize,
) -> Result<(), Stop> {
    for _ in 0..1_000 {
        if !stored.flush_step(alloc, limit)? {
            return Ok(());
        }
    }
    Err(Stop::NoLine)
}
