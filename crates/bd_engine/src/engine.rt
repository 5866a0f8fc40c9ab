//! The engine.

ghost use Rattle.std.specs.Prelude.{◌≡◌, ◌+◌, ◌^◌, ◌<◌, ◌≤◌};
ghost use Rattle.bd_dirs.specs.Kinds.{kind_of};
ghost use Rattle.bd_pager.specs.Pagers.{table_of};
ghost use Rattle.bd_recall.specs.Kept.{KeepsNone};
ghost use Rattle.bd_view.specs.Views.{height, free_slots, save_slots, step_slots, need_slots, record_room};
ghost use Rattle.bd_engine.specs.Engines.{started, view_of, MayStart};

mod changing;
mod logging;
mod reclaiming;
mod saving;
mod spilling;
mod starting;
mod telling;

use bd_checkpoint::has_record;
use bd_command::Command;
use bd_device::Device;
use bd_effects::waiting_limit;
use bd_graft::Walk;
use bd_limits::LATE_ROOT;
use bd_log::Log;
use bd_pager::Pager;
use bd_recall::{Recalled, Recalling};
use bd_shown::laws::numbers_are_shown;
use bd_slots::table_length;
use bd_super::Super;
use bd_tree::Tree;
pub use starting::Opened;
use std::alloc::Global;
use std::marker::Model;

// How many slots the messages of a `remove` or a `truncate` may need.
const LATE_SLOTS: u64 = 4;

// How many another step may need, beside two for each node on the way down.
const STEP_SLOTS: u64 = 8;

/// The nodes of an image on a device, its log and its last checkpoint. At most 64 nodes are cached,
/// which were read from slots or written there, beside the root.
#[derive(Drop)]
pub struct Engine<D: Device> {
    alloc: Global,
    tree: Recalling<Tree<Pager<D>>>,
    log: Log,
    live: Super,
    stop: Option<u64>,
    flushes: u64,
}

impl<D: Device> Model for Engine<D> {
    ghost use Rattle.bd_recall.specs.Kept.{findings};
    ghost use Rattle.bd_engine.specs.Engines.{EngineState, IsStanding, seen};

    ghost Value = { EngineState D };

    ghost view = { λ e. seen e.tree.map.store (findings e.tree.recalled) e.log e.live e.stop
        e.tree.map.walk e.flushes };

    ghost invariant = { λ e. IsStanding D.Device
        (seen e.tree.map.store (findings e.tree.recalled) e.log e.live e.stop e.tree.map.walk
        e.flushes) };
}

impl<D: Device> Engine<D> {
    /// The engine of these parts, which goes on, and of which nothing is known but them.
    pub fn over(alloc: Global, pager: Pager<D>, log: Log, live: Super) -> Engine<D>
        requires { MayStart D.Device pager log live }
        ensures started { result ≡ started pager result.recalled log live }
        ensures fresh { KeepsNone result.recalled }
    {
        Engine {
            alloc,
            tree: Recalling {
                map: Tree::over(alloc, pager),
                recalled: Recalled::new(alloc),
            },
            log,
            live,
            stop: None,
            flushes: 0,
        }
    }

    /// How many slots the last checkpoint doesn't hold.
    pub fn free(&self) -> u64
        ensures { result ≡ free_slots (view_of D.Device self.now) }
    {
        numbers_are_shown::<D>();
        u64::from(self.tree.map.store().free())
    }

    /// How many slots a checkpoint would be written to.
    pub fn save_need(&self) -> u64
        ensures value { result ≡ save_slots (view_of D.Device self.now) }
        ensures small { result + 4096 < 2 ^ 64 }
    {
        numbers_are_shown::<D>();
        let pager = self.tree.map.store();
        pager.nodes_are_placed();
        pager.changed() + table_length(pager.kept() as usize) as u64
    }

    /// How many slots have to be free for a command's next step, a flush step or what it sends, so
    /// that a checkpoint can be written after it.
    pub fn need(&self, command: &Command) -> u64
        ensures { result ≡ need_slots command.now (view_of D.Device self.now) }
    {
        self.save_need() + self.step_need(command)
    }

    // How many slots that step itself may need.
    fn step_need(&self, command: &Command) -> u64
        ensures value { result ≡ step_slots (kind_of command.now) (table_of self.now.pager) }
        ensures small { result ≤ 4096 }
    {
        if waiting_limit(command) == LATE_ROOT && self.root_size() <= LATE_ROOT {
            return LATE_SLOTS;
        }
        2 * self.height() + STEP_SLOTS
    }

    // How many nodes stand one below the other.
    fn height(&self) -> u64
        ensures value { result ≡ height (table_of self.now.pager) }
        ensures low { result ≤ 1001 }
    {
        let pager = self.tree.map.store();
        pager.nodes_are_placed();
        u64::from(pager.level(pager.root())) + 1
    }

    /// How many bytes of messages wait in the root.
    pub fn root_size(&self) -> usize
        ensures { result ≡ (table_of self.now.pager).size }
    {
        self.tree.map.store().root_size()
    }

    /// For how many bytes of a command's record the log has room, beside those that wait: for none,
    /// where the image's version has no such record.
    pub fn record_room(&self, command: &Command) -> usize
        ensures { result ≡ record_room command.now (view_of D.Device self.now) }
    {
        if has_record(self.live.version, command) {
            self.log.left()
        } else {
            0
        }
    }

    /// How the last graft went that gave no fault.
    pub fn last_walk(&self) -> Walk
        ensures { result ≡ (view_of D.Device self.now).tree.walk }
    {
        self.tree.map.last_walk()
    }

    /// How many flush steps it has made, up to a u64's last value.
    pub fn flushes(&self) -> u64
        ensures { result ≡ self.now.flushes }
    {
        self.flushes
    }

    /// How many slots the image has.
    pub fn slots(&self) -> u32
        ensures { result ≡ (view_of D.Device self.now).slots }
    {
        self.live.slots
    }

    /// How many calls of the device there were, also those that failed.
    pub fn calls(&self) -> u64
        ensures { result ≡ D.call_count self.now.pager.dev }
    {
        self.tree.map.store().calls()
    }

    /// The same engine, of which no graft is told any more.
    pub fn forget_walk(self) -> Engine<D>
        ensures { result ≡ record self { walk = record { visits = 0; height = 0 } } }
    {
        let Engine {
            alloc,
            tree,
            log,
            live,
            stop,
            flushes,
        } = self;
        let Recalling { map, recalled } = tree;
        Engine {
            alloc,
            tree: Recalling {
                map: Tree::over(alloc, map.into_store()),
                recalled,
            },
            log,
            live,
            stop,
            flushes,
        }
    }

    /// The device, in place of the engine.
    pub fn into_device(self) -> D
        ensures { result ≡ self.pager.dev }
    {
        self.tree.map.into_store().into_device()
    }

    /// The number of the device's call at which it was stopped, where it was.
    pub fn stop(&self) -> Option<u64>
        ensures { result ≡ self.now.stop }
    {
        self.stop
    }
}
