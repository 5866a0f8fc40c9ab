//! What an engine tells of itself.

ghost use Rattle.std.specs.Prelude.{◌≡◌, ◌≤◌, ℕ, None, IfSome};
ghost use Rattle.bd_limits.specs.Limits.{cached_limit};
ghost use Rattle.bd_super.specs.Live.{IsLive};
ghost use Rattle.bd_pager.specs.Pagers.{cached_of, is_bad};
ghost use Rattle.bd_checkpoint.specs.Recovering.{IsBadIn};
ghost use Rattle.bd_view.specs.Views.{changed_count};
ghost use Rattle.bd_engine.specs.Engines.{view_of, IsSoundOn};

use super::Engine;
use bd_device::Device;
use bd_format::laws::images_are_decoded;
use bd_shown::laws::numbers_are_shown;
use std::alloc::Global;

impl<D: Device> Engine<D> {
    /// The allocator that it takes its memory of.
    pub fn allocator(&self) -> Global {
        self.alloc
    }

    /// How many commands the last checkpoint counts.
    pub fn saved_count(&self) -> u64
        ensures { result ≡ self.now.live.count }
    {
        self.live.count
    }

    /// How many nodes were changed since the last checkpoint.
    pub fn changed(&self) -> u64
        ensures { result ≡ changed_count (view_of D.Device self.now) }
    {
        numbers_are_shown::<D>();
        let pager = self.tree.map.store();
        pager.nodes_are_placed();
        pager.changed()
    }

    /// At most 64 nodes are cached, beside the root. It does nothing.
    pub fn few_are_cached(&self)
        ensures { cached_of self.now.pager ≤ cached_limit }
    {
        self.tree.map.store().few_are_cached();
    }

    /// What reads give is an image that starts from the last checkpoint's superblock, unless it is
    /// stopped. It does nothing.
    pub fn live_is_shown(&self)
        ensures { self.now.stop ≡ None → IfSome (D.contents self.now.pager.dev)
            (λ image. IsLive image self.now.live) }
    {
        let _ = &self.live;
    }

    /// Of an engine that isn't stopped a bad block is why the image that reads give stands for no
    /// tree. It does nothing.
    pub fn damage_is_shown(&self)
        ensures { (block : ℕ) → self.now.stop ≡ None → is_bad D.Device self.now.pager block
            → IsBadIn (D.contents self.now.pager.dev) block }
    {
        let pager = self.tree.map.store();
        let _ = pager.blocks();
        pager.nodes_are_placed();
    }

    /// Where the nodes are known and sound, no block is bad. It does nothing.
    pub fn sound_nodes_are_undamaged(&self)
        ensures { IsSoundOn D.Device self.now
            → (block : ℕ) → ¬ is_bad D.Device self.now.pager block }
    {
        images_are_decoded();
        self.tree.map.store().nodes_are_placed();
    }
}
