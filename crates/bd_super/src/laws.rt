//! What follows from the definitions.

ghost use Rattle.std.specs.Prelude.{◌≡◌, ◌≤◌, ℕ, length};
ghost use Rattle.bd_limits.specs.Limits.{slot_minimum};
ghost use Rattle.bd_slots.specs.Layout.{image_blocks};
ghost use Rattle.bd_device.specs.Blocks.{Image};
ghost use Rattle.bd_super.specs.Superblocks.{IsSuper, super_body, written_version};
ghost use Rattle.bd_super.specs.Live.{IsLive, IsDamaged};
ghost use Rattle.bd_super.specs.Published.{CanFollow};
ghost use Rattle.bd_super.specs.declared.superblock.Super.{Super};

use crate::WRITTEN_VERSION;

/// The version that is written.
pub fn a_version_is_written()
    ensures { WRITTEN_VERSION ≡ written_version }
{}

/// No two superblocks of a half have one body, so what was written is read again.
pub fn superblocks_are_read_again()
    ensures { (a b : Super) → IsSuper a → IsSuper b → a.half ≡ b.half
        → super_body a ≡ super_body b → a ≡ b }
{}

/// An image starts from one superblock.
pub fn one_superblock_is_live()
    ensures { (image : Image) (a b : Super) → IsLive image a → IsLive image b → a ≡ b }
{}

/// An image with a live superblock isn't damaged, and one that is damaged is so at one block.
pub fn damage_is_exact()
    ensures live { (image : Image) (s : Super) (b : ℕ) → IsLive image s → ¬ IsDamaged image b }
    ensures one { (image : Image) (a b : ℕ) → IsDamaged image a → IsDamaged image b → a ≡ b }
{}

/// In an image of enough blocks where no half is committed each superblock can be the first one.
pub fn damage_of_the_first_block()
    ensures { (image : Image) (s : Super) → IsDamaged image 0
        → image_blocks slot_minimum ≤ length image → CanFollow s image }
{}
