//! What follows from the definition of a pager's view. Each function here carries laws, and does
//! nothing.

ghost use Rattle.std.specs.Prelude.{◌≡◌, ◌≤◌, ◌+◌, ℕ, length, Option};
ghost use Rattle.bd_device.specs.Blocks.{Image};
ghost use Rattle.bd_graft.specs.declared.grafting.Walk.{Walk};
ghost use Rattle.bd_table.specs.Tables.{IsTableAt};
ghost use Rattle.bd_pager.specs.Counting.{changed_of, free_of};
ghost use Rattle.bd_pager.specs.Keeping.{KeepsSaved};
ghost use Rattle.bd_pager.specs.Moving.{Spills};
ghost use Rattle.bd_pager.specs.Pagers.{Paged, is_known, IsPaged, IsReadOf};
ghost use Rattle.bd_image.specs.Versions.{mode_version};
ghost use Rattle.bd_view.specs.Views.{changed_count, free_slots, save_slots};
ghost use Rattle.bd_view.specs.Moves.{OnlyNodes, Saves};
ghost use Rattle.bd_shown.specs.Shown.{shown, IsCheckpointed};

use bd_device::Device;
use bd_pager::laws::spills_change_nothing;
use bd_view::laws::kept_nodes_are_listed;

/// The numbers of a pager are those of its view, where the last checkpoint's table has as many
/// slots as it takes.
pub fn numbers_are_shown<D: Device>()
    ensures changed { (contents : Option Image) (p : Paged D) (walk : Walk)
        (version epoch place waiting : ℕ) → IsPaged contents p
        → changed_of p ≡ changed_count (shown D.Device p walk version epoch place waiting) }
    ensures free { (p : Paged D) (walk : Walk) (version epoch place waiting : ℕ)
        → IsTableAt (length p.spare) p.at p.saved
        → free_of p ≡ free_slots (shown D.Device p walk version epoch place waiting) }
{}

/// Reads leave the view, and so does what moves nodes from memory to their slots.
pub fn moved_nodes_are_shown_alike<D: Device>()
    ensures reads { (old new : Paged D) (walk : Walk) (version epoch place waiting : ℕ)
        → IsReadOf D.Device old new → shown D.Device new walk version epoch place waiting
        ≡ shown D.Device old walk version epoch place waiting }
    ensures spills { (old new : Paged D) (walk : Walk) (version epoch place waiting : ℕ)
        → is_known D.Device old → Spills D.Device old new
        → shown D.Device new walk version epoch place waiting
        ≡ shown D.Device old walk version epoch place waiting }
{
    spills_change_nothing::<D>();
}

/// Calls that keep the last checkpoint change nodes alone.
pub fn kept_checkpoints_are_shown<D: Device>()
    ensures { (before after : Option Image) (old new : Paged D) (walk next : Walk)
        (version epoch place waiting : ℕ) → IsPaged before old → IsPaged after new
        → IsTableAt (length old.spare) old.at old.saved → is_known D.Device old
        → is_known D.Device new → KeepsSaved D.Device old new
        → OnlyNodes (shown D.Device old walk version epoch place waiting)
        (shown D.Device new next version epoch place waiting) }
{}

/// A checkpoint of all nodes is one of the view, where slots were free for it.
pub fn checkpoints_are_shown<D: Device>()
    ensures { (contents : Option Image) (old new : Paged D) (walk : Walk)
        (version epoch place waiting : ℕ) → IsPaged contents new → IsCheckpointed D.Device old new
        → save_slots (shown D.Device old walk version epoch place waiting)
        ≤ free_slots (shown D.Device old walk version epoch place waiting)
        → Saves (shown D.Device old walk version epoch place waiting)
        (shown D.Device new walk mode_version (epoch + 1) 0 0) }
{
    kept_nodes_are_listed();
}
