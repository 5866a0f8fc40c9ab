//! What follows from the definitions of slots. Each function here carries laws, and does nothing.

ghost use Rattle.std.specs.Prelude.{◌≡◌, ◌<◌, ◌≤◌, ℕ, List, Bool};
ghost use Rattle.bd_limits.specs.Limits.{first_slot_block};
ghost use Rattle.bd_slots.specs.Slots.{IsHeld};
ghost use Rattle.bd_device.specs.Blocks.{Image};
ghost use Rattle.bd_device.specs.Changes.{SameBut, IsInRange};
ghost use Rattle.bd_device.specs.Commits.{block_at};
ghost use Rattle.bd_pager.specs.Keeping.{KeepsSaved};
ghost use Rattle.bd_pager.specs.Moving.{Spills};
ghost use Rattle.bd_pager.specs.Pagers.{Paged, is_known, nodes_of, table_of, IsReadOf};
ghost use Rattle.bd_tails.specs.Tails.{slot_bytes};
ghost use Rattle.bd_pager.specs.Slots.{IsSpare};

use bd_device::Device;

/// A slot keeps its bytes where only blocks before the first slot have changed, and where only
/// spare slots have, of which it is none; then each block before the first slot stays too.
pub fn slots_survive()
    ensures before { (from to : ℕ) (old new : Image) → to ≤ first_slot_block
        → SameBut (IsInRange from to) old new → (slot : ℕ)
        → slot_bytes new slot ≡ slot_bytes old slot }
    ensures held { (spare : List Bool) (old new : Image) → SameBut (IsSpare spare) old new
        → (slot : ℕ) → IsHeld spare slot → slot_bytes new slot ≡ slot_bytes old slot }
    ensures others { (spare : List Bool) (old new : Image) → SameBut (IsSpare spare) old new
        → (b : ℕ) → b < first_slot_block → block_at new b ≡ block_at old b }
{}

/// What reads of a pager leave, and what any call is to leave of its last checkpoint, goes on over
/// several of them; reads leave no less, and what is known after them was known before.
pub fn calls_go_on<D: Device>()
    ensures none { (p : Paged D) → IsReadOf D.Device p p }
    ensures both { (a b c : Paged D) → IsReadOf D.Device a b → IsReadOf D.Device b c
        → IsReadOf D.Device a c }
    ensures known { (a b : Paged D) → IsReadOf D.Device a b → is_known D.Device b
        → is_known D.Device a }
    ensures keep { (a b : Paged D) → IsReadOf D.Device a b → KeepsSaved D.Device a b }
    ensures keeps_both { (a b c : Paged D) → KeepsSaved D.Device a b → KeepsSaved D.Device b c
        → KeepsSaved D.Device a c }
{}

/// What `spill` leaves: nothing that is seen changes. The table is the same, and what is known stays
/// known and the same.
pub fn spills_change_nothing<D: Device>()
    ensures table { (p q : Paged D) → Spills D.Device p q → table_of q ≡ table_of p }
    ensures known { (p q : Paged D) → Spills D.Device p q → is_known D.Device p
        → is_known D.Device q }
    ensures nodes { (p q : Paged D) → Spills D.Device p q → is_known D.Device p → (id : ℕ)
        → nodes_of D.Device q id ≡ nodes_of D.Device p id }
{}
