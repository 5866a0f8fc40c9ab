//! That one verdict is right of a map. The function here carries a law of the definitions, and does
//! nothing.

ghost use Rattle.std.specs.Prelude.{◌≡◌, ℕ, Bool};
ghost use Rattle.bd_message.specs.KeyMaps.{At};
ghost use Rattle.bd_entries.specs.Verdicts.{IsVerdict};
ghost use Rattle.bd_entries.specs.declared.check.Entries.{Entries};

/// No two verdicts are right of a map and a number of keys that are looked at.
pub fn verdicts_are_one()
    ensures { (has_modes : Bool) (at : At) (most : ℕ) (v w : Entries)
        → IsVerdict has_modes at most v → IsVerdict has_modes at most w → v ≡ w }
{}
