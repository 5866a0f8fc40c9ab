//! What cutting, extending and overwriting do, byte by byte. Each function here carries laws of the
//! definitions, and does nothing.

ghost use Rattle.std.specs.Prelude.{◌≡◌, ◌+◌, ◌<◌, ◌≤◌, List, ℕ, length, max, slice_index};
ghost use Rattle.bd_keys.specs.Edits.{resized, overwritten};

/// Bytes of a new length are the old ones up to there, and zeros after their end.
pub fn resized()
    ensures long { (old : List ℕ) (len : ℕ) → length (resized old len) ≡ len }
    ensures kept { (old : List ℕ) (len i : ℕ) → i < len → i < length old
        → slice_index (resized old len) i ≡ slice_index old i }
    ensures zero { (old : List ℕ) (len i : ℕ) → i < len → length old ≤ i
        → slice_index (resized old len) i ≡ 0 }
{}

/// Overwritten bytes are the new ones from the offset on, the old ones before and after them, and
/// zeros from the old end to the offset.
pub fn overwritten()
    ensures long { (old : List ℕ) (off : ℕ) (bytes : List ℕ)
        → length (overwritten old off bytes) ≡ max (length old) (off + length bytes) }
    ensures new { (old : List ℕ) (off : ℕ) (bytes : List ℕ) (i : ℕ) → i < length bytes
        → slice_index (overwritten old off bytes) (off + i) ≡ slice_index bytes i }
    ensures before { (old : List ℕ) (off : ℕ) (bytes : List ℕ) (i : ℕ) → i < off → i < length old
        → slice_index (overwritten old off bytes) i ≡ slice_index old i }
    ensures gap { (old : List ℕ) (off : ℕ) (bytes : List ℕ) (i : ℕ) → i < off → length old ≤ i
        → slice_index (overwritten old off bytes) i ≡ 0 }
    ensures after { (old : List ℕ) (off : ℕ) (bytes : List ℕ) (i : ℕ) → off + length bytes ≤ i
        → slice_index (overwritten old off bytes) i ≡ slice_index old i }
{}
