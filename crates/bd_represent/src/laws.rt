//! That a key map represents one tree, and what changes of it do to that tree. Each function here
//! carries a law of the definitions, and does nothing.

ghost use Rattle.std.specs.Prelude.{◌≡◌, ◌≢◌, ℕ, ◌+◌, ◌-◌, ◌*◌, ◌^◌, ◌<◌, ◌≤◌, Bool, List, length, Some, None, cond};
ghost use Rattle.std.specs.Option.{option_and_then};
ghost use Rattle.std.specs.FinMap.{get, insert};
ghost use Rattle.bd_limits.specs.Limits.{block_limit};
ghost use Rattle.bd_keys.specs.Edits.{resized, overwritten};
ghost use Rattle.bd_keys.specs.Keys.{IsKey};
ghost use Rattle.bd_names.specs.Names.{AreNames, key_of};
ghost use Rattle.bd_model.specs.Tree.{Entry, Tree, IsTree};
ghost use Rattle.bd_model.specs.Step.{file_bytes, without};
ghost use Rattle.bd_message.specs.Effect.{begins};
ghost use Rattle.bd_message.specs.KeyMaps.{At, grafted};
ghost use Rattle.bd_represent.specs.EntryKeys.{record_key, block_key};
ghost use Rattle.bd_represent.specs.Represents.{record_value, stored, kept_block, HasBytes, HasOnlyEntries, IsSameBeside, Represents};
ghost use Rattle.bd_represent.specs.Plans.{source};

/// A key map represents one tree.
pub fn one_represented()
    ensures { (at : At) (t u : Tree) → IsTree t → IsTree u → Represents at t → Represents at u
        → t ≡ u }
{}

/// Where the record and the blocks of a path are those of an entry, and nothing else changed, the
/// entry stands there.
pub fn new_entry()
    ensures { (old new : At) (t : Tree) (path : List (List ℕ)) (e : Entry) → Represents old t
        → IsSameBeside path old new → new (record_key path) ≡ Some (record_value e)
        → HasBytes new path (file_bytes (Some e)) → HasOnlyEntries new
        → Represents new (insert t path e) }
{}

/// Where bytes of one block are overwritten, the same bytes of the file are.
pub fn new_block()
    ensures { (old new : At) (path : List (List ℕ)) (file piece : List ℕ) (b o : ℕ)
        → 1 ≤ length piece → o + length piece ≤ block_limit → b < 2 ^ 32
        → new (block_key path b) ≡ Some (overwritten (stored old path b) o piece)
        → ((i : ℕ) → i < 2 ^ 32 → i ≢ b → new (block_key path i) ≡ old (block_key path i))
        → HasBytes old path file
        → HasBytes new path (overwritten file (block_limit * b + o) piece) }
{}

/// Where each block is cut to what is left of it, the file is.
pub fn cut_blocks()
    ensures { (old new : At) (path : List (List ℕ)) (file : List ℕ) (len : ℕ) → len ≤ length file
        → ((i : ℕ) → i < 2 ^ 32 → new (block_key path i)
        ≡ kept_block (len - block_limit * i) (old (block_key path i)))
        → HasBytes old path file → HasBytes new path (resized file len) }
{}

/// Where all keys that begin with the key of a path go, the path and all below it do.
pub fn cut_subtree()
    ensures { (old new : At) (t : Tree) (path : List (List ℕ)) → AreNames path → Represents old t
        → ((k : List ℕ) → IsKey k → new k ≡ cond (begins k (key_of path)) None (old k))
        → Represents new (without path t) }
{}

/// After a graft of the key of `a` to that of `b` each path has what its source had.
pub fn grafted()
    ensures { (old new : At) (t u : Tree) (a b : List (List ℕ)) (keep : Bool) → AreNames a
        → AreNames b → Represents old t
        → ((q : List (List ℕ)) → AreNames q
        → get u q ≡ option_and_then (get t) (source a b keep q))
        → ((k : List ℕ) → IsKey k → new k ≡ grafted old (key_of a) (key_of b) keep k)
        → Represents new u }
{}
