//! The order of the keys of directories. Each function here carries a law of the definitions, and
//! does nothing.

ghost use Rattle.std.specs.Prelude.{◌≡◌, ℕ, List, [], ◌∷◌, ◌++◌};
ghost use Rattle.bd_keys.specs.Keys.{IsBelow, IsAtLeast};
ghost use Rattle.bd_names.specs.Names.{AreNames, key_of, is_under};
ghost use Rattle.bd_message.specs.Effect.{begins};
ghost use Rattle.bd_represent.specs.EntryKeys.{record_key, IsEntryKey};

/// A subtree is one prefix: the keys of a path begin with the key of another exactly where it is
/// that one or below it.
pub fn subtree_prefix()
    ensures { (p q : List (List ℕ)) (x : List ℕ) → AreNames p → AreNames q
        → begins (key_of q ++ 0 ∷ x) (key_of p) ≡ is_under p q }
{}

/// The record of a path is the least key of its subtree.
pub fn record_first()
    ensures { (p q : List (List ℕ)) (x : List ℕ) → AreNames p → AreNames q
        → IsEntryKey (key_of (p ++ q) ++ 0 ∷ x)
        → IsAtLeast (key_of (p ++ q) ++ 0 ∷ x) (record_key p) }
{}

/// The keys of the children of a directory, and of all below each, come in the order of the names.
pub fn children_rise()
    ensures { (p : List (List ℕ)) (m n : List ℕ) (x y : List ℕ) → AreNames (m ∷ n ∷ [])
        → IsBelow m n
        → IsBelow (key_of (p ++ m ∷ []) ++ x) (key_of (p ++ n ∷ []) ++ y) }
{}
