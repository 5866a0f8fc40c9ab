//! What commands do to a tree. Each function here carries laws of the definitions and does nothing.

ghost use Rattle.std.specs.Prelude.{◌≡◌, ◌≢◌, ◌++◌, ◌∷◌, [], List, ℕ, true, false, map};
ghost use Rattle.std.specs.List.{Contains};
ghost use Rattle.std.specs.List.Sorted.{IsStrictlySortedBy};
ghost use Rattle.std.specs.Ordering.{nat_cmp};
ghost use Rattle.std.specs.Cmp.Lexicographic.{slice_cmp};
ghost use Rattle.std.specs.FinMap.{get};
ghost use Rattle.bd_names.specs.Names.{is_under};
ghost use Rattle.bd_command.specs.Command.{IsCommand, writes};
ghost use Rattle.bd_command.specs.declared.Command.{Command};
ghost use Rattle.bd_command.specs.declared.Command.TheVariants.{Mkdir, Create, Write, Truncate, Remove, Rename, Clone, Chmod};
ghost use Rattle.bd_command.specs.declared.refusal.Refusal.{Refusal};
ghost use Rattle.bd_command.specs.declared.refusal.Refusal.TheVariants.{NotFound};
ghost use Rattle.bd_command.specs.declared.reply.Listed.{Listed};
ghost use Rattle.bd_model.specs.Tree.{Name, Path, Entry, Tree, IsTree, Directory, FileWith, is_directory, root_only};
ghost use Rattle.bd_keys.specs.Edits.{resized, overwritten};
ghost use Rattle.bd_model.specs.Step.{refusal_of, children};
ghost use Rattle.bd_model.specs.Laws.{Accepts, after, StaysAt, ChangesBytes};

/// A refused command leaves the tree as it is, and so does one that reads.
pub fn tree_stays()
    ensures refused { (t : Tree) (c : Command) (r : Refusal) → refusal_of t c ≡ Some r
        → after t c ≡ t }
    ensures reading { (t : Tree) (c : Command) → writes c ≡ false → after t c ≡ t }
{}

/// An accepted `mkdir` or `create` puts the new entry, of mode 0, at its path, and all else stays.
pub fn new_entry()
    ensures directory { (t : Tree) (p : Path) → Accepts t (Mkdir p)
        → get (after t (Mkdir p)) p ≡ Some (Directory 0) }
    ensures file { (t : Tree) (p : Path) → Accepts t (Create p)
        → get (after t (Create p)) p ≡ Some (FileWith 0 []) }
    ensures beside_directory { (t : Tree) (p q : Path) → q ≢ p → StaysAt t (Mkdir p) q }
    ensures beside_file { (t : Tree) (p q : Path) → q ≢ p → StaysAt t (Create p) q }
{}

/// An accepted `write` or `truncate` changes the bytes of the file at its path, and all else stays,
/// its mode among it.
pub fn new_bytes()
    ensures written { (t : Tree) (p : Path) (off : ℕ) (bytes : List ℕ)
        → Accepts t (Write p off bytes)
        → ChangesBytes t (Write p off bytes) p (λ old. overwritten old off bytes) }
    ensures truncated { (t : Tree) (p : Path) (len : ℕ) → Accepts t (Truncate p len)
        → ChangesBytes t (Truncate p len) p (λ old. resized old len) }
    ensures beside_written { (t : Tree) (p : Path) (off : ℕ) (bytes : List ℕ) (q : Path)
        → q ≢ p → StaysAt t (Write p off bytes) q }
    ensures beside_truncated { (t : Tree) (p : Path) (len : ℕ) (q : Path)
        → q ≢ p → StaysAt t (Truncate p len) q }
{}

/// A `chmod` sets the mode of what is at its path, whose kind and bytes stay, and all else stays. It
/// is refused where nothing is there, and only there.
pub fn new_mode()
    ensures directory { (t : Tree) (p : Path) (old new : ℕ) → get t p ≡ Some (Directory old)
        → get (after t (Chmod p new)) p ≡ Some (Directory new) }
    ensures file { (t : Tree) (p : Path) (old new : ℕ) (bytes : List ℕ)
        → get t p ≡ Some (FileWith old bytes)
        → get (after t (Chmod p new)) p ≡ Some (FileWith new bytes) }
    ensures absent { (t : Tree) (p : Path) (new : ℕ) → get t p ≡ None
        → refusal_of t (Chmod p new) ≡ Some NotFound }
    ensures beside { (t : Tree) (p : Path) (new : ℕ) (q : Path)
        → q ≢ p → StaysAt t (Chmod p new) q }
{}

/// An accepted `remove` leaves nothing at its path and below it, and all else stays.
pub fn removed()
    ensures gone { (t : Tree) (p q : Path) → Accepts t (Remove p) → is_under p q ≡ true
        → get (after t (Remove p)) q ≡ None }
    ensures beside { (t : Tree) (p q : Path) → is_under p q ≡ false → StaysAt t (Remove p) q }
{}

/// After an accepted `clone` of `a` to `b` the tree has at `b` and below what it had at `a` and
/// below, and all else stays; `a` itself isn't below `b`.
pub fn cloned()
    ensures copied { (t : Tree) (a b rest : Path) → IsTree t → Accepts t (Clone a b)
        → get (after t (Clone a b)) (b ++ rest) ≡ get t (a ++ rest) }
    ensures beside { (t : Tree) (a b q : Path) → is_under b q ≡ false → StaysAt t (Clone a b) q }
    ensures apart { (t : Tree) (a b : Path) → IsTree t → Accepts t (Clone a b)
        → is_under b a ≡ false }
{}

/// After an accepted `rename` of `a` to `b` the tree has at `b` and below what it had at `a` and
/// below, nothing at `a` and below, and all else stays. One of a file over another file is accepted.
pub fn renamed()
    ensures moved { (t : Tree) (a b rest : Path) → IsTree t → Accepts t (Rename a b)
        → get (after t (Rename a b)) (b ++ rest) ≡ get t (a ++ rest) }
    ensures gone { (t : Tree) (a b rest : Path) → IsTree t → Accepts t (Rename a b)
        → get (after t (Rename a b)) (a ++ rest) ≡ None }
    ensures beside { (t : Tree) (a b q : Path) → is_under a q ≡ false → is_under b q ≡ false
        → StaysAt t (Rename a b) q }
    ensures over { (t : Tree) (a b : Path) (m n : ℕ) (xs ys : List ℕ) → IsTree t
        → get t a ≡ Some (FileWith m xs) → get t b ≡ Some (FileWith n ys) → a ≢ b
        → Accepts t (Rename a b) }
{}

/// `/` alone is a tree, and a tree stays one, whatever command comes.
pub fn is_tree()
    ensures first { IsTree root_only }
    ensures after { (t : Tree) (c : Command) → IsTree t → IsCommand c → IsTree (after t c) }
{}

/// A listing names each entry right below its path and nothing else, and its names rise in the
/// order of their bytes.
pub fn listed()
    ensures each { (t : Tree) (p : Path) (n : Name) (e : Entry) → get t (p ++ n ∷ []) ≡ Some e
        → Contains (children p t) (record { name = n; is_dir = is_directory e }) }
    ensures only { (t : Tree) (p : Path) (l : Listed) → Contains (children p t) l
        → (e : Entry) × (get t (p ++ l.name ∷ []) ≡ Some e) × (l.is_dir ≡ is_directory e) }
    ensures rising { (t : Tree) (p : Path)
        → IsStrictlySortedBy (slice_cmp nat_cmp) (map (λ l. l.name) (children p t)) }
{}
