//! Laws of names and paths: what the words of the contracts mean, and how they go together.

ghost use Rattle.std.specs.Prelude.{◌≡◌, ◌≤◌, ◌↔◌, List, ℕ, [], ◌∷◌, ◌++◌, length, IsTrue};
ghost use Rattle.bd_limits.specs.Limits.{path_limit};
ghost use Rattle.bd_names.specs.Names.{AreNames, path_text, path_of, key_of, rest_below, is_under, parent_of};

/// A text is read as a path exactly where it is the text of its names, and then as these.
pub fn law_of_path_texts()
    ensures { (text : List ℕ) (names : List (List ℕ)) → ((path_of text ≡ Some names)
        ↔ (AreNames names × (length (path_text names) ≤ path_limit) × (path_text names ≡ text))) }
{}

/// A path is `of` or below it exactly where it begins with the names of `of`, and then the rest is
/// what follows them.
pub fn law_of_below()
    ensures rest { (of path rest : List (List ℕ)) →
        ((rest_below of path ≡ Some rest) ↔ (path ≡ of ++ rest)) }
    ensures under { (of path : List (List ℕ)) →
        (IsTrue (is_under of path) ↔ ((rest : List (List ℕ)) × (path ≡ of ++ rest))) }
{}

/// A path is `of` or below it exactly where its key begins with the key of `of`, and no two paths
/// have one key.
pub fn law_of_keys()
    ensures under { (of path : List (List ℕ)) → AreNames of → AreNames path →
        (IsTrue (is_under of path) ↔ ((rest : List ℕ) × (key_of path ≡ key_of of ++ rest))) }
    ensures one_path { (a b : List (List ℕ)) → AreNames a → AreNames b → key_of a ≡ key_of b
        → a ≡ b }
{}

/// The parent of a path is the path without its last name, and `/` alone has none.
pub fn law_of_parents()
    ensures parent { (path parent : List (List ℕ)) →
        ((parent_of path ≡ Some parent) ↔ ((name : List ℕ) × (path ≡ parent ++ name ∷ []))) }
    ensures root { (path : List (List ℕ)) → ((parent_of path ≡ None) ↔ (path ≡ [])) }
{}
