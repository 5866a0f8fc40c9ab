//! The bytes that were written to a sink, which only proofs read. It takes no memory, and its
//! functions do nothing when they run.
ghost use Rattle.std.specs.Prelude.{◌≡◌, ◌++◌, ℕ, List, [], ◌∷◌};
ghost use Rattle.std.specs.Borrow.{ftrue};

use std::marker::Model;

/// The bytes that were written, those before the last one first.
#[derive(Drop)]
pub struct History {
    pub ghost bytes: { List ℕ },
}

impl Model for History {
    ghost also_owns = { λ _. ftrue };
}

impl History {
    /// Before the first byte.
    pub fn new() -> History
        ensures { result.bytes ≡ [] }
    {
        History {}
    }

    /// With one byte more.
    pub fn and(&self, byte: &u8) -> History
        ensures { result.bytes ≡ self.now.bytes ++ byte.now ∷ [] }
    {
        History {}
    }
}
