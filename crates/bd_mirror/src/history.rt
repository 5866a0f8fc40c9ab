//! The calls of a mirror so far, and both halves before each of them, which only proofs read. It
//! takes no memory, and its functions do nothing when they run.
ghost use Rattle.std.specs.Prelude.{◌≡◌, ℕ, List, [], ◌∷◌, Option};
ghost use Rattle.std.specs.Borrow.{ftrue};

use std::marker::{Model, PhantomData};

/// What a history notes as a call.
pub trait Noted {
    /// Of an attach its name, and how many blocks it made; nothing of another call.
    ghost noted: { Self → Option (List ℕ × Option ℕ) };
}

/// A call of a mirror.
#[derive(Clone, Copy)]
pub enum Call<'a> {
    /// A read, a write or a barrier.
    Other,
    /// An attach of this name, with so many new blocks.
    Attach(&'a str, Option<u64>),
}

impl<'a> Noted for Call<'a> {
    ghost use Rattle.bd_mirror.specs.Notes.{note_of};

    ghost noted = { note_of };
}

/// The calls of a mirror, each with both halves before it, the last one first.
#[derive(Drop)]
pub struct History<A, B> {
    of: PhantomData<(A, B)>,
    pub ghost moments: { List (Option (List ℕ × Option ℕ) × A × B) },
}

impl<A, B> Model for History<A, B> {
    ghost also_owns = { λ _. ftrue };
}

impl<A, B> History<A, B> {
    /// Before the first call.
    pub fn new() -> History<A, B>
        ensures { result.moments ≡ [] }
    {
        History { of: PhantomData }
    }

    /// With one call more, and the halves before it.
    pub fn and<C: Noted>(&self, call: &C, first: &A, second: &B) -> History<A, B>
        ensures { result.moments ≡ (C.noted call.now, first.now, second.now) ∷ self.now.moments }
    {
        History { of: PhantomData }
    }
}
