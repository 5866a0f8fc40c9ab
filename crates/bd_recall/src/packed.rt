//! A byte string that lies in place where it is short.
ghost use Rattle.std.specs.Prelude.{◌≡◌, ◌<◌, ◌+◌, ◌∷◌, ◌++◌, length, IfOk};

use std::alloc::{AllocError, Global};
use std::marker::Model;
use std::mem::size_of;

// How many bytes lie in place at most.
const NEAR: usize = 31;

// Where the bytes lie.
#[derive(Drop)]
enum Store {
    Near { len: u8, bytes: [u8; NEAR] },
    Far(Vec<u8>),
}

/// A byte string, of which up to 31 bytes lie in place and more in a block of their own.
#[derive(Drop)]
pub struct Packed {
    store: Store,
}

impl Model for Packed {
    ghost use Rattle.std.specs.Prelude.{List, ℕ};
    ghost use Rattle.bd_recall.specs.Stores.{stored_bytes, IsStored};

    ghost Value = { List ℕ };

    ghost view = { λ p. stored_bytes p.store };

    ghost invariant = { λ p. IsStored p.store };
}

impl Packed {
    /// A first byte, and then those of two parts. It takes memory where they are more than 31.
    pub fn new(alloc: Global, first: u8, front: &[u8], back: &[u8]) -> Result<Packed, AllocError>
        ensures { IfOk result (λ packed. packed ≡ first ∷ front.now ++ back.now) }
    {
        if front.len() < NEAR && back.len() < NEAR - front.len() {
            return Ok(Packed {
                store: Store::near(first, front, back),
            });
        }
        let bytes = joined(alloc, first, front, back)?;
        Ok(Packed {
            store: Store::Far(bytes),
        })
    }

    /// The bytes.
    pub fn as_slice(&self) -> &[u8]
        ensures { result.now ≡ self.now }
    {
        match &self.store {
            Store::Near { len, bytes } => &bytes[..*len as usize],
            Store::Far(bytes) => bytes.as_slice(),
        }
    }
}

impl Store {
    ghost use Rattle.bd_recall.specs.Stores.{stored_bytes, IsStored};

    // A few bytes in place.
    fn near(first: u8, front: &[u8], back: &[u8]) -> Store
        requires { length front.now + length back.now < 31 }
        ensures bytes { stored_bytes result ≡ first ∷ front.now ++ back.now }
        ensures stored { IsStored result }
    {
        let middle = 1 + front.len();
        let end = middle + back.len();
        let mut place = [0; NEAR];
        place[0] = first;
        place[1..middle].copy_from_slice(front);
        place[middle..end].copy_from_slice(back);
        Store::Near {
            len: end as u8,
            bytes: place,
        }
    }
}

// The bytes in a block of their own.
fn joined(alloc: Global, first: u8, front: &[u8], back: &[u8]) -> Result<Vec<u8>, AllocError>
    ensures { IfOk result (λ bytes. bytes.items ≡ first ∷ front.now ++ back.now) }
{
    let mut bytes = Vec::with_capacity(alloc, 1 + front.len() + back.len())?;
    bytes.push(first)?;
    bytes.extend_from_slice(front)?;
    bytes.extend_from_slice(back)?;
    Ok(bytes)
}

// What an entry has for its key and value.
const _: () = prove!(size_of::<Packed>() == 40);
