//! A key and what was found at it, in one block of memory.
ghost use Rattle.std.specs.Prelude.{◌≡◌, ◌≤◌, length, IfOk, None, Some};
ghost use Rattle.std.specs.Option.{option_copied};
ghost use Rattle.bd_recall.specs.Layout.{bytes_for, head_for};
ghost use Rattle.bd_recall.specs.Sizes.{value_limit, value_size};

use crate::packed::Packed;
use std::alloc::{AllocError, Global};
use std::cmp::Ordering;
use std::marker::Model;

/// A key and what was found at it: a value of at most 64 bytes, or none. Its order is that of its
/// key, and two with one key are equal.
#[derive(Drop)]
pub struct Finding {
    block: Box<Packed>,
}

impl Model for Finding {
    ghost use Rattle.std.specs.Prelude.{List, ℕ, Option};
    ghost use Rattle.bd_recall.specs.Layout.{key_in, value_in, IsWhole};

    ghost Value = { List ℕ × Option (List ℕ) };

    ghost view = { λ f. (key_in f.block.value, value_in f.block.value) };

    ghost invariant = { λ f. IsWhole f.block.value };
}

impl Finding {
    /// A key, and what was found at it.
    pub fn new(alloc: Global, key: &[u8], value: Option<&[u8]>) -> Result<Finding, AllocError>
        requires { value_size (option_copied value) ≤ value_limit }
        ensures { IfOk result (λ finding. finding ≡ (key.now, option_copied value.entry)) }
    {
        let packed = Packed::new(alloc, head_for(value), bytes_for(value), key)?;
        let block = Box::new(alloc, packed)?;
        Ok(Finding { block })
    }

    /// The key.
    pub fn key(&self) -> &[u8]
        ensures { result.now ≡ self.now.0 }
    {
        let bytes = self.block.as_slice();
        let head = bytes[0] as usize;
        &bytes[head.max(1)..]
    }

    /// What was found.
    pub fn value(&self) -> Option<&[u8]>
        ensures { option_copied result ≡ self.now.1 }
    {
        let bytes = self.block.as_slice();
        let head = bytes[0] as usize;
        if head == 0 {
            return None;
        }
        Some(&bytes[1..head])
    }
}

// The first byte for a value.
fn head_for(value: Option<&[u8]>) -> u8
    requires { value_size (option_copied value) ≤ value_limit }
    ensures { result ≡ head_for (option_copied value.entry) }
{
    match value {
        None => 0,
        Some(value) => value.len() as u8 + 1,
    }
}

// The bytes of a value, none where there is none.
fn bytes_for(value: Option<&[u8]>) -> &[u8]
    ensures { result.now ≡ bytes_for (option_copied value.entry) }
{
    value.unwrap_or(&[])
}

impl PartialEq for Finding {
    ghost use Rattle.std.specs.Prelude.{nat_eq};
    ghost use Rattle.std.proofs.Common.{rules};
    ghost use Rattle.std.specs.Ordering.{on};
    ghost use Rattle.std.specs.Cmp.Lexicographic.{pointwise};
    ghost use Rattle.std.specs.Cmp.Rules.{comparing};

    ghost eq = { on (λ f. f.0) (pointwise nat_eq) };

    ghost laws = { Prim.search (comparing, rules) };

    fn eq(&self, other: &Finding) -> bool {
        self.key() == other.key()
    }
}

impl Eq for Finding {
    ghost use Rattle.std.proofs.Common.{rules};
    ghost use Rattle.std.specs.Cmp.Rules.{comparing};

    ghost laws = { Prim.search (comparing, rules) };
}

impl PartialOrd for Finding {
    ghost use Rattle.std.specs.Ordering.{as_partial_cmp, nat_cmp, on};
    ghost use Rattle.std.proofs.Common.{rules};
    ghost use Rattle.std.specs.Cmp.{partial_order_from_own_ties};
    ghost use Rattle.std.specs.Cmp.Lexicographic.{slice_cmp};
    ghost use Rattle.std.specs.Cmp.Rules.{comparing};

    ghost partial_cmp = { as_partial_cmp (on (λ f. f.0) (slice_cmp nat_cmp)) };

    ghost laws = { partial_order_from_own_ties (Prim.search (comparing, rules))
        (Prim.search (comparing, rules)) };

    fn partial_cmp(&self, other: &Finding) -> Option<Ordering> {
        Some(self.cmp(other))
    }
}

impl Ord for Finding {
    ghost use Rattle.std.specs.Ordering.{nat_cmp, on};
    ghost use Rattle.std.proofs.Common.{rules};
    ghost use Rattle.std.specs.Cmp.Lexicographic.{slice_cmp};
    ghost use Rattle.std.specs.Cmp.Rules.{comparing};

    ghost cmp = { on (λ f. f.0) (slice_cmp nat_cmp) };

    ghost total = { Prim.search (comparing, rules) };

    ghost matches_partial_cmp = { Prim.search (comparing, rules) };

    ghost matches_eq = { Prim.search (comparing, rules) };

    fn cmp(&self, other: &Finding) -> Ordering {
        self.key().cmp(&other.key())
    }
}
