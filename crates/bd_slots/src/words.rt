// Bits in words, the lowest bit of the first word first.
ghost use Rattle.std.specs.Prelude.{◌≡◌, ◌≢◌, ◌+◌, ◌<◌, ◌*◌, ◌/◌, ◌^◌, nat_lt, IfOk, ℕ, true, false, length, MatchOption};
ghost use Rattle.bd_slots.specs.Words.{has_bit, word_bits, IsNoneBelow, IsFirstSet};

use std::alloc::{AllocError, Global};

/// How many bits a word has.
pub const BITS: usize = 64;

// Words whose bits are set below a count, and not from there on.
pub fn ones(alloc: Global, count: u32) -> Result<Vec<u64>, AllocError>
    ensures length { IfOk result (λ words. length words.items ≡ count / word_bits + 1) }
    ensures bits { IfOk result (λ words. (bit : ℕ) → has_bit words.items bit ≡ nat_lt bit count) }
{
    let mut words = vec![in alloc; u64::MAX; count as usize / BITS]?;
    words.push((1 << (count as usize % BITS)) - 1)?;
    Ok(words)
}

// Whether a bit is set.
pub fn is_set(words: &[u64], bit: usize) -> bool
    requires { bit < word_bits * length words.now }
    ensures { result ≡ has_bit words.now bit }
{
    (words[bit / BITS] >> (bit % BITS)) & 1 == 1
}

// Sets a bit.
pub fn set(words: &mut [u64], bit: usize)
    requires { bit < word_bits * length words.old }
    ensures set { has_bit words.new bit ≡ true }
    ensures others { (other : ℕ) → other ≢ bit → has_bit words.new other ≡ has_bit words.old other }
{
    words[bit / BITS] |= 1 << (bit % BITS);
}

// Clears a bit.
pub fn clear(words: &mut [u64], bit: usize)
    requires { bit < word_bits * length words.old }
    ensures cleared { has_bit words.new bit ≡ false }
    ensures others { (other : ℕ) → other ≢ bit → has_bit words.new other ≡ has_bit words.old other }
{
    words[bit / BITS] &= !(1 << (bit % BITS));
}

// The first bit that is set, where none is in the words before `first`.
pub fn first_set(words: &[u64], first: usize) -> Option<usize>
    requires few { length words.now < 2 ^ 32 }
    requires before { IsNoneBelow words.now (word_bits * first) }
    ensures found { MatchOption result
        ((bit : ℕ) → has_bit words.now bit ≡ false) (IsFirstSet words.now) }
{
    for at in first..words.len() {
        let word = words[at];
        if word != 0 {
            return Some(BITS * at + word.trailing_zeros() as usize);
        }
    }
    None
}
