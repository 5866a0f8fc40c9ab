//! Leaves: where a key stands in one, what it has there, what messages make of it, and its parts.
//! The layers above use `value_at`, and what `receive`, `split` and `clip` leave at each key.
#![tactic(auto)]

mod halves;
mod merging;
mod points;
mod receiving;

ghost use Rattle.std.specs.Prelude.{◌≡◌, ◌+◌, ◌-◌, ◌*◌, ◌^◌, ◌<◌, ◌≤◌, length};
ghost use Rattle.std.specs.Option.{option_copied};
ghost use Rattle.bd_node.specs.Nodes.{entry_at};
ghost use Rattle.bd_node.specs.Shape.{IsRising};
ghost use Rattle.bd_leaf.specs.Places.{IsPlace};

use bd_node::{Entry, Steps};
pub use halves::{fits, split};
pub use receiving::{clip, receive};
use std::cmp::Ordering;
use std::marker::Brand;
use std::sync::ledger::{Blank, Ledger};

/// The place of a key among entries in rising order, or else the place where it would stand.
pub fn place<L: Ledger>(entries: &[Entry], key: &[u8], steps: &mut Steps<L>) -> Result<usize, usize>
    requires { IsRising entries.now }
    ensures place { IsPlace entries.now key.now result }
    ensures cost { 2 ^ (steps.new - steps.old) ≤ 2 * length entries.now + 1 }
    ensures later { steps.old ≤ steps.new }
{
    let mut low = 0;
    let mut high = entries.len();
    while low < high {
        let middle = low + (high - low) / 2;
        match steps.compare(entries[middle].key.as_slice(), key) {
            Ordering::Less => low = middle + 1,
            Ordering::Equal => return Ok(middle),
            Ordering::Greater => high = middle,
        }
    }
    Err(low)
}

/// What entries in rising order have at a key.
pub fn value_at<'a>(entries: &'a [Entry], key: &[u8]) -> Option<&'a [u8]>
    requires { IsRising entries.now }
    ensures { option_copied result ≡ entry_at entries.now key.now }
{
    match search(entries, key) {
        Ok(place) => Some(entries[place].value.as_slice()),
        Err(_place) => None,
    }
}

// The place of a key, where nobody asks for the number of comparisons.
fn search(entries: &[Entry], key: &[u8]) -> Result<usize, usize>
    requires { IsRising entries.now }
    ensures { IsPlace entries.now key.now result }
{
    search_with::<Brand>(entries, key, Blank::new(1))
}

// The same, counted in a ledger.
fn search_with<L: Ledger>(entries: &[Entry], key: &[u8], blank: Blank) -> Result<usize, usize>
    requires rising { IsRising entries.now }
    requires name { blank.name ≡ L.name }
    requires parts { blank.parts ≡ L.parts }
    requires some { 0 < L.parts }
    ensures { IsPlace entries.now key.now result }
{
    let mut steps = Steps::<L>::new(blank);
    place(entries, key, &mut steps)
}
