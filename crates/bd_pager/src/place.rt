//! Where kept nodes are.

ghost use Rattle.std.specs.Prelude.{◌≡◌};
ghost use Rattle.std.specs.Option.{option_copied};
ghost use Rattle.bd_pager.specs.Places.{refs_in, level_in};

use bd_node::Node;
use std::rc::Rc;

/// Where a node is.
#[derive(Drop)]
pub enum Place {
    /// In memory, since it was changed or made and not written after that. It may have a slot of
    /// its own.
    Memory { node: Rc<Node>, slot: Option<u32> },
    /// In a slot, as it is. The root's node is in memory too.
    Slot { slot: u32, node: Option<Rc<Node>> },
}

/// What is known of a kept node.
#[derive(Drop)]
pub struct Spot {
    /// How often it is named.
    pub refs: u64,
    /// How far it stands above the leaves.
    pub level: u32,
    pub place: Place,
}

/// How often the node of a spot is named: 0 where there is none.
pub fn refs_of(spot: Option<&Spot>) -> u64
    ensures { result ≡ refs_in (option_copied spot.entry) }
{
    match spot {
        Some(spot) => spot.refs,
        None => 0,
    }
}

/// The level of the node of a spot: 0 where there is none.
pub fn level_of(spot: Option<&Spot>) -> u32
    ensures { result ≡ level_in (option_copied spot.entry) }
{
    match spot {
        Some(spot) => spot.level,
        None => 0,
    }
}
