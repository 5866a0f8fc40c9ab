//! The nodes that represent a key map, what a node has at a key, sound nodes and the store of
//! nodes; the edge of a key, and which messages are pending for an edge.
//! The layers above use the contract of `NodeStore`, what a node has at a key, `edge_of`, which is the
//! edge that the definition finds first to last, `can_touch`, `is_pending`, and the laws.
#![tactic(auto)]

mod edge;
mod index;
pub mod laws;
mod messages;
mod node;
mod owners;
mod pending;
mod push;
mod relief;
mod scans;
mod spans;
mod staying;
mod stems;
mod steps;
mod store;
mod touching;

pub use bd_keys::Items;
pub use edge::{edge_of, end_before, end_of, place};
pub use index::{is_point, own_key};
pub use messages::Messages;
pub use node::{Change, Changes, Edge, Edges, Entries, Entry, Node, Nodes, Step};
pub use pending::{is_owned_pending, is_pending};
pub use push::{Gain, Push};
pub use relief::Relief;
pub use steps::Steps;
pub use store::NodeStore;
pub use touching::{can_touch, is_in_range, touches};
