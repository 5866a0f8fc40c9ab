//! Steps of a flush: what waits in a node goes down, and the tree has what it had.
//! The layers above use the steps, and what each leaves, `IsFlushed`.
#![tactic(auto)]

mod between;
mod carving;
mod children;
mod planting;
mod pushing;
mod splitting;

pub use between::put_between;
pub use carving::carve;
pub use children::split_child;
pub use planting::push_new;
pub use pushing::push;
pub use splitting::split_root;
