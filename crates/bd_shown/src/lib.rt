//! The view of a volume whose nodes a pager has: definitions, and laws about them.
//! The layers above may use that a pager's numbers are those of the view, and what its calls do to
//! the view.
#![tactic(auto)]

pub mod laws;
