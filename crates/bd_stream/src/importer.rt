//! What an importer is.

ghost use Rattle.bd_stream.specs.Importing.{IsSound, state_of};

use crate::machine::Machine;

/// The limit of a stream's bytes, for who takes one from outside. An importer takes any number.
pub const MAX_STREAM: u64 = 4_294_967_296;

/// Takes a stream in pieces, however it is cut, and gives the commands that make its subtree at a
/// path. It keeps at most 2,048 bytes of the stream.
#[derive(Drop)]
pub struct Importer {
    pub(crate) machine: Machine,
    ghost sound: { IsSound (state_of machine) },
}
