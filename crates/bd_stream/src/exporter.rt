//! What an exporter is.

ghost use Rattle.std.specs.Prelude.{◌≡◌, ◌++◌, ◌≤◌};
ghost use Rattle.bd_limits.specs.Limits.{file_limit};
ghost use Rattle.bd_stream.specs.Places.{end_of};

use crate::stage::{Place, Stage};
use bd_names::{Name, Path};
use std::collections::VecDeque;

/// Asks what stands at a path and below it by `stat`, `list` and `read`, and makes the stream of it
/// of the replies. It keeps at most one listing, and no bytes of files.
#[derive(Drop)]
pub struct Exporter {
    /// The exported path.
    pub(crate) top: Path,
    /// What is asked about.
    pub(crate) place: Place,
    /// What is asked.
    pub(crate) stage: Stage,
    /// The names that are known to follow, at most 100.
    pub(crate) names: VecDeque<Name>,
    ghost placed: { place.path ≡ top ++ place.below },
    ghost fits: { end_of stage ≤ file_limit },
}
