//! The first word of a line.

ghost use Rattle.std.specs.Prelude.{◌≡◌};
ghost use Rattle.bd_script.specs.Lines.{verb_of};

/// What a line asks for.
#[derive(Clone, Copy, Debug, PartialEq, Eq)]
pub enum Verb {
    Mkdir,
    Create,
    Write,
    Truncate,
    Remove,
    Rename,
    Clone,
    Chmod,
    Read,
    Stat,
    List,
    Walk,
    Df,
    Sync,
    Checkpoint,
    Reclaim,
    Stop,
}

impl Verb {
    /// The verb that a word is.
    pub(crate) fn of(word: &[u8]) -> Option<Verb>
        ensures { result ≡ verb_of word.now }
    {
        Some(match word {
            b"mkdir" => Verb::Mkdir,
            b"create" => Verb::Create,
            b"write" => Verb::Write,
            b"truncate" => Verb::Truncate,
            b"remove" => Verb::Remove,
            b"rename" => Verb::Rename,
            b"clone" => Verb::Clone,
            b"chmod" => Verb::Chmod,
            b"read" => Verb::Read,
            b"stat" => Verb::Stat,
            b"list" => Verb::List,
            b"walk" => Verb::Walk,
            b"df" => Verb::Df,
            b"sync" => Verb::Sync,
            b"checkpoint" => Verb::Checkpoint,
            b"reclaim" => Verb::Reclaim,
            b"stop" => Verb::Stop,
            _ => return None,
        })
    }
}
