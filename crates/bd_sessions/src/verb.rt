//! The words that ask for something of a handle.

ghost use Rattle.std.specs.Prelude.{◌≡◌};
ghost use Rattle.bd_sessions.specs.Turns.{handle_verb_of};

/// What a line asks of a handle.
#[derive(Clone, Copy, Debug, PartialEq, Eq)]
pub enum HandleVerb {
    Open,
    Read,
    Write,
    Stat,
    Close,
}

impl HandleVerb {
    /// The verb that a word is.
    pub(crate) fn of(word: &[u8]) -> Option<HandleVerb>
        ensures { result ≡ handle_verb_of word.now }
    {
        Some(match word {
            b"open" => HandleVerb::Open,
            b"hread" => HandleVerb::Read,
            b"hwrite" => HandleVerb::Write,
            b"hstat" => HandleVerb::Stat,
            b"close" => HandleVerb::Close,
            _ => return None,
        })
    }
}
