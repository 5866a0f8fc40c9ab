//! The words of a line.

ghost use Rattle.std.specs.Prelude.{◌≡◌, Err, MatchOption};
ghost use Rattle.std.specs.List.{list_any};
ghost use Rattle.bd_command.specs.declared.refusal.Refusal.TheVariants.{BadLine};
ghost use Rattle.bd_script.specs.Lines.{is_empty, words_of, line_of_parts, line_of_words};
ghost use Rattle.bd_script.specs.Reading.{texts, AreUncut, IsCutInto};

use arrayvec::ArrayVec;
use std::alloc::Global;

/// The most words of a line.
pub const MAX_WORDS: usize = 4;

/// The words of a line.
pub type Words<'a> = ArrayVec<&'a [u8], MAX_WORDS>;

/// Cuts a line into its words, which lie in the line: no memory is taken. A line with an empty
/// word, or with more than four words, has none.
pub fn cut_words(alloc: Global, line: &[u8]) -> Option<Words<'_>>
    ensures line { MatchOption result (line_of_parts (words_of line.now) ≡ Err BadLine)
        (λ words. line_of_parts (words_of line.now) ≡ line_of_words (texts words.items)) }
    ensures words { MatchOption result (AreUncut (words_of line.now))
        (λ words. IsCutInto (words_of line.now) (texts words.items)) }
{
    let Ok(words) = Words::from_iter(alloc, line.split(|byte| *byte == b' ')) else {
        return None;
    };
    if has_empty(words.as_slice()) {
        return None;
    }
    Some(words)
}

/// Whether a word is empty.
fn has_empty(words: &[&[u8]]) -> bool
    ensures { result ≡ list_any is_empty (texts words.now) }
{
    words.iter().any(|word| word.is_empty())
}
