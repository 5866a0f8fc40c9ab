//! What words come to, as laws.
ghost use Rattle.std.specs.Prelude.{◌≡◌, ◌↔◌, ℕ, List, Some, true};
ghost use Rattle.std.specs.Prelude.{is_some};
ghost use Rattle.std.specs.List.{AllByRecursion};
ghost use Rattle.std.specs.Str.{IsUtf8};
ghost use Rattle.bd_words.specs.Line.{AreTaken};
ghost use Rattle.bd_words.specs.Words.{Call, HasForm, call_of};

/// The forms are calls where IMAGE isn't empty and doesn't begin with `-`, PATH doesn't begin with
/// `-` and may be empty, and each number is within its limits and written in decimal digits.
pub fn forms_are_calls()
    ensures { (call : Call) (words : List (List ℕ)) → HasForm call words
        → call_of words ≡ Some call }
{}

/// `clap` takes just the words that are a call.
pub fn just_calls_pass_clap()
    ensures { (words : List (List ℕ)) → AllByRecursion IsUtf8 words
        → AreTaken words ↔ (is_some (call_of words) ≡ true) }
{}
