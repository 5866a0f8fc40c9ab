//! What a transcript and a check come to. The functions here carry laws of the definitions, and do
//! nothing.

ghost use Rattle.std.specs.Prelude.{◌≡◌, ℕ, IfOk, List, Result, Some};
ghost use Rattle.bd_model.specs.Tree.{Tree, IsTree};
ghost use Rattle.bd_device.specs.Blocks.{Image};
ghost use Rattle.bd_image.specs.ImageTree.{ImageStandsFor};
ghost use Rattle.bd_sessions.specs.Handles.{no_handles};
ghost use Rattle.bd_shell.specs.Transcript.{State, Entry, IsTranscript, AllCanBe, AreAlone, AreCheap, FollowAlone, state_after};
ghost use Rattle.bd_shell.specs.declared.outcome.Ack.{Ack};
ghost use Rattle.bd_check.specs.Verdicts.{IsGoodAnswer, IsRightOf};
ghost use Rattle.bd_calls.specs.Check.{HasFoundTree};
ghost use Rattle.bd_calls.specs.Work.{AreInOrder};

use bd_check::Verdict;
use bd_check::laws::{trees_have_a_yes, yes_has_a_tree};
use bd_shell::Fault;

/// What an image stands for is a tree. Where a transcript begins at one, each of its states has
/// one, and each of its lines that is a command keeps the limits of commands: so what the model's
/// laws say of a step holds of each step of a run. Each accepted clone or rename takes a walk of at
/// most `5h + 2` visits where `h` nodes stood one below the other, and every other line keeps the
/// walk. The calls of what is acknowledged along it don't fall. Where its lines come from no client,
/// each reply and each state follows from the line of a script alone: no handle is opened.
pub fn law_of_transcripts()
    ensures first { (t : Tree) (n : ℕ) (image : Image) → ImageStandsFor t n image → IsTree t }
    ensures each { (s : State) (es : List Entry) → IsTree s.tree → IsTranscript s es
        → AllCanBe s es }
    ensures cost { (s : State) (es : List Entry) → IsTranscript s es → AreCheap s es }
    ensures order { (least : ℕ) (s : State) (es : List Entry) → AreInOrder least s.calls s.acks
        → IsTranscript s es
        → AreInOrder least (state_after s es).calls (state_after s es).acks }
    ensures alone { (s : State) (es : List Entry) → s.kept ≡ no_handles → AreAlone es
        → IsTranscript s es → FollowAlone s es }
{}

/// What a check answers is right of its image (`right` of how it went). So where it says that the
/// image has a tree, it stands for one, and for that count; and of an image that stands for a tree
/// it says no more than that, with its count, or that there are too many keys.
pub fn law_of_checks()
    ensures found { (image : Image) (answer : Result Verdict Fault)
        → IfOk answer (IsRightOf (Some image)) → IfOk answer (HasFoundTree image) }
    ensures good { (image : Image) (t : Tree) (n : ℕ) → ImageStandsFor t n image
        → (answer : Result Verdict Fault) → IfOk answer (IsRightOf (Some image))
        → IfOk answer (IsGoodAnswer n) }
{
    trees_have_a_yes();
    yes_has_a_tree();
}
