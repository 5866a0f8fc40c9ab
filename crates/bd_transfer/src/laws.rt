//! What follows from the definitions of exports. The functions here carry laws of the definitions,
//! and do nothing.

ghost use Rattle.std.specs.Prelude.{◌≡◌, ◌++◌, ◌∷◌, [], ℕ, List, Some, length};
ghost use Rattle.bd_command.specs.Command.{IsShortPath};
ghost use Rattle.bd_command.specs.declared.Command.{Command};
ghost use Rattle.bd_model.specs.Tree.{IsTree};
ghost use Rattle.bd_sessions.specs.Handles.{no_handles};
ghost use Rattle.bd_stream.specs.Importing.{Path};
ghost use Rattle.bd_stream.specs.Exporting.{Export, asked, begin};
ghost use Rattle.bd_stream.specs.Exports.{IsOnWay, exported};
ghost use Rattle.bd_shell.specs.Transcript.{Entry, Exchange, IsTranscript, State, exchanges_of};
ghost use Rattle.bd_transfer.specs.Asking.{Interviews, short};

/// What is asked of a volume that stands for a tree is replied to by that tree, so at any moment an
/// export is one of the tree, and what it has to write a front of the tree's stream at the exported
/// path. None of its questions is answered that slots are short.
pub fn exports_are_of_trees()
    ensures answers { (s : State) (top : Path) (es : List Entry) (last : Export) (out : List ℕ)
        → s.kept ≡ no_handles → IsTranscript s es
        → Interviews (begin top) (exchanges_of es) last out
        → (last, out) ≡ exported (length (exchanges_of es)) s.tree top }
    ensures way { (s : State) (top : Path) (es : List Entry) (last : Export) (out : List ℕ)
        → s.kept ≡ no_handles → IsTree s.tree → IsShortPath top → IsTranscript s es
        → Interviews (begin top) (exchanges_of es) last out → IsOnWay s.tree top (last, out) }
    ensures never_short { (s : State) (top : Path) (es : List Entry) (last : Export)
        (out : List ℕ) (front : List Exchange) (c : Command) (free need : ℕ)
        → s.kept ≡ no_handles → IsTranscript s es
        → exchanges_of es ≡ front ++ short c free need ∷ []
        → Interviews (begin top) front last out → asked last ≡ Some c → ⊥ }
{}
