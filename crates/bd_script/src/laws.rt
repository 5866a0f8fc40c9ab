//! Laws of lines, whatever their bytes. Each function here carries one and does nothing.

ghost use Rattle.std.specs.Prelude.{◌≡◌, ◌⊎◌, ℕ, List, Ok, Err};
ghost use Rattle.bd_command.specs.Command.{IsCommand};
ghost use Rattle.bd_command.specs.declared.Command.{Command};
ghost use Rattle.bd_command.specs.declared.refusal.Refusal.{Refusal};
ghost use Rattle.bd_command.specs.declared.refusal.Refusal.TheVariants.{BadPath, BadLine};
ghost use Rattle.bd_script.specs.Lines.{line_of};
ghost use Rattle.bd_script.specs.declared.line.Line.TheVariants.{Run};

/// The command of a line keeps the limits of commands.
pub fn lines_are_commands()
    ensures { (line : List ℕ) (c : Command) → line_of line ≡ Ok (Run c) → IsCommand c }
{}

/// A line that isn't read is a bad one, or one with a bad path.
pub fn refused_lines()
    ensures { (line : List ℕ) (r : Refusal) → line_of line ≡ Err r → (r ≡ BadPath) ⊎ (r ≡ BadLine) }
{}
