//! What every codec on top of these encodings needs.

ghost use Rattle.std.specs.Prelude.{◌≡◌, ℕ, List, ◌++◌, length};
ghost use Rattle.std.specs.Int.{Width, byte_len};
ghost use Rattle.bd_wire.specs.Numbers.{be, FitsWidth, IsBytes, number_at};
ghost use Rattle.bd_wire.specs.Encoding.{IsPrefixFree};
ghost use Rattle.bd_wire.specs.Text.{text16, FitsText16};

/// A number that was written is read again, whatever follows it.
pub fn numbers_are_read_again()
    ensures { (w : Width) (n : ℕ) (rest : List ℕ) → FitsWidth w n
        → number_at w (be w n ++ rest) ≡ n }
{}

/// The bytes from which a number was read are those that it is written as.
pub fn numbers_were_written_so()
    ensures { (w : Width) (bytes : List ℕ) → IsBytes bytes → length bytes ≡ byte_len w
        → be w (number_at w bytes) ≡ bytes }
{}

/// The encodings of numbers of one size are prefix-free.
pub fn numbers_are_prefix_free()
    ensures { (w : Width) → IsPrefixFree (FitsWidth w) (be w) }
{}

/// The text16s are prefix-free.
pub fn texts_are_prefix_free()
    ensures { IsPrefixFree FitsText16 text16 }
{}
