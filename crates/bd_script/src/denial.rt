//! Why what is asked beside commands is denied.

ghost use Rattle.std.specs.Prelude.{◌≡◌, ◌≤◌, length};
ghost use Rattle.bd_script.specs.Replies.{denial_text};

/// Why a call on a handle is denied, or a stream. The numbers go on from those of `Refusal`, which
/// are the tree's.
#[derive(Clone, Copy, Debug, PartialEq, Eq)]
pub enum Denial {
    /// The handle isn't open.
    NoHandle = 11,
    /// The handle's file isn't there any more.
    Gone = 12,
    /// As many handles are open as may be.
    HandlesFull = 13,
    /// The path is longer than one in a command may be.
    LongPath = 14,
    /// The bytes aren't those of a stream.
    BadStream = 15,
}

/// The number and the name of a denial.
pub fn denial_bytes(denial: Denial) -> &'static [u8]
    ensures text { result.now ≡ denial_text denial }
    ensures bound { length result.now ≤ 15 }
{
    match denial {
        Denial::NoHandle => b"11 no-handle",
        Denial::Gone => b"12 gone",
        Denial::HandlesFull => b"13 handles-full",
        Denial::LongPath => b"14 long-path",
        Denial::BadStream => b"15 bad-stream",
    }
}
