//! Pieces of a stream that a source gives.

ghost use Rattle.std.specs.Prelude.{◌≡◌, ◌≤◌, IfOk, OnErr};
ghost use Rattle.std.specs.Option.{option_map};
ghost use Rattle.bd_io.specs.Cause.{HasCause};
ghost use Rattle.bd_io.specs.Takes.{takes_after};
ghost use Rattle.bd_stream.specs.Streams.{stream_limit};
ghost use Rattle.bd_transfer.specs.Giving.{IsGiven, given_by};

use bd_io::{Failed, Source};
use bd_limits::MAX_PIECE;
use bd_stream::MAX_STREAM;

/// The most bytes that a stream may have.
const LIMIT: usize = MAX_STREAM as usize;

/// What a source gave.
#[derive(Clone, Copy, Debug, PartialEq, Eq)]
pub enum Given {
    /// This many bytes of the stream.
    Piece(usize),
    /// The stream is at its end.
    End,
    /// The stream goes on past the most bytes that it may have.
    Beyond,
}

/// Takes the next piece of a stream of which `taken` bytes were taken before.
pub fn next_piece<S: Source>(
    src: &mut S,
    piece: &mut [u8; MAX_PIECE],
    taken: usize,
) -> Result<Given, Failed>
    requires within { taken ≤ stream_limit }
    ensures ok { IfOk result (λ got.
        IsGiven got taken piece.new (S.left src.old) (S.left src.new)) }
    ensures err { OnErr result (S.left src.new ≡ S.left src.old) }
    ensures told { S.takes src.new
        ≡ option_map (takes_after (given_by result piece.new)) (S.takes src.old) }
    ensures cause { HasCause (S.fault_count src.old) (S.fault_count src.new) result }
{
    let room = MAX_PIECE.min(LIMIT - taken).max(1);
    let size = src.take(&mut piece[..room])?;
    Ok(if size == 0 {
        Given::End
    } else if taken == LIMIT {
        Given::Beyond
    } else {
        Given::Piece(size)
    })
}
