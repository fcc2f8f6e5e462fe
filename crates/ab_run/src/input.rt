//! Reading the input in pieces.
ghost use Rattle.std.specs.Prelude.{◌≡◌, ◌<◌, ◌≤◌, length, IfOk, IfErr};
ghost use Rattle.ab_run.specs.Progress.{FedPiece, ReadStopped};

use ab_io::{Failed, Source};
use ab_lex::Splitter;

/// Why no piece was read.
#[derive(Clone, Copy)]
pub enum ReadStop {
    Failed,
    Memory,
}

/// Reads a piece and feeds it, and says how many bytes it has: none at the end of the input.
pub fn read_piece<S: Source>(
    input: &mut S,
    splitter: &mut Splitter,
    piece: &mut [u8],
) -> Result<usize, ReadStop>
    requires some { 0 < length piece.old }
    ensures fits { IfOk result (λ n. n ≤ length piece.old) }
    ensures fed { IfOk result (λ n. FedPiece n (S.left input.old) (S.left input.new) splitter.old splitter.new) }
    ensures stopped { IfErr result (λ stop. ReadStopped stop (length piece.old)
        (S.left input.old) (S.left input.new) (S.faults input.old) (S.faults input.new)) }
    ensures faults_never_fall { S.faults input.old ≤ S.faults input.new }
{
    match input.read(piece) {
        Err(Failed) => Err(ReadStop::Failed),
        Ok(count) => match splitter.feed(&piece[..count]) {
            Ok(()) => Ok(count),
            Err(_) => Err(ReadStop::Memory),
        },
    }
}
