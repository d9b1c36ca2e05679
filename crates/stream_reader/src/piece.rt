//! Pieces of a source, and the place of a line before them.
ghost use Rattle.std.specs.Prelude.{◌≡◌, ◌≤◌, ◌-◌, ◌++◌, take, drop, length, is_some, IfSome, IfOk, OnErr};
ghost use Rattle.std.specs.Option.{option_map_or, option_and_then};
ghost use Rattle.papi_base.specs.Outside.{Gives, Rose, tape_after};

use crate::limits::{LONGEST_LINE, PIECE, READER_BYTES};
use papi_base::{Failed, Source};

// Asks the source for a piece. A reader with no source is at the end of it.
fn read_piece<S: Source>(source: &mut Option<S>, piece: &mut [u8]) -> Result<usize, Failed>
    ensures bound { IfOk result (λ n. n ≤ length piece.new) }
    ensures tape { option_and_then S.tape source.new
        ≡ tape_after result (option_and_then S.tape source.old) }
    ensures gives { IfSome (option_and_then S.tape source.old)
        (λ tape. Gives tape result piece.new) }
    ensures kept { is_some source.new ≡ is_some source.old }
    ensures falls_never { option_map_or S.faults source.old 0
        ≤ option_map_or S.faults source.new 0 }
    ensures failed { OnErr result
        (Rose (option_map_or S.faults source.old 0) (option_map_or S.faults source.new 0)) }
{
    match source {
        Some(source) => source.read(piece),
        None => Ok(0),
    }
}

/// Moves these bytes before the place of a piece.
pub(crate) fn move_rest(bytes: &mut [u8; READER_BYTES], from: usize, to: usize)
    requires in_order { from ≤ to }
    requires within { to ≤ READER_BYTES }
    requires short { to - from ≤ LONGEST_LINE }
    ensures { take LONGEST_LINE bytes.new ≡ take (LONGEST_LINE - (to - from)) bytes.old
        ++ take (to - from) (drop from bytes.old) }
{
    bytes.copy_within(from..to, LONGEST_LINE - (to - from));
}

/// Puts a piece after the place of a line.
pub(crate) fn fill<S: Source>(
    source: &mut Option<S>,
    bytes: &mut [u8; READER_BYTES],
) -> Result<usize, Failed>
    ensures room { length bytes.new ≡ READER_BYTES }
    ensures front { take LONGEST_LINE bytes.new ≡ take LONGEST_LINE bytes.old }
    ensures bound { IfOk result (λ n. n ≤ PIECE) }
    ensures tape { option_and_then S.tape source.new
        ≡ tape_after result (option_and_then S.tape source.old) }
    ensures gives { IfSome (option_and_then S.tape source.old)
        (λ tape. Gives tape result (drop LONGEST_LINE bytes.new)) }
    ensures kept { is_some source.new ≡ is_some source.old }
    ensures falls_never { option_map_or S.faults source.old 0
        ≤ option_map_or S.faults source.new 0 }
    ensures failed { OnErr result
        (Rose (option_map_or S.faults source.old 0) (option_map_or S.faults source.new 0)) }
{
    read_piece(source, &mut bytes[LONGEST_LINE..])
}
