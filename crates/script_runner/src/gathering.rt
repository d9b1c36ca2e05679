//! Text that is gathered to pieces before it is written, so that few writes carry many lines.

ghost use Rattle.std.specs.Prelude.{◌≡◌, ◌<◌, ◌≤◌, OnOk, OnErr, string_bytes, string_len};
ghost use Rattle.papi_base.specs.Outside.{CountsFaults};
ghost use Rattle.script_runner.specs.Pieces.{IsPartWritten, IsWrittenSoFar};

use papi_base::{Sink, WriteFail, write_whole};

// So many bytes or more are written at once.
const PIECE: usize = 65_536;

/// Writes what is gathered if it is a piece or more, and else waits for more text. After an error a prefix of it is written.
pub(crate) fn write_piece<K: Sink>(gathered: &mut String, out: &mut K) -> Result<(), WriteFail>
    ensures ok { OnOk result
        (IsWrittenSoFar (K.taken out.old) (K.taken out.new) (string_bytes gathered.old)
        (string_bytes gathered.new)) }
    ensures part { OnErr result
        (IsPartWritten (K.taken out.old) (K.taken out.new) (string_bytes gathered.old)) }
    ensures waits { string_len gathered.old < PIECE → out.new ≡ out.old }
    ensures small { OnOk result (string_len gathered.new < PIECE) }
    ensures counted { CountsFaults result (K.faults out.old) (K.faults out.new) }
{
    if gathered.len() < PIECE {
        return Ok(());
    }
    write_whole(out, gathered.as_bytes())?;
    gathered.clear();
    Ok(())
}
