//! Reading a source to its end, and writing bytes to their end.
ghost use Rattle.std.specs.Prelude.{◌≡◌, ◌<◌, ◌≤◌, ℕ, List, length, take, IfOk, IfSome, OnOk, OnErr, IsErrOf, IfErr};
ghost use Rattle.papi_base.specs.Outside.{CountsFaults, Rose, appended};
ghost use Rattle.papi_base.specs.Whole.{AnswersWhole};
ghost use Rattle.papi_base.specs.declared.whole.WholeFault.TheVariants.{Memory};

use crate::{Sink, Source, WriteFail};
use std::alloc::{AllocError, Global};
use thiserror::Error;

// How many bytes are asked of a source at once.
const PIECE: usize = 4096;

/// Why a source was not read whole.
#[derive(Clone, Copy, Debug, PartialEq, Eq, Error)]
pub enum WholeFault {
    /// It gives more bytes than are allowed.
    #[error("too large")]
    TooLarge,
    /// A read failed.
    #[error("the read failed")]
    Failed,
    /// Memory was refused.
    #[error("out of memory")]
    Memory,
}

impl From<AllocError> for WholeFault {
    ghost from_gives = { λ _ e. e ≡ Memory };

    fn from(_: AllocError) -> Self {
        WholeFault::Memory
    }
}

/// All the bytes that the source still gives, if these are at most `limit`. It reads no further than one piece past that.
pub fn read_whole<S: Source>(
    alloc: Global,
    source: &mut S,
    limit: usize,
) -> Result<Vec<u8>, WholeFault>
    // If the tape is told, the answer is the tape's, or memory ran out.
    ensures whole { IfSome (S.tape source.old) (λ tape. AnswersWhole result limit tape) }
    // Told or not:
    ensures small { IfOk result (λ bytes. length bytes.items ≤ limit) }
    ensures failed { IsErrOf result WholeFault.Failed
        → Rose (S.faults source.old) (S.faults source.new) }
    ensures quiet { OnOk result (S.faults source.new ≡ S.faults source.old) }
    ensures falls_never { S.faults source.old ≤ S.faults source.new }
{
    let mut bytes = Vec::new(alloc);
    let mut buf = [0u8; PIECE];
    while bytes.len() <= limit {
        match source.read(&mut buf) {
            Err(_) => return Err(WholeFault::Failed),
            Ok(0) => return Ok(bytes),
            Ok(n) => bytes.extend_from_slice(&buf[..n])?,
        }
    }
    Err(WholeFault::TooLarge)
}

/// Writes all the bytes in order. After an error a prefix of them is written, and the sink is given nothing more.
pub fn write_whole<K: Sink>(sink: &mut K, bytes: &[u8]) -> Result<(), WriteFail>
    ensures ok { OnOk result (K.taken sink.new ≡ appended (K.taken sink.old) bytes.now) }
    ensures part { OnErr result
        ((k : ℕ) × (k ≤ length bytes.now)
        × (K.taken sink.new ≡ appended (K.taken sink.old) (take k bytes.now))) }
    ensures counted { CountsFaults result (K.faults sink.old) (K.faults sink.new) }
{
    let mut done = 0;
    while done < bytes.len() {
        match sink.write(&bytes[done..]) {
            Err(fail) => return Err(fail),
            Ok(n) => done += n,
        }
    }
    Ok(())
}
