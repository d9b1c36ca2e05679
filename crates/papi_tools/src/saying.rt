//! Writing what a call says.
ghost use Rattle.papi_tools.specs.Saying.{HasSinkCause, Says};

use crate::{Said, Status};
use papi_base::{Sink, WriteFail, write_whole};
use std::alloc::Global;

/// Writes the output and then the lines, and gives the status. A failed write ends the writing.
pub fn say<K: Sink>(alloc: Global, said: &Said, out: &mut K, err: &mut K) -> Status
    ensures says { Says result said.now (K.taken out.old) (K.taken out.new) (K.taken err.old)
        (K.taken err.new) }
    ensures cause { HasSinkCause result (K.faults out.old) (K.faults out.new) (K.faults err.old)
        (K.faults err.new) }
{
    match said.out.write(alloc, out) {
        Err(WriteFail::Failed) => return Status::WriteFault,
        Err(WriteFail::Memory) => return Status::Memory,
        Ok(()) => {}
    }
    match write_whole(err, said.err.as_slice()) {
        Err(WriteFail::Failed) => return Status::WriteFault,
        Err(WriteFail::Memory) => return Status::Memory,
        Ok(()) => said.outcome.status(),
    }
}
