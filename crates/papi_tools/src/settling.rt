//! What a call says at the end of its steps.
ghost use Rattle.std.specs.Prelude.{◌≡◌, IfOk};
ghost use Rattle.papi_tools.specs.Verdict.{IsSettled, refused_said};

use crate::{Output, Refusal, Said, Stop, ToolResult};
use papi_base::Bytes;
use std::alloc::{AllocError, Global};

/// What a refusal says.
pub fn refused(alloc: Global, refusal: &Refusal) -> Result<Said, AllocError>
    ensures { IfOk result (λ said. said ≡ refused_said refusal.now) }
{
    let line = refusal.line(alloc)?;
    Ok(Said {
        outcome: refusal.outcome(),
        out: Output::text(Bytes::new(Vec::new(alloc))),
        err: Bytes::new(line.into_bytes()),
    })
}

/// What is said by steps that gave this answer.
pub fn settled(alloc: Global, answer: ToolResult) -> Result<Said, AllocError>
    ensures { IfOk result (IsSettled answer) }
{
    match answer {
        Ok(said) => Ok(said),
        Err(Stop::Refused(refusal)) => refused(alloc, &refusal),
        Err(Stop::Memory) => Err(AllocError),
    }
}
