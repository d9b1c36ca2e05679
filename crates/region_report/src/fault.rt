//! Why a region script is refused.

ghost use Rattle.std.specs.Prelude.{◌≡◌};
ghost use Rattle.table_rows.specs.declared.fault.RowRefusal.TheVariants as refusal;
ghost use Rattle.region_report.specs.Causes.{cause_of, text_of};

use script_lines::{LineFault, ScriptCause};
use table_rows::RowRefusal;
use thiserror::Error;

/// What is wrong with a line of a region script; of several causes the first in this order counts.
#[derive(Clone, Copy, Debug, PartialEq, Eq, Error)]
#[error("{}", cause_text(*self))]
pub enum RegionCause {
    /// It is one line more than a region script may have, or begins a region inside as many as may be open.
    OverLimit,
    /// Its first word is not a thread.
    BadThread,
    /// Its second word is missing, or no call.
    UnknownCall,
    /// It has another number of arguments than the call, or a name out of its form.
    BadArguments,
    /// A number is out of its form or range.
    BadNumber,
    /// It reads or ends a region that is not the innermost open one of its thread.
    WrongRegion,
    /// A region is open at the end of the file.
    NotEnded,
}

/// Why a region script is refused: its first faulty line, numbered from 1, with its first cause, or memory ran out.
pub type RegionFault = LineFault<RegionCause>;

/// A cause in words, as a message names it.
pub fn cause_text(cause: RegionCause) -> &'static str
    ensures text { result.now ≡ text_of cause }
{
    match cause {
        RegionCause::OverLimit => "over a limit",
        RegionCause::BadThread => "bad thread",
        RegionCause::UnknownCall => "unknown call",
        RegionCause::BadArguments => "wrong arguments",
        RegionCause::BadNumber => "bad number",
        RegionCause::WrongRegion => "wrong region",
        RegionCause::NotEnded => "region not ended",
    }
}

// The refusal of a line for the cause that a line of a script of calls would have.
pub(crate) fn refusal_of(cause: ScriptCause) -> RowRefusal<RegionCause>
    ensures { result ≡ refusal.Cause (cause_of cause) }
{
    RowRefusal::Cause(match cause {
        ScriptCause::OverLimit => RegionCause::OverLimit,
        ScriptCause::BadThread => RegionCause::BadThread,
        ScriptCause::UnknownCall => RegionCause::UnknownCall,
        ScriptCause::BadArguments => RegionCause::BadArguments,
        ScriptCause::BadNumber => RegionCause::BadNumber,
    })
}
