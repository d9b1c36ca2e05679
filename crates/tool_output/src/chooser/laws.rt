//! Laws of the definitions, each the contract of a function that does nothing.
ghost use Rattle.tool_output.specs.ChooserLaws.{RefusesAsAdd};

/// The refusals by which candidates are judged are those of a thread's call of `add`.
pub fn refusal_law()
    ensures { RefusesAsAdd }
{}
