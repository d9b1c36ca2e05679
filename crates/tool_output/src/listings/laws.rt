//! Laws of the definitions, each the contract of a function that does nothing.
ghost use Rattle.tool_output.specs.ListingLaws.{StandsIn};

/// A name contains a text exactly if it is something, the text, and something.
pub fn containment_law()
    ensures { StandsIn }
{}
