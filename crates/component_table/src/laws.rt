//! Laws of the definitions, each the contract of a function that does nothing.
ghost use Rattle.component_table.specs.Laws.{ExactlyAvailable, KeepsKind};

/// Exactly those presets are available that are computed, whose texts all name native events, of one component.
pub fn availability_law()
    ensures { ExactlyAvailable }
{}

/// The kind of what an available preset derives is the one that its file states.
pub fn kind_law()
    ensures { KeepsKind }
{}
