//! Laws of the definitions of cores, each the contract of a function that does nothing.
ghost use Rattle.thread_core.specs.Registers.{EachIsCounted, NoOtherIsProgrammed, NothingIsProgrammed};

/// Exactly the native events of the running set of a component are programmed on its unit, unless they take turns: each on
/// its counter of the least assignment, with the register that its count gives, and nothing of the count is lost.
pub fn register_laws()
    ensures each { EachIsCounted }
    ensures no_other { NoOtherIsProgrammed }
    ensures nothing { NothingIsProgrammed }
{}
