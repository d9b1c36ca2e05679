//! The values of sets.
ghost use Rattle.call_laws.specs.Values.{AccumShows, ReadShows, StopShows};

/// The values of a set are formulas over the counts, or if it is multiplexed over the estimates, of its native events in the
/// occurrences that were consumed while it ran, since the last call that zeroes.
pub fn value_laws()
    ensures read { ReadShows }
    ensures stop { StopShows }
{}

/// The caller's values are the wrapped sums of the values at each `accum`, since the set was made, changed its events or was emptied.
pub fn accum_law()
    ensures { AccumShows }
{}
