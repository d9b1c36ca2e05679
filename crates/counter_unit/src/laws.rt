//! Laws of registers: no overflow and no wrap is lost.
ghost use Rattle.counter_unit.specs.Laws.{FollowsCount, IsExact, LosesNothing};

/// The register of a count follows it, and with what was carried away it is the whole count in 64 bits.
pub fn counting_laws()
    ensures follows { FollowsCount }
    ensures whole { LosesNothing }
    ensures exact { IsExact }
{}
