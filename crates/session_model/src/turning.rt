//! Natives that take turns.
ghost use Rattle.session_model.specs.Turning.{CountsPerTick, OneGroupCounts};

/// What is counted in turns is bounded by their ticks, and one group counts all.
#[tactic(auto, using(crate::proofs::CountsInTurns::counts_per_tick, crate::proofs::CountsInTurns::one_group_counts))]
pub fn turn_laws()
    ensures ticks { CountsPerTick }
    ensures one_group { OneGroupCounts }
{}
