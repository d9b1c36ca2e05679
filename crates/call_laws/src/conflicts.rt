//! Conflicts over counters, and assignments of them.
ghost use Rattle.call_laws.specs.Conflicts.{AssignsLeast, ConflictsByCounters, ConflictsByTurns};

/// An add that nothing else refuses is a conflict exactly if no distinct allowed counters can be chosen for the set's native events
/// and the new ones, and it then names the least set of those with fewer allowed counters than members, in their shortest prefix
/// that none can be chosen for. `assign` shows the least choice. In a multiplexed set the conflict is the first new native event
/// that no counter is allowed for, and names no counter.
pub fn counter_laws()
    ensures conflict { ConflictsByCounters }
    ensures turns { ConflictsByTurns }
    ensures assign { AssignsLeast }
{}
