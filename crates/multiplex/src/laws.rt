//! The laws of the definitions.
ghost use Rattle.multiplex.specs.Laws.{RunsEvenly, ActiveInTurns, ActiveWithin, OneGroupActive, OneGroupEstimate, EachHasGroup, GroupsAreParts};

/// Groups are consecutive parts, each as long as it can be, they take turns evenly, and one group counts all: these
/// laws hold of the definitions.
pub fn rotation_laws()
    ensures runs_evenly { RunsEvenly }
    ensures active_in_turns { ActiveInTurns }
    ensures active_within { ActiveWithin }
    ensures one_group_active { OneGroupActive }
    ensures one_group_estimate { OneGroupEstimate }
    ensures each_has_group { EachHasGroup }
    ensures groups_are_parts { GroupsAreParts }
{}
