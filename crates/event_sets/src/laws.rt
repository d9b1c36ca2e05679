//! Laws of the definitions, each the contract of a function that does nothing.
ghost use Rattle.event_sets.specs.Conflicts.{AddConflictIsLeast, ConflictIsLeast};
ghost use Rattle.event_sets.specs.Laws.{AddedAgrees, ArmedAgrees, AssignedAgrees, EmptiedAgrees, HeldHaveNatives};
ghost use Rattle.event_sets.specs.Laws.{NativesAreFirsts, NativesAreOwned, RemovedAgrees};
ghost use Rattle.event_sets.specs.Soundness.{AddedIsSound, ArmedIsSound, AssignedIsSound, EmptiedIsSound, HeldFit};
ghost use Rattle.event_sets.specs.Soundness.{NewIsSound, RemovedIsSound, WithDomainIsSound, WithSliceIsSound};

/// The changes of a set keep its agreement with the book, if the tests of refusals fail.
pub fn agreement_laws()
    ensures emptied { EmptiedAgrees }
    ensures added { AddedAgrees }
    ensures assigned { AssignedAgrees }
    ensures removed { RemovedAgrees }
    ensures armed { ArmedAgrees }
{}

/// An event that the book holds has a first native event, and the native events of a set that agrees are of its component.
/// The native events of several events are those of each, one after another, without later repeats.
#[tactic(auto, using(crate::proofs::Agreeing::held_have_natives, crate::proofs::Agreeing::natives_are_owned, crate::proofs::Firsts::natives_are_firsts))]
pub fn natives_laws()
    ensures held { HeldHaveNatives }
    ensures owned { NativesAreOwned }
    ensures firsts { NativesAreFirsts }
{}

/// A new set keeps what each set keeps, and so does a set after each change that is not refused.
pub fn soundness_laws()
    ensures new { NewIsSound }
    ensures added { AddedIsSound }
    ensures emptied { EmptiedIsSound }
    ensures removed { RemovedIsSound }
    ensures assigned { AssignedIsSound }
    ensures with_domain { WithDomainIsSound }
    ensures with_slice { WithSliceIsSound }
    ensures armed { ArmedIsSound }
    ensures fit { HeldFit }
{}

/// A conflict names the least set of native events that have fewer allowed counters than members, and these counters.
pub fn conflict_laws()
    ensures least { ConflictIsLeast }
    ensures add { AddConflictIsLeast }
{}
