//! What handlers are told.
ghost use Rattle.call_laws.specs.Passings.{NotesAreThePassings, OneNoteForEach};

/// A thread's handler is told of exactly the thresholds that were passed, in order: occurrence by occurrence, then by the number of
/// the set, then by the index of the event. A threshold is passed if the count since the last call that zeroes reaches one more
/// multiple of it. So an event has had one note for each multiple that its count has reached.
pub fn overflow_law()
    ensures notes { NotesAreThePassings }
    ensures count { OneNoteForEach }
{}
