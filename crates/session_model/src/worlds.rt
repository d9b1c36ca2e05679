//! The world, looked at on one thread.
ghost use Rattle.session_model.specs.Worlds.{AccountByThread, MergesToWorld, NotesByThread, OpensByThread, RegisteredFollows, RepliesByThread};

/// All threads' calls in one order, looked at on one thread, are that thread's calls alone.
#[tactic(auto, using(crate::proofs::ByThread::opens_by_thread, crate::proofs::ByThread::account_by_thread, crate::proofs::ByThread::replies_by_thread, crate::proofs::ByThread::notes_by_thread))]
pub fn world_laws()
    ensures opens { OpensByThread }
    ensures account { AccountByThread }
    ensures replies { RepliesByThread }
    ensures notes { NotesByThread }
{}

/// Each thread's replies, merged in the order of the script, are those of the world; a thread's registration follows from the
/// replies to its calls.
#[tactic(auto, using(crate::proofs::Merging::registered_follows, crate::proofs::Merging::merges_to_world))]
pub fn merge_laws()
    ensures registered { RegisteredFollows }
    ensures merges { MergesToWorld }
{}
