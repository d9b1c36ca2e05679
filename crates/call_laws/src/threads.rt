//! Scripts of several threads.
ghost use Rattle.call_laws.specs.OfThreads.{NotesAreOfThreads, RepliesAreOfThreads};

/// Each reply of a script of several threads is the one to the call after its thread's own calls before it, and each thread's handler is
/// told of the thresholds that the thread's own calls pass. So the laws of one thread hold of each thread of a script.
pub fn thread_laws()
    ensures replies { RepliesAreOfThreads }
    ensures notes { NotesAreOfThreads }
{}
