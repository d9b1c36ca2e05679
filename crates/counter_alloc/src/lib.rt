//! Counters for native events: a matching that is kept while native events come and go, the assignment that comes first, and
//! the natives that stand in the way if there is none.
#![tactic(auto)]

pub use laws::assignment_laws;
pub use matching::{Blame, Matching};

mod augment;
mod laws;
mod lowest;
mod matching;
