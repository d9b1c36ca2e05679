//! What the tools print, as text: replies and notes, the lists of events, and what can still be added to a set.
#![tactic(auto)]

pub mod chooser;
pub mod listings;
pub mod replies;

pub use chooser::{Candidates, Choice, choose};
pub use listings::{NamedEvent, avail_event, avail_list, native_event, native_list};
pub use replies::{
    LineBuffer, push_note_line, push_plain_line, push_ran_line, push_reply, push_reply_line,
    push_values_line,
};
