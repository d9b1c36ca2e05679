//! The calls on one thread's session, with their events looked up.
use papi_base::{Code, EventRef};

/// An event's text as it was looked up: the event, or the code with which the text was refused.
pub type Named = Result<EventRef, Code>;

/// A call on one thread's session, with its event looked up.
pub type Call = call_type::Call<Named>;
