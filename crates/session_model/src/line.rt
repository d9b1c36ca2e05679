//! The lines of a script.
use crate::Named;

/// What a line asks for, with its event looked up.
pub type Asked = call_type::Asked<Named, Named, u32>;

/// A line of a script: the thread and what it asks for.
#[derive(Clone, Copy)]
pub struct Line {
    pub thread: u32,
    pub asked: Asked,
}
