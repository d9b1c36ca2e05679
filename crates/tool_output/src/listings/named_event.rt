//! The answer to a name.

/// What is printed of the event of a name, and whether there is such an event.
#[derive(Drop)]
pub struct NamedEvent {
    pub text: String,
    pub known: bool,
}
