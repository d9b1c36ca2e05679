//! What is kept of a reply.
use crate::events::EventList;
use papi_base::{Code, EventRef};
use session_model::Ran;

/// A part of a list: its first place, and how many there are.
#[derive(Clone, Copy)]
pub struct Span {
    pub from: usize,
    pub len: u32,
}

/// What is kept of a reply's body. What it has several of is a part of the list of all.
#[derive(Clone, Copy)]
pub enum Kept {
    Nothing,
    SetNumber(u32),
    Values(Span),
    State(u32),
    Events(Span),
    Assigned { natives: Span, counters: Span },
    Clash { natives: Span, counters: u32 },
    Register(u64),
    Ran(Ran),
    EventCode(u32),
    EventName(EventRef),
    Threads(u64),
}

/// The head of a reply.
#[derive(Clone, Copy)]
pub struct Head {
    pub code: Code,
    pub kept: Kept,
}

/// The values, the events and the counters of all replies.
#[derive(Drop)]
pub struct Store {
    pub values: Vec<i64>,
    pub events: EventList,
    pub counters: Vec<u8>,
}
