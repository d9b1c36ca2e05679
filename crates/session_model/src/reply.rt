//! What calls reply.
use event_sets::Clash;
use papi_base::{Code, EventRef, Events, LineCause, Natives, Places, Values};

/// The native events of a set, and the counter of each.
#[derive(Debug, Drop)]
pub struct Assigned {
    pub natives: Natives,
    pub counters: Places,
}

/// How a run ended: it may go on, or the stream ended by a bad line, or by a read that failed.
#[derive(Clone, Copy, Debug)]
pub enum Ended {
    Going,
    Bad { line: u64, cause: LineCause },
    Fault,
}

/// What a run did: how many occurrences it consumed, how many thresholds were passed, and how it ended.
#[derive(Clone, Copy, Debug)]
pub struct Ran {
    pub consumed: u32,
    pub notes: u64,
    pub ended: Ended,
}

/// What stands beside the code of a reply.
#[derive(Debug, Drop)]
pub enum Body {
    Nothing,
    SetNumber(u32),
    Values(Values),
    State(u32),
    Events(Events),
    Assigned(Assigned),
    Clash(Clash),
    Register(u64),
    Ran(Ran),
    EventCode(u32),
    EventName(EventRef),
    Threads(u64),
}

/// The reply to a call.
#[derive(Debug, Drop)]
pub struct Reply {
    pub code: Code,
    pub body: Body,
}
