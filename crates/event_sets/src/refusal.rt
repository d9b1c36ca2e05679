//! What a refused call says.
use papi_base::{Code, Natives};

/// The native events of a conflict, and the counters that they are allowed, as bits: beside PAPI_ECNFLCT of
/// PAPI_add_event(3). That the least such events are named is this project's own.
#[derive(Debug, Drop)]
pub struct Clash {
    pub natives: Natives,
    pub counters: u32,
}

/// Why a call is refused: a code alone, or PAPI_ECNFLCT with the conflict.
#[derive(Debug, Drop)]
pub enum Refusal {
    Plain(Code),
    Conflict(Clash),
}
