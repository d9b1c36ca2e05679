//! What is programmed on a counter.
use papi_base::{Domain, Native};

/// A counter that is programmed.
#[derive(Clone, Copy)]
pub struct Register {
    pub native: Native,
    pub domain: Domain,
    /// 0 for none.
    pub threshold: u64,
    pub value: u64,
    /// What was carried away out of the value, modulo 2^64.
    pub bank: u64,
}
