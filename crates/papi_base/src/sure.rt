//! The outside in memory that never fails.
ghost use Rattle.std.specs.Prelude.{◌≡◌, ◌<◌, ◌≤◌, ◌+◌, ◌-◌, ℕ, List, [], length, take, drop, min, Some};
ghost use Rattle.papi_base.specs.declared.outside.Ending.TheVariants.{End};

use crate::memory::copy_front;
use crate::{Failed, Sink, Source, WriteFail};
use std::alloc::Global;

/// A source in memory that never fails and ends well.
#[derive(Drop)]
pub struct SureSource {
    bytes: Vec<u8>,
    given: usize,
    largest: usize,
    ghost some: { 0 < largest },
    ghost within: { given ≤ length bytes.items },
}

impl SureSource {
    /// A source of these bytes, in pieces of at most `largest` bytes.
    pub fn new(bytes: Vec<u8>, largest: usize) -> Self
        requires { 0 < largest }
        ensures tape { ⟦<SureSource as Source>⟧.tape result
            ≡ Some (record { bytes = bytes.items; ending = End }) }
    {
        SureSource {
            bytes,
            given: 0,
            largest,
        }
    }
}

impl Source for SureSource {
    ghost faults = { λ _. 0 };

    ghost tape = { λ s. Some (record { bytes = drop s.given s.bytes.items; ending = End }) };

    fn read(&mut self, buf: &mut [u8]) -> Result<usize, Failed> {
        let n = copy_front(buf, &self.bytes[self.given..], self.largest);
        self.given += n;
        Ok(n)
    }
}

/// A sink in memory that takes all that it is given.
#[derive(Drop)]
pub struct SureSink {
    bytes: Vec<u8>,
}

impl SureSink {
    /// A sink that has taken nothing.
    pub fn new(alloc: Global) -> Self
        ensures { ⟦<SureSink as Sink>⟧.taken result ≡ Some [] }
    {
        SureSink {
            bytes: Vec::new(alloc),
        }
    }

    /// The bytes that it has taken.
    pub fn bytes(&self) -> &[u8]
        ensures { ⟦<SureSink as Sink>⟧.taken self.now ≡ Some result.now }
    {
        &self.bytes
    }
}

impl Sink for SureSink {
    ghost faults = { λ _. 0 };

    ghost taken = { λ s. Some s.bytes.items };

    fn write(&mut self, piece: &[u8]) -> Result<usize, WriteFail> {
        match self.bytes.extend_from_slice(piece) {
            Ok(()) => Ok(piece.len()),
            Err(_) => Err(WriteFail::Memory),
        }
    }
}
