//! The outside in memory. All of these tell their bytes.
ghost use Rattle.std.specs.Prelude.{◌≡◌, ◌<◌, ◌≤◌, ◌+◌, ◌-◌, ◌↔◌, IsTrue, IfOk, OnOk, OnErr, IsErrOf, ℕ, List, [], length, take, drop, min, Some};
ghost use Rattle.std.specs.Option.{option_map};
ghost use Rattle.papi_base.specs.Outside.{CountsFaults, appended};

use crate::{Ending, Failed, Sink, Source, WriteFail};
use std::alloc::{AllocError, Global};

/// A source in memory. It gives its bytes, and then its ending.
#[derive(Drop)]
pub struct MemSource {
    bytes: Vec<u8>,
    given: usize,
    ending: Ending,
    largest: usize,
    faults: u64,
    ghost some: { 0 < largest },
    ghost within: { given ≤ length bytes.items },
}

impl MemSource {
    /// A source of these bytes, in pieces of at most `largest` bytes.
    pub fn new(bytes: Vec<u8>, ending: Ending, largest: usize) -> Self
        requires { 0 < largest }
        ensures tape { ⟦<MemSource as Source>⟧.tape result
            ≡ Some (record { bytes = bytes.items; ending = ending }) }
        ensures faults { ⟦<MemSource as Source>⟧.faults result ≡ 0 }
    {
        MemSource {
            bytes,
            given: 0,
            ending,
            largest,
            faults: 0,
        }
    }

    /// The bytes that it still gives.
    pub fn rest(&self) -> &[u8]
        ensures { option_map (λ t. t.bytes) (⟦<MemSource as Source>⟧.tape self.now)
            ≡ Some result.now }
    {
        &self.bytes[self.given..]
    }

    /// How it ends after them.
    pub fn ending(&self) -> Ending
        ensures { option_map (λ t. t.ending) (⟦<MemSource as Source>⟧.tape self.now)
            ≡ Some result }
    {
        self.ending
    }

    /// Whether a read has failed.
    pub fn has_failed(&self) -> bool
        ensures { IsTrue result ↔ (0 < ⟦<MemSource as Source>⟧.faults self.now) }
    {
        self.faults != 0
    }
}

// Copies as many bytes as fit, and at most `largest`.
pub(crate) fn copy_front(buf: &mut [u8], bytes: &[u8], largest: usize) -> usize
    ensures { (result ≡ min (length buf.new) (min largest (length bytes.now)))
        × (take result buf.new ≡ take result bytes.now) }
{
    let n = buf.len().min(largest).min(bytes.len());
    buf[..n].copy_from_slice(&bytes[..n]);
    n
}

impl Source for MemSource {
    ghost faults = { λ s. s.faults };

    ghost tape = { λ s. Some (record { bytes = drop s.given s.bytes.items; ending = s.ending }) };

    fn read(&mut self, buf: &mut [u8]) -> Result<usize, Failed> {
        if self.given == self.bytes.len() {
            return match self.ending {
                Ending::End => Ok(0),
                Ending::Fault => {
                    self.faults = self.faults.saturating_add(1);
                    Err(Failed)
                }
            };
        }
        let n = copy_front(buf, &self.bytes[self.given..], self.largest);
        self.given += n;
        Ok(n)
    }
}

/// A sink in memory that takes a number of bytes, and then fails at every piece that is not empty.
#[derive(Drop)]
pub struct MemSink {
    bytes: Vec<u8>,
    room: u64,
    faults: u64,
}

impl MemSink {
    ghost use Rattle.papi_base.specs.Memory.{sink_room};

    /// A sink that takes `room` bytes.
    pub fn new(alloc: Global, room: u64) -> Self
        ensures bytes { ⟦<MemSink as Sink>⟧.taken result ≡ Some [] }
        ensures room { sink_room result ≡ room }
        ensures faults { ⟦<MemSink as Sink>⟧.faults result ≡ 0 }
    {
        MemSink {
            bytes: Vec::new(alloc),
            room,
            faults: 0,
        }
    }

    /// The bytes that it has taken.
    pub fn bytes(&self) -> &[u8]
        ensures { ⟦<MemSink as Sink>⟧.taken self.now ≡ Some result.now }
    {
        &self.bytes
    }
}

impl Sink for MemSink {
    ghost use Rattle.papi_base.specs.Memory.{sink_room};

    ghost faults = { λ s. s.faults };

    ghost taken = { λ s. Some s.bytes.items };

    fn write(&mut self, piece: &[u8]) -> Result<usize, WriteFail>
        // As every sink:
        ensures bound { IfOk result (λ n. n ≤ length piece.now) }
        ensures some { 0 < length piece.now → IfOk result (λ n. 0 < n) }
        ensures ok { IfOk result
            (λ n. ⟦<MemSink as Sink>⟧.taken self.new
            ≡ appended (⟦<MemSink as Sink>⟧.taken self.old) (take n piece.now)) }
        ensures err { OnErr result
            (⟦<MemSink as Sink>⟧.taken self.new ≡ ⟦<MemSink as Sink>⟧.taken self.old) }
        ensures counted { CountsFaults result (⟦<MemSink as Sink>⟧.faults self.old)
            (⟦<MemSink as Sink>⟧.faults self.new) }
        // It fails exactly if no room is left for a piece that is not empty.
        ensures full { IsErrOf result WriteFail.Failed
            ↔ ((0 < length piece.now) × (sink_room self.old ≡ 0)) }
        ensures room { IfOk result (λ n. sink_room self.new + n ≡ sink_room self.old) }
    {
        if piece.is_empty() {
            return Ok(0);
        }
        if self.room == 0 {
            self.faults = self.faults.saturating_add(1);
            return Err(WriteFail::Failed);
        }
        let n = piece.len().min(self.room as usize);
        if self.bytes.extend_from_slice(&piece[..n]).is_err() {
            return Err(WriteFail::Memory);
        }
        self.room -= n as u64;
        Ok(n)
    }
}
