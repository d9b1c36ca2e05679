//! The outside over std's readers and writers, as files and standard streams. These tell no tape.
ghost use Rattle.std.specs.Prelude.{◌≡◌, ◌<◌, ◌≤◌, ◌↔◌, IsTrue, IfOk, OnOk, OnErr, IsErr, IsErrOf, None, length};
ghost use Rattle.std.specs.Io.KnownBytes.{ReadConsumes, WriteAppends};
ghost use Rattle.papi_base.specs.Outside.{CountsFaults, Rose};

use crate::{Failed, Sink, Source, WriteFail};
use std::io::{Read, Write};

/// A reader or a writer of std, with a count of its faults.
#[derive(Drop)]
pub struct Counted<T> {
    inner: T,
    faults: u64,
}

/// A source over a reader of std. Each of its errors is a fault.
pub type ReadSource<R> = Counted<R>;

/// A sink over a writer of std. Each of its errors, and a write of no bytes, is a fault.
pub type WriteSink<W> = Counted<W>;

impl<T> Counted<T> {
    ghost use Rattle.papi_base.specs.Adapter.{faults_of, inner_of};

    /// One without faults.
    pub fn new(inner: T) -> Self
        ensures inner { inner_of result ≡ inner }
        ensures faults { faults_of result ≡ 0 }
    {
        Counted { inner, faults: 0 }
    }

    /// Whether a read or a write has failed.
    pub fn has_failed(&self) -> bool
        ensures { IsTrue result ↔ (0 < faults_of self.now) }
    {
        self.faults != 0
    }
}

impl<R: Read + Drop> Source for Counted<R> {
    ghost use Rattle.papi_base.specs.Adapter.{faults_of, inner_of};

    ghost faults = { λ s. s.faults };

    ghost tape = { λ _. None };

    fn read(&mut self, buf: &mut [u8]) -> Result<usize, Failed>
        // As every source:
        ensures bound { IfOk result (λ n. n ≤ length buf.new) }
        ensures falls_never { faults_of self.old ≤ faults_of self.new }
        ensures quiet { OnOk result (faults_of self.new ≡ faults_of self.old) }
        ensures failed { OnErr result (Rose (faults_of self.old) (faults_of self.new)) }
        // What it gives is what its reader gives.
        ensures consumed { ReadConsumes (R.remaining (inner_of self.old))
            (R.remaining (inner_of self.new)) result buf.new }
    {
        match self.inner.read(buf) {
            Ok(n) => Ok(n),
            Err(_) => {
                self.faults = self.faults.saturating_add(1);
                Err(Failed)
            }
        }
    }
}

impl<W: Write> Sink for Counted<W> {
    ghost use Rattle.papi_base.specs.Adapter.{faults_of, inner_of};

    ghost faults = { λ s. s.faults };

    ghost taken = { λ _. None };

    fn write(&mut self, piece: &[u8]) -> Result<usize, WriteFail>
        // As every sink:
        ensures bound { IfOk result (λ n. n ≤ length piece.now) }
        ensures some { 0 < length piece.now → IfOk result (λ n. 0 < n) }
        ensures counted { CountsFaults result (faults_of self.old) (faults_of self.new) }
        // Each of its errors is a fault.
        ensures fault { IsErr result → IsErrOf result WriteFail.Failed }
        // What it takes is what its writer takes.
        ensures appended { WriteAppends (W.contents (inner_of self.old))
            (W.contents (inner_of self.new)) result piece.now }
    {
        if piece.is_empty() {
            return Ok(0);
        }
        match self.inner.write(piece) {
            Ok(n) if n > 0 => Ok(n),
            _ => {
                self.faults = self.faults.saturating_add(1);
                Err(WriteFail::Failed)
            }
        }
    }
}
