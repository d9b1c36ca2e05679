//! What the program asks of its outside: sources that give bytes, sinks that take them, and files by name.
ghost use Rattle.std.specs.Prelude.{◌≡◌, ◌<◌, ◌≤◌, ◌-◌, ℕ, List, length, take, IfOk, IfErr, IfSome, OnOk, OnErr, IsErr, IsErrOf, Option};
ghost use Rattle.std.specs.Option.{option_map};
ghost use Rattle.papi_base.specs.Outside.{Tape, Gives, Rose, CountsFaults, tape_after, appended, Held, lent_after, opened, AnswersOpening};

use thiserror::Error;

/// How a tape ends after its last byte.
#[derive(Clone, Copy)]
pub enum Ending {
    /// The end of the file.
    End,
    /// A read that fails.
    Fault,
}

/// A read that failed.
#[derive(Clone, Copy, Debug, Error)]
#[error("the read failed")]
pub struct Failed;

/// A write that took nothing.
#[derive(Clone, Copy, Debug, PartialEq, Eq, Error)]
pub enum WriteFail {
    /// The sink failed.
    #[error("the write failed")]
    Failed,
    /// Memory was refused.
    #[error("out of memory")]
    Memory,
}

/// What gives bytes piece by piece, as a file or a stream does.
///
/// A count of faults rises at each failed read, and stands still at the last value of a `u64`.
/// A source of which the bytes are known beforehand tells its tape.
pub trait Source: Drop {
    /// How often it has failed.
    ghost faults: { Self → ℕ };

    /// The bytes that it still gives and how it ends then, if it tells.
    ghost tape: { Self → Option Tape };

    /// Fills the first places of `buf` and gives their number. For a buffer that is not empty, `Ok(0)` is the end.
    ///
    /// What a read into an empty buffer answers while bytes are left is open.
    fn read(&mut self, buf: &mut [u8]) -> Result<usize, Failed>
        ensures bound { IfOk result (λ n. n ≤ length buf.new) }
        ensures falls_never { faults self.old ≤ faults self.new }
        ensures quiet { OnOk result (faults self.new ≡ faults self.old) }
        ensures failed { OnErr result (Rose (faults self.old) (faults self.new)) }
        ensures tape { tape self.new ≡ tape_after result (tape self.old) }
        ensures gives { IfSome (tape self.old) (λ tape. Gives tape result buf.new) };
}

/// What takes bytes piece by piece.
///
/// A count of faults rises by one at each failed write, and stands still at the last value of a `u64`.
pub trait Sink {
    /// How often it has failed.
    ghost faults: { Self → ℕ };

    /// The bytes that it has taken, if it tells.
    ghost taken: { Self → Option (List ℕ) };

    /// Takes the first bytes of `piece` and gives their number, which is at least 1 for a piece that is not empty.
    fn write(&mut self, piece: &[u8]) -> Result<usize, WriteFail>
        ensures bound { IfOk result (λ n. n ≤ length piece.now) }
        ensures some { 0 < length piece.now → IfOk result (λ n. 0 < n) }
        ensures ok { IfOk result
            (λ n. taken self.new ≡ appended (taken self.old) (take n piece.now)) }
        ensures err { OnErr result (taken self.new ≡ taken self.old) }
        ensures counted { CountsFaults result (faults self.old) (faults self.new) };
}

/// An opening that gave no source.
#[derive(Clone, Copy, Debug, PartialEq, Eq, Error)]
pub enum OpenFail {
    /// No file has this name.
    #[error("no such file")]
    Absent,
    /// The file could not be opened.
    #[error("cannot read")]
    Failed,
    /// Memory was refused.
    #[error("out of memory")]
    Memory,
}

/// What opens sources by their names.
///
/// Counts of misses and of faults stand still at the last value of a `u64`.
pub trait Files {
    /// A source that it opens.
    type S: Source + Send;

    /// How often a name was not held.
    ghost misses: { Self → ℕ };

    /// How often an opening or a source has failed.
    ghost faults: { Self → ℕ };

    /// How many of its sources are out: opened, and not closed yet.
    ghost lent: { Self → ℕ };

    /// The files and the openings that fail, if it tells.
    ghost held: { Self → Option Held };

    /// Opens the file of this name as a source without faults.
    fn open_source(&mut self, name: &str) -> Result<Self::S, OpenFail>
        ensures answer { IfSome (held self.old)
            (λ held. AnswersOpening Self.S.tape result held name.now) }
        ensures held { held self.new ≡ option_map opened (held self.old) }
        ensures fresh { IfOk result (λ source. Self.S.faults source ≡ 0) }
        ensures lent { lent self.new ≡ lent_after result (lent self.old) }
        ensures absent { IsErrOf result OpenFail.Absent → Rose (misses self.old) (misses self.new) }
        ensures failed { IsErrOf result OpenFail.Failed → Rose (faults self.old) (faults self.new) }
        ensures found { OnOk result (misses self.new ≡ misses self.old) }
        ensures quiet { OnOk result (faults self.new ≡ faults self.old) }
        ensures misses_stay { misses self.old ≤ misses self.new }
        ensures faults_stay { faults self.old ≤ faults self.new };

    /// Takes a source back, and counts its faults as one. Each source that was opened is to come back.
    fn close_source(&mut self, source: Self::S)
        ensures faulty { 0 < Self.S.faults source → Rose (faults self.old) (faults self.new) }
        ensures quiet { Self.S.faults source ≡ 0 → faults self.new ≡ faults self.old }
        ensures lent { lent self.new ≡ lent self.old - 1 }
        ensures held { held self.new ≡ held self.old }
        ensures misses_stay { misses self.old ≤ misses self.new }
        ensures faults_stay { faults self.old ≤ faults self.new };
}
