//! Sessions.
ghost use Rattle.std.specs.Prelude.{◌≡◌, IfOk, Some};
ghost use Rattle.std.specs.Option.{option_map};
ghost use Rattle.postfix_rules.specs.Presets.{Book};
ghost use Rattle.postfix_rules.specs.Fitting.{BookFits};
ghost use Rattle.papi_base.specs.Streams.{Coming};
ghost use Rattle.session_model.specs.Account.{Account, opening};

use papi_base::{Shape, Source};
use std::alloc::{AllocError, Global};
use std::marker::Model;
use stream_reader::StreamReader;
use thread_core::Core;

/// The event sets of one thread, and the reader of the stream of occurrences that they count.
///
/// Of the calls only `new`, `run`, and `call` if it runs, take memory.
#[derive(Drop)]
pub struct Session<S: Source> {
    pub(crate) core: Core,
    pub(crate) reader: StreamReader<S>,
}

impl<S: Source> Model for Session<S> {
    ghost use Rattle.thread_session.specs.SessionView.{AreInStep, SessionView};

    ghost Value = { SessionView };

    ghost view = { λ s. record { core = s.core; reader = s.reader } };

    ghost invariant = { λ s. AreInStep s.core s.reader };
}

impl<S: Source> Session<S> {
    ghost use Rattle.stream_reader.specs.Reader.{coming};
    ghost use Rattle.thread_core.specs.CoreView.{opening_core};
    ghost use Rattle.thread_session.specs.Faults.{fault_count};
    ghost use Rattle.thread_session.specs.SessionView.{IsFresh};
    ghost use Rattle.thread_session.specs.Stands.{IsNew, IsReady, Stands};

    /// A session without sets, for units of this shape, that reads its thread's stream from the beginning. It takes the
    /// memory for all sets; if that is refused, the reader is dropped.
    pub fn new(
        alloc: Global,
        thread: u32,
        shape: Shape,
        reader: StreamReader<S>,
    ) -> Result<Session<S>, AllocError>
        requires fresh { IsFresh reader }
        ensures core { IfOk result (λ s. s.core ≡ opening_core thread shape) }
        ensures shape { IfOk result (λ s. s.core.shape ≡ shape) }
        ensures reader { IfOk result (λ s. s.reader ≡ reader) }
        ensures ready { (book : Book) → BookFits shape book → IfOk result (λ s. IsReady book s) }
        ensures stands { (book : Book) (stream : Coming) → coming reader ≡ Some stream
            → IfOk result (λ s. Stands book s (opening thread stream.rest stream.mark)) }
    {
        let core = Core::new(alloc, thread, shape)?;
        Ok(Session::over(core, reader))
    }

    /// A session of a new core, that reads its thread's stream from the beginning. It takes no memory.
    pub fn over(core: Core, reader: StreamReader<S>) -> Session<S>
        requires new { IsNew core }
        requires fresh { IsFresh reader }
        ensures core { result.core ≡ core }
        ensures reader { result.reader ≡ reader }
        ensures ready { (book : Book) → BookFits core.shape book → IsReady book result }
        ensures stands { (book : Book) (stream : Coming) → coming reader ≡ Some stream
            → Stands book result (opening core.thread stream.rest stream.mark) }
    {
        Session { core, reader }
    }

    /// The reader as the session left it.
    pub fn into_reader(self) -> StreamReader<S>
        ensures { result ≡ self.reader }
    {
        self.reader
    }

    /// The source as the session left it, or `None` if the reader was made without one.
    pub fn into_source(self) -> Option<S>
        ensures source { option_map (λ s. record { tape = S.tape s; faults = S.faults s }) result
            ≡ self.reader.source }
        ensures faults { option_map S.faults result ≡ fault_count self.reader }
    {
        self.reader.into_source()
    }
}
