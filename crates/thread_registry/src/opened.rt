//! What a thread counts on.
ghost use Rattle.std.specs.Prelude.{◌≡◌};
ghost use Rattle.thread_registry.specs.OpenedJobs.{session_of};

use papi_base::Source;
use stream_reader::StreamReader;
use thread_session::Session;

/// A thread's session, or its reader alone if it makes no calls.
#[derive(Drop)]
pub enum Opened<S: Source> {
    Session(Session<S>),
    Reader(StreamReader<S>),
}

impl<S: Source> Opened<S> {
    /// The reader as it was left.
    pub fn into_reader(self) -> StreamReader<S>
        ensures { result ≡ (session_of self).reader }
    {
        match self {
            Opened::Session(session) => session.into_reader(),
            Opened::Reader(reader) => reader,
        }
    }
}
