//! A catalog, the native events that were mentioned, and a session over a stream in memory.
ghost use Rattle.std.specs.Prelude.{◌≡◌, IfOk, Some};
ghost use Rattle.papi_base.specs.declared.outside.Ending.TheVariants.{End};
ghost use Rattle.papi_base.specs.Numerals.{is_empty};
ghost use Rattle.papi_calls.specs.Libraries.{IsOpened};
ghost use Rattle.postfix_rules.specs.Fitting.{BookFits};
ghost use Rattle.event_tables.specs.Tables.{shape_of};
ghost use Rattle.stream_reader.specs.Occurs.{occurs_of};
ghost use Rattle.stream_reader.specs.Reader.{coming};
ghost use Rattle.session_model.specs.Account.{opening};
ghost use Rattle.thread_session.specs.SessionView.{IsFresh};
ghost use Rattle.thread_session.specs.Stands.{IsReady, Stands};

use component_table::{Catalog, NativeCodes};
use papi_base::{Ending, MemSource};
use std::alloc::{AllocError, Global};
use std::marker::Model;
use stream_reader::StreamReader;
use thread_session::Session;

/// How many bytes of the stream are read at a time.
const PIECE: usize = 4096;

/// What one thread's calls go to: a unit's catalog, the native events that were mentioned, and the thread's session.
///
/// No call asks anything of its caller.
#[derive(Drop)]
pub struct Library {
    pub(crate) catalog: Catalog,
    pub(crate) codes: NativeCodes,
    pub(crate) session: Session<MemSource>,
}

impl Model for Library {
    ghost use Rattle.papi_calls.specs.Libraries.{IsWhole, LibraryView};

    ghost Value = { LibraryView };

    ghost view = { λ l. record { catalog = l.catalog; mentioned = l.codes; session = l.session } };

    ghost invariant = { λ l. IsWhole l.catalog l.codes l.session };
}

// A reader of a stream in memory.
fn reader_of(stream: Vec<u8>) -> StreamReader<MemSource>
    ensures fresh { IsFresh result }
    ensures coming { coming result ≡ Some (occurs_of End stream.items) }
    ensures over { result.over ≡ is_empty stream.items }
{
    if stream.is_empty() {
        return StreamReader::ended();
    }
    StreamReader::new(MemSource::new(stream, Ending::End, PIECE))
}

// A session of a thread over a stream in memory.
fn session_of(
    alloc: Global,
    catalog: &Catalog,
    thread: u32,
    stream: Vec<u8>,
) -> Result<Session<MemSource>, AllocError>
    ensures ready { IfOk result (λ s. IsReady catalog.now.book s) }
    ensures stands { IfOk result
        (λ s. Stands catalog.now.book s
        (opening thread (occurs_of End stream.items).rest (occurs_of End stream.items).mark)) }
    ensures over { IfOk result (λ s. s.reader.over ≡ is_empty stream.items) }
    ensures shape { IfOk result (λ s. s.core.shape ≡ shape_of catalog.now.tables) }
{
    let _book = catalog.book();
    let reader = reader_of(stream);
    Session::new(alloc, thread, catalog.shape(), reader)
}

impl Library {
    /// A library of a thread, over a catalog and the stream of the occurrences to come (docs/FORMATS.md), before any call.
    pub fn open(
        alloc: Global,
        catalog: Catalog,
        thread: u32,
        stream: Vec<u8>,
    ) -> Result<Library, AllocError>
        ensures opened { IfOk result (IsOpened catalog thread stream.items) }
    {
        let session = session_of(alloc, &catalog, thread, stream)?;
        Ok(Library {
            catalog,
            codes: NativeCodes::new(alloc),
            session,
        })
    }

    /// The catalog.
    pub fn catalog(&self) -> &Catalog
        ensures catalog { result.now ≡ self.now.catalog }
    {
        &self.catalog
    }
}
