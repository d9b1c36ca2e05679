//! What a run stands on beside its catalog: a script of some kind, and the streams.
ghost use Rattle.std.specs.Prelude.{◌≡◌, ◌≤◌, ℕ, All, IfOk, List, Ok, length, vec_len};
ghost use Rattle.component_table.specs.Catalogs.{CatalogView};
ghost use Rattle.thread_session.specs.SessionView.{IsFresh};
ghost use Rattle.papi_tools.specs.Contents.{content_under};
ghost use Rattle.papi_tools.specs.Looking.{LookedBy, StaysHeld, out_with};
ghost use Rattle.papi_tools.specs.Openings.{Ends};
ghost use Rattle.papi_tools.specs.Running.{CanBeGivenRun, given_of};
ghost use Rattle.papi_tools.specs.Streams.{sources_in};

use crate::Stop;
use crate::contents::{FileContent, read_file};
use crate::limits::SCRIPT_BYTES;
use crate::streams::open_readers;
use papi_base::{Files, Source, THREADS, Text};
use std::alloc::Global;
use stream_reader::StreamReader;

/// A script of some kind, and the readers of all threads.
#[derive(Drop)]
pub(crate) struct Input<T: FileContent, S: Source> {
    pub script: T,
    pub readers: Vec<StreamReader<S>>,
}

/// Reads a script of some kind, and opens the streams, or says why not.
pub(crate) fn open_input<T: FileContent, F: Files>(
    alloc: Global,
    files: &mut F,
    script: &Text,
    streams: &[Text],
) -> Result<Input<T, F::S>, Stop>
    requires few { length streams.now ≤ THREADS }
    ensures found { (catalog : CatalogView)
        → Ends (λ input given. CanBeGivenRun catalog input.script input.readers.items given) result
        (given_of catalog (λ o. content_under SCRIPT_BYTES T.content o script.now) streams.now)
        (F.held files.old) }
    ensures read { IfOk result
        (λ input. (bytes : List ℕ) × (T.content script.now bytes ≡ Ok input.script)) }
    ensures len { IfOk result (λ input. vec_len input.readers ≡ THREADS) }
    ensures fresh { IfOk result (λ input. All IsFresh input.readers.items) }
    ensures looked { LookedBy F.held F.misses F.faults F.lent result
        (out_with (λ input. sources_in input.readers.items) result) files.old files.new }
    ensures held { StaysHeld (F.held files.old) (F.held files.new) }
{
    let script: T = read_file(alloc, files, script.as_str(), SCRIPT_BYTES)?;
    let readers = open_readers(alloc, files, streams)?;
    Ok(Input { script, readers })
}
