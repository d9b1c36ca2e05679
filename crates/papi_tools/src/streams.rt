//! The streams of a run: opened in their order into the readers of all threads, and closed.
ghost use Rattle.std.specs.Prelude.{◌≡◌, ◌<◌, ◌≤◌, ◌-◌, ◌++◌, [], ◌∷◌, All, IfOk, None, Some, length, map, replicate, true, vec_capacity, vec_len};
ghost use Rattle.papi_base.specs.Outside.{Rose};
ghost use Rattle.thread_registry.specs.Runs.{CanEachCome};
ghost use Rattle.stream_reader.specs.Reader.{coming, faults_of, new_view};
ghost use Rattle.thread_session.specs.SessionView.{IsFresh};
ghost use Rattle.papi_tools.specs.Looking.{LookedBy, StaysHeld, out_with};
ghost use Rattle.papi_tools.specs.Openings.{Ends, tapes_under};
ghost use Rattle.papi_tools.specs.Streams.{CanEachGive, IsUnread, SomeFailed, empty_stream, sources_in, streams_under};

use crate::Stop;
use crate::opening::open_named;
use papi_base::{Files, Source, THREADS, Text};
use std::alloc::Global;
use stream_reader::StreamReader;

// Opens the streams in their order into readers. After an error those that were opened stand there.
fn open_into<F: Files>(
    alloc: Global,
    files: &mut F,
    names: &[Text],
    readers: &mut Vec<StreamReader<F::S>>,
) -> Result<(), Stop>
    requires none { vec_len readers.old ≡ 0 }
    requires room { length names.now ≤ vec_capacity readers.old }
    ensures found { Ends (λ _ tapes. CanEachGive readers.new.items tapes) result
        (λ openings. tapes_under openings names.now) (F.held files.old) }
    ensures unread { All IsUnread readers.new.items }
    ensures few { vec_len readers.new ≤ length names.now }
    ensures room { vec_capacity readers.new ≡ vec_capacity readers.old }
    ensures fresh { All IsFresh readers.new.items }
    ensures looked { LookedBy F.held F.misses F.faults F.lent result
        (sources_in readers.new.items) files.old files.new }
    ensures held { StaysHeld (F.held files.old) (F.held files.new) }
{
    for name in names {
        match open_named(alloc, files, name.as_str()) {
            Ok(source) => readers.push_reserved(StreamReader::new(source)),
            Err(stop) => return Err(stop),
        }
    }
    Ok(())
}

/// Readers of empty streams for the threads that have none.
pub fn add_empty<S: Source>(readers: &mut Vec<StreamReader<S>>)
    requires few { vec_len readers.old ≤ THREADS }
    requires room { THREADS ≤ vec_capacity readers.old }
    requires fresh { All IsFresh readers.old.items }
    ensures len { vec_len readers.new ≡ THREADS }
    ensures fresh { All IsFresh readers.new.items }
    ensures empty { readers.new.items
        ≡ readers.old.items ++ replicate (THREADS - vec_len readers.old) (new_view None true) }
    ensures coming { map coming readers.new.items ≡ map coming readers.old.items
        ++ replicate (THREADS - vec_len readers.old) (Some empty_stream) }
    ensures sources { sources_in readers.new.items ≡ sources_in readers.old.items }
{
    while readers.len() < THREADS as usize {
        readers.push_reserved(StreamReader::ended());
    }
}

/// Opens the streams in their order, and gives a reader for each of the 64 threads: those of the streams, and empty ones for the
/// other threads. Or says why not: then every source that was opened is closed.
pub fn open_readers<F: Files>(
    alloc: Global,
    files: &mut F,
    names: &[Text],
) -> Result<Vec<StreamReader<F::S>>, Stop>
    requires few { length names.now ≤ THREADS }
    ensures found { Ends (λ readers streams. CanEachCome readers.items streams) result
        (λ openings. streams_under openings names.now) (F.held files.old) }
    ensures len { IfOk result (λ readers. vec_len readers ≡ THREADS) }
    ensures fresh { IfOk result (λ readers. All IsFresh readers.items) }
    ensures looked { LookedBy F.held F.misses F.faults F.lent result
        (out_with (λ readers. sources_in readers.items) result) files.old files.new }
    ensures held { StaysHeld (F.held files.old) (F.held files.new) }
{
    let mut readers = Vec::with_capacity(alloc, THREADS as usize)?;
    match open_into(alloc, files, names, &mut readers) {
        Ok(()) => {
            add_empty(&mut readers);
            Ok(readers)
        }
        Err(stop) => {
            close_readers(files, readers);
            Err(stop)
        }
    }
}

// Closes the source of a reader, if it has one.
fn close_reader<F: Files>(files: &mut F, reader: StreamReader<F::S>)
    ensures faulty { 0 < faults_of reader → Rose (F.faults files.old) (F.faults files.new) }
    ensures lent { F.lent files.new ≡ F.lent files.old - sources_in (reader ∷ []) }
    ensures held { F.held files.new ≡ F.held files.old }
    ensures misses_stay { F.misses files.old ≤ F.misses files.new }
    ensures faults_stay { F.faults files.old ≤ F.faults files.new }
{
    if let Some(source) = reader.into_source() {
        files.close_source(source);
    }
}

/// Closes the sources of the readers. Their faults are then the files'.
pub fn close_readers<F: Files>(files: &mut F, readers: Vec<StreamReader<F::S>>)
    ensures faulty { SomeFailed readers.items → Rose (F.faults files.old) (F.faults files.new) }
    ensures lent { F.lent files.new ≡ F.lent files.old - sources_in readers.items }
    ensures held { F.held files.new ≡ F.held files.old }
    ensures misses_stay { F.misses files.old ≤ F.misses files.new }
    ensures faults_stay { F.faults files.old ≤ F.faults files.new }
{
    for reader in readers {
        close_reader(files, reader);
    }
}
