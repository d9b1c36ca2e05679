//! The tools by themselves, each over the words after its name.
ghost use Rattle.std.specs.Prelude.{◌≡◌, ◌∷◌, IfOk, codes, map, string_bytes, vec_len};
ghost use Rattle.papi_tools.specs.Carried.{CarriesOutAndTells, CarriesOutAndTellsBy, CarriesOutBy};
ghost use Rattle.papi_tools.specs.Looking.{no_files, sink_seen};

use crate::no_files::NoFiles;
use crate::{Status, papi_main};
use overflow_dispatch::{Handler, Recorder};
use papi_base::{Files, Sink, THREADS};
use std::alloc::{AllocError, Global};
use std::marker::{Send, Sync};
use std::thread::Threads;

// The words with a tool's name before them.
fn named(alloc: Global, tool: &str, words: &[String]) -> Result<Vec<String>, AllocError>
    ensures { IfOk result (λ all. map string_bytes all.items
        ≡ tool.now ∷ map string_bytes words.now) }
{
    let mut all = Vec::new(alloc);
    all.push(String::from_str(alloc, tool)?)?;
    for word in words {
        all.push(String::from_str(alloc, word.as_str())?)?;
    }
    Ok(all)
}

// A tool that tells the handlers what was passed, over the words after its name, as `papi_main` does it.
fn telling_tool<R: Threads + Sync, F: Files, K: Sink>(
    rt: &R,
    alloc: Global,
    tool: &str,
    words: &[String],
    files: &mut F,
    out: &mut K,
    err: &mut K,
    handlers: &mut Vec<Box<dyn Handler + Send>>,
) -> Status
    requires handlers { vec_len handlers.old ≡ THREADS }
    ensures len { vec_len handlers.new ≡ THREADS }
    ensures carries_out { CarriesOutAndTellsBy F.held F.misses F.faults F.lent K.taken K.faults
        result tool.now words.now files.old files.new out.old out.new err.old err.new
        (map (λ b. notes b) handlers.old.items) (map (λ b. notes b) handlers.new.items) }
{
    match named(alloc, tool, words) {
        Ok(all) => papi_main(rt, alloc, &all, files, out, err, handlers),
        Err(_) => Status::Memory,
    }
}

// A tool that tells handlers nothing, over the words after its name, as `papi_main` does it with handlers that nobody reads.
fn quiet_tool<R: Threads + Sync, F: Files, K: Sink>(
    rt: &R,
    alloc: Global,
    tool: &str,
    words: &[String],
    files: &mut F,
    out: &mut K,
    err: &mut K,
) -> Status
    ensures { CarriesOutBy F.held F.misses F.faults F.lent K.taken K.faults result
        tool.now words.now files.old files.new out.old out.new err.old err.new }
{
    let mut handlers: Vec<Box<dyn Handler + Send>> = Vec::new(alloc);
    for _thread in 0..THREADS {
        let Ok(recorder) = Box::new(alloc, Recorder::new(alloc)) else {
            return Status::Memory;
        };
        if handlers.push(recorder).is_err() {
            return Status::Memory;
        }
    }
    telling_tool(rt, alloc, tool, words, files, out, err, &mut handlers)
}

/// `papi_soak` over the words after its name, as `papi_main` does it over no files.
pub fn soak<R: Threads + Sync, K: Sink>(
    rt: &R,
    alloc: Global,
    words: &[String],
    out: &mut K,
    err: &mut K,
    handlers: &mut Vec<Box<dyn Handler + Send>>,
) -> Status
    requires handlers { vec_len handlers.old ≡ THREADS }
    ensures len { vec_len handlers.new ≡ THREADS }
    ensures carries_out { CarriesOutAndTells (codes "papi_soak" ∷ map string_bytes words.now)
        result no_files no_files
        (sink_seen K.taken K.faults out.old) (sink_seen K.taken K.faults out.new)
        (sink_seen K.taken K.faults err.old) (sink_seen K.taken K.faults err.new)
        (map (λ b. notes b) handlers.old.items) (map (λ b. notes b) handlers.new.items) }
{
    telling_tool(
        rt,
        alloc,
        "papi_soak",
        words,
        &mut NoFiles,
        out,
        err,
        handlers,
    )
}

// tools/make_tools: begin functions
/// `papi_run` over the words after its name, as `papi_main` does it.
pub fn run_tool<R: Threads + Sync, F: Files, K: Sink>(
    rt: &R,
    alloc: Global,
    words: &[String],
    files: &mut F,
    out: &mut K,
    err: &mut K,
    handlers: &mut Vec<Box<dyn Handler + Send>>,
) -> Status
    requires handlers { vec_len handlers.old ≡ THREADS }
    ensures len { vec_len handlers.new ≡ THREADS }
    ensures carries_out { CarriesOutAndTellsBy F.held F.misses F.faults F.lent K.taken K.faults
        result (codes "papi_run") words.now files.old files.new out.old out.new err.old err.new
        (map (λ b. notes b) handlers.old.items) (map (λ b. notes b) handlers.new.items) }
{
    telling_tool(rt, alloc, "papi_run", words, files, out, err, handlers)
}

/// `papi_profil` over the words after its name, as `papi_main` does it.
pub fn profil_tool<R: Threads + Sync, F: Files, K: Sink>(
    rt: &R,
    alloc: Global,
    words: &[String],
    files: &mut F,
    out: &mut K,
    err: &mut K,
    handlers: &mut Vec<Box<dyn Handler + Send>>,
) -> Status
    requires handlers { vec_len handlers.old ≡ THREADS }
    ensures len { vec_len handlers.new ≡ THREADS }
    ensures carries_out { CarriesOutAndTellsBy F.held F.misses F.faults F.lent K.taken K.faults
        result (codes "papi_profil") words.now files.old files.new out.old out.new err.old err.new
        (map (λ b. notes b) handlers.old.items) (map (λ b. notes b) handlers.new.items) }
{
    telling_tool(rt, alloc, "papi_profil", words, files, out, err, handlers)
}

/// `papi_regions` over the words after its name, as `papi_main` does it.
pub fn regions_tool<R: Threads + Sync, F: Files, K: Sink>(
    rt: &R,
    alloc: Global,
    words: &[String],
    files: &mut F,
    out: &mut K,
    err: &mut K,
) -> Status
    ensures { CarriesOutBy F.held F.misses F.faults F.lent K.taken K.faults result
        (codes "papi_regions") words.now files.old files.new out.old out.new err.old err.new }
{
    quiet_tool(rt, alloc, "papi_regions", words, files, out, err)
}

/// `papi_avail` over the words after its name, as `papi_main` does it.
pub fn avail<R: Threads + Sync, F: Files, K: Sink>(
    rt: &R,
    alloc: Global,
    words: &[String],
    files: &mut F,
    out: &mut K,
    err: &mut K,
) -> Status
    ensures { CarriesOutBy F.held F.misses F.faults F.lent K.taken K.faults result
        (codes "papi_avail") words.now files.old files.new out.old out.new err.old err.new }
{
    quiet_tool(rt, alloc, "papi_avail", words, files, out, err)
}

/// `papi_native_avail` over the words after its name, as `papi_main` does it.
pub fn native_avail<R: Threads + Sync, F: Files, K: Sink>(
    rt: &R,
    alloc: Global,
    words: &[String],
    files: &mut F,
    out: &mut K,
    err: &mut K,
) -> Status
    ensures { CarriesOutBy F.held F.misses F.faults F.lent K.taken K.faults result
        (codes "papi_native_avail") words.now files.old files.new out.old out.new err.old err.new }
{
    quiet_tool(rt, alloc, "papi_native_avail", words, files, out, err)
}

/// `papi_event_chooser` over the words after its name, as `papi_main` does it.
pub fn event_chooser<R: Threads + Sync, F: Files, K: Sink>(
    rt: &R,
    alloc: Global,
    words: &[String],
    files: &mut F,
    out: &mut K,
    err: &mut K,
) -> Status
    ensures { CarriesOutBy F.held F.misses F.faults F.lent K.taken K.faults result
        (codes "papi_event_chooser") words.now files.old files.new out.old out.new err.old err.new }
{
    quiet_tool(rt, alloc, "papi_event_chooser", words, files, out, err)
}

/// `papi_decode` over the words after its name, as `papi_main` does it.
pub fn decode<R: Threads + Sync, F: Files, K: Sink>(
    rt: &R,
    alloc: Global,
    words: &[String],
    files: &mut F,
    out: &mut K,
    err: &mut K,
) -> Status
    ensures { CarriesOutBy F.held F.misses F.faults F.lent K.taken K.faults result
        (codes "papi_decode") words.now files.old files.new out.old out.new err.old err.new }
{
    quiet_tool(rt, alloc, "papi_decode", words, files, out, err)
}

/// `papi_encode` over the words after its name, as `papi_main` does it.
pub fn encode_tool<R: Threads + Sync, F: Files, K: Sink>(
    rt: &R,
    alloc: Global,
    words: &[String],
    files: &mut F,
    out: &mut K,
    err: &mut K,
) -> Status
    ensures { CarriesOutBy F.held F.misses F.faults F.lent K.taken K.faults result
        (codes "papi_encode") words.now files.old files.new out.old out.new err.old err.new }
{
    quiet_tool(rt, alloc, "papi_encode", words, files, out, err)
}
// tools/make_tools: end functions
