//! A unit, files in memory over it, and calls with handlers that nobody reads.
ghost use Rattle.std.specs.Prelude.{◌≡◌, IfOk, vec_len};

use overflow_dispatch::{Handler, Recorder};
use papi_base::{Ending, Files, MemFiles, Sink, THREADS};
use papi_tools::{papi_main, status_number};
use std::alloc::{AllocError, Global};
use std::marker::{Send, Sync};
use std::thread::Threads;

/// A unit of two counters, with two events.
pub(super) const UNIT: &str = "COMPONENT,cpu,lab\n\
COUNTER,P0,16,P\n\
COUNTER,P1,16,P\n\
EVENT,INST_RETIRED,c0,P0 P1,Instructions retired\n\
EVENT,CYCLES,3c,P0 P1,Core cycles\n";

const PRESETS: &str = "CPU,lab1\n\
PRESET,PAPI_TOT_CYC,NOT_DERIVED,lab::CYCLES\n";

/// The words of a line.
pub(super) fn words_in(alloc: Global, line: &str) -> Result<Vec<String>, AllocError> {
    let mut words = Vec::new(alloc);
    for word in line.split(' ') {
        words.push(String::from_str(alloc, word)?)?;
    }
    Ok(words)
}

// A further file, which ends well.
fn add_file(
    alloc: Global,
    tapes: &mut Vec<(String, Vec<u8>, Ending)>,
    name: &str,
    text: &str,
) -> Result<(), AllocError> {
    let name = String::from_str(alloc, name)?;
    let bytes = text.as_bytes().to_vec(alloc)?;
    tapes.push((name, bytes, Ending::End))?;
    Ok(())
}

/// The unit, the presets, the script `s` and the stream `t`.
pub(super) fn files_of(alloc: Global, script: &str, stream: &str) -> Result<MemFiles, AllocError> {
    let mut tapes = Vec::new(alloc);
    add_file(alloc, &mut tapes, "lab.unit", UNIT)?;
    add_file(alloc, &mut tapes, "lab.presets", PRESETS)?;
    add_file(alloc, &mut tapes, "s", script)?;
    add_file(alloc, &mut tapes, "t", stream)?;
    Ok(MemFiles::new(alloc, tapes, 4096, Vec::new(alloc)))
}

/// A recorder for each thread.
pub(super) fn recorders(alloc: Global) -> Result<Vec<Box<dyn Handler + Send>>, AllocError>
    ensures { IfOk result (λ handlers. vec_len handlers ≡ THREADS) }
{
    let mut handlers: Vec<Box<dyn Handler + Send>> = Vec::new(alloc);
    for _thread in 0..THREADS as usize {
        handlers.push(Box::new(alloc, Recorder::new(alloc))?)?;
    }
    Ok(handlers)
}

/// How the words of a line end with these handlers.
pub(super) fn ended_with<R: Threads + Sync, F: Files, K: Sink>(
    rt: &R,
    alloc: Global,
    line: &str,
    files: &mut F,
    out: &mut K,
    err: &mut K,
    handlers: &mut Vec<Box<dyn Handler + Send>>,
) -> Result<u8, AllocError>
    requires { vec_len handlers.old ≡ THREADS }
{
    let words = words_in(alloc, line)?;
    let status = papi_main(rt, alloc, &words, files, out, err, handlers);
    Ok(status_number(status))
}

/// How the words of a line end.
pub(super) fn ended<R: Threads + Sync, F: Files, K: Sink>(
    rt: &R,
    alloc: Global,
    line: &str,
    files: &mut F,
    out: &mut K,
    err: &mut K,
) -> Result<u8, AllocError> {
    let mut handlers = recorders(alloc)?;
    ended_with(rt, alloc, line, files, out, err, &mut handlers)
}
