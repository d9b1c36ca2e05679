//! A handler that is refused memory ends its own thread's job alone, and is not told twice.
use super::lab::{ended_with, files_of};
use overflow_dispatch::{Handler, Note, Recorder};
use papi_base::MemSink;
use std::alloc::{AllocError, Global};
use std::marker::{Send, Sync};
use std::process::Abort;
use std::test::Fail;
use std::thread::Threads;

// A handler that is refused memory at its second note.
#[derive(Drop)]
struct OneNote {
    taken: Option<Note>,
}

impl Handler for OneNote {
    ghost use Rattle.std.specs.Prelude.{[], ◌∷◌};
    ghost use Rattle.std.specs.Option.{option_map_or};

    ghost notes = { λ h. option_map_or (λ note. note ∷ []) h.taken [] };

    fn on_overflow(&mut self, note: Note) -> Result<(), AllocError> {
        if self.taken.is_some() {
            return Err(AllocError);
        }
        self.taken = Some(note);
        Ok(())
    }

    fn noted(&self) -> u64 {
        u64::from(self.taken.is_some())
    }

    fn note_at(&self, i: u64) -> Option<Note> {
        if i == 0 { self.taken } else { None }
    }
}

// The same calls on each of n threads, call by call.
fn script_of(alloc: Global, threads: u32) -> Result<String, AllocError> {
    let mut script = String::new(alloc);
    for call in [
        "create",
        "add 0 INST_RETIRED",
        "overflow 0 INST_RETIRED 1000",
        "start 0",
        "run 16",
    ] {
        for thread in 0..threads {
            let line = format!(in alloc; "{thread} {call}\n")?;
            script.push_str(line.as_str())?;
        }
    }
    Ok(script)
}

// Of n threads, the handler of `refused` is refused its second note of four: it keeps its first, the others have all.
fn check<R: Threads + Sync + Abort>(
    rt: &R,
    alloc: Global,
    words: &str,
    threads: u32,
    refused: u32,
) -> Result<(), AllocError> {
    let mut stream = String::new(alloc);
    for _ in 0..16u32 {
        stream.push_str("0 c0 00 u 255 1\n")?;
    }
    let mut handlers: Vec<Box<dyn Handler + Send>> = Vec::new(alloc);
    for thread in 0..64u32 {
        if thread == refused {
            handlers.push(Box::new(alloc, OneNote { taken: None })?)?;
        } else {
            handlers.push(Box::new(alloc, Recorder::new(alloc))?)?;
        }
    }
    let script = script_of(alloc, threads)?;
    let mut files = files_of(alloc, script.as_str(), stream.as_str())?;
    let mut out = MemSink::new(alloc, 1000);
    let mut err = MemSink::new(alloc, 1000);
    let status = ended_with(
        rt,
        alloc,
        words,
        &mut files,
        &mut out,
        &mut err,
        &mut handlers,
    )?;
    assert_eq!(rt; status, 4);
    assert!(rt; out.bytes().is_empty() && err.bytes().is_empty());
    let mut thread = 0u32;
    for handler in &handlers {
        let noted = if thread == refused {
            1
        } else if thread < threads {
            4
        } else {
            0
        };
        assert_eq!(rt; handler.noted(), noted, "thread {thread}");
        thread = thread.saturating_add(1);
    }
    Ok(())
}

#[test]
fn one_job_is_refused_memory(rt: HostRuntime) -> Result<(), Fail> {
    let alloc = rt.alloc();
    check(&rt, alloc, "papi_run -U lab.unit --notes s t", 1, 0)?;
    for workers in 1..5u32 {
        let words = format!(in alloc; "papi_run -U lab.unit --workers {workers} s t t t")?;
        check(&rt, alloc, words.as_str(), 3, 1)?;
        let words = format!(in alloc; "papi_run -U lab.unit --workers {workers} s t t t t t")?;
        check(&rt, alloc, words.as_str(), 5, 3)?;
    }
    Ok(())
}
