//! The top call.
ghost use Rattle.std.specs.Prelude.{◌≡◌, IfOk, Some, map, string_bytes, vec_len};
ghost use Rattle.overflow_dispatch.specs.Notes.{EachGrown};
ghost use Rattle.tool_words.specs.Form.{form};
ghost use Rattle.papi_tools.specs.Carried.{CarriesOutAndTells};
ghost use Rattle.papi_tools.specs.Looking.{LookedBy, SaysNo, Shows, StaysHeld, files_seen, sink_seen};
ghost use Rattle.papi_tools.specs.Openings.{ForSome};
ghost use Rattle.papi_tools.specs.Verdict.{IsSettledAs, ToolTells, command_verdict, verdict_for};

// tools/make_tools: begin uses
use crate::choosing::choose_events;
use crate::decoding::decode_presets;
use crate::encoding::encode_names;
use crate::native_listing::list_natives;
use crate::preset_listing::list_presets;
use crate::profiling::profile;
use crate::region_counts::count_regions;
use crate::run::run;
use crate::soaking::soak;
// tools/make_tools: end uses

use crate::saying::say;
use crate::settling::{refused, settled};
use crate::{Refusal, Said, Status, ToolResult};
use overflow_dispatch::Handler;
use papi_base::{Files, Sink, THREADS};
use std::alloc::{AllocError, Global};
use std::marker::{Send, Sync};
use std::thread::Threads;
use tool_words::{Command, WordsFault, read_words};

// Does what the command asks for, up to the writing: a row for each tool.
fn carried_out<R: Threads + Sync, F: Files>(
    rt: &R,
    alloc: Global,
    files: &mut F,
    command: &Command,
    handlers: &mut Vec<Box<dyn Handler + Send>>,
) -> ToolResult
    requires handlers { vec_len handlers.old ≡ THREADS }
    ensures len { vec_len handlers.new ≡ THREADS }
    ensures tells { ToolTells (F.held files.old) (F.faults files.old) (F.faults files.new) result
        (λ openings. command_verdict openings command.now) (SaysNo (Some command.now))
        (map (λ b. notes b) handlers.old.items) (map (λ b. notes b) handlers.new.items) }
    ensures looked { LookedBy F.held F.misses F.faults F.lent result 0 files.old files.new }
    ensures held { StaysHeld (F.held files.old) (F.held files.new) }
{
    match command {
        // tools/make_tools: begin rows
        Command::Run(words) => run(rt, alloc, files, words, handlers),
        Command::Profil(words) => profile(rt, alloc, files, words, handlers),
        Command::Regions(words) => count_regions(rt, alloc, files, words),
        Command::Avail(words) => list_presets(alloc, files, words),
        Command::NativeAvail(words) => list_natives(alloc, files, words),
        Command::EventChooser(words) => choose_events(alloc, files, words),
        Command::Decode(words) => decode_presets(alloc, files, words),
        Command::Encode(words) => encode_names(alloc, files, words),
        Command::Soak(words) => soak(rt, alloc, words, handlers),
        // tools/make_tools: end rows
    }
}

// What the call is to say.
fn said_of<R: Threads + Sync, F: Files>(
    rt: &R,
    alloc: Global,
    words: &Vec<String>,
    files: &mut F,
    handlers: &mut Vec<Box<dyn Handler + Send>>,
) -> Result<Said, AllocError>
    requires handlers { vec_len handlers.old ≡ THREADS }
    ensures len { vec_len handlers.new ≡ THREADS }
    ensures said { ForSome (F.held files.old)
        (λ openings. IsSettledAs result
        (verdict_for openings (form (map string_bytes words.now.items)))
        (files_seen F.held F.misses F.faults F.lent files.old)
        (files_seen F.held F.misses F.faults F.lent files.new)
        (map (λ b. notes b) handlers.old.items) (map (λ b. notes b) handlers.new.items)) }
    ensures grown { EachGrown (map (λ b. notes b) handlers.old.items)
        (map (λ b. notes b) handlers.new.items) }
    ensures shows { IfOk result (λ said. Shows (SaysNo (form (map string_bytes words.now.items)))
        (F.faults files.old) (F.faults files.new) said.outcome) }
    ensures returned { F.lent files.new ≡ F.lent files.old }
    ensures held { StaysHeld (F.held files.old) (F.held files.new) }
{
    let command = match read_words(alloc, words.as_slice()) {
        Ok(command) => command,
        Err(WordsFault::BadWords) => return refused(alloc, &Refusal::BadWords),
        Err(WordsFault::Memory) => return Err(AllocError),
    };
    let answer = carried_out(rt, alloc, files, &command, handlers);
    settled(alloc, answer)
}

/// Carries out what the words ask for, which are those after the program's name: the first names a tool.
///
/// The words are read, then the files in their order, each to its end before its content is checked, then the streams are opened
/// and the runs made, and then the output is written. The first fault in this order ends the call with its status and
/// one line on `err`. The handlers are those of the threads 0 to 63.
pub fn papi_main<R: Threads + Sync, F: Files, K: Sink>(
    rt: &R,
    alloc: Global,
    words: &Vec<String>,
    files: &mut F,
    out: &mut K,
    err: &mut K,
    handlers: &mut Vec<Box<dyn Handler + Send>>,
) -> Status
    requires handlers { vec_len handlers.old ≡ THREADS }
    ensures len { vec_len handlers.new ≡ THREADS }
    ensures carries_out { CarriesOutAndTells (map string_bytes words.now.items) result
        (files_seen F.held F.misses F.faults F.lent files.old)
        (files_seen F.held F.misses F.faults F.lent files.new)
        (sink_seen K.taken K.faults out.old) (sink_seen K.taken K.faults out.new)
        (sink_seen K.taken K.faults err.old) (sink_seen K.taken K.faults err.new)
        (map (λ b. notes b) handlers.old.items) (map (λ b. notes b) handlers.new.items) }
{
    match said_of(rt, alloc, words, files, handlers) {
        Ok(said) => say(alloc, &said, out, err),
        Err(_) => Status::Memory,
    }
}
