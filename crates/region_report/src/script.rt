//! The script of calls that a region script stands for.

ghost use Rattle.std.specs.Prelude.{◌≡◌, ◌++◌, [], IfOk, Ok, OnOk, if◌then◌else◌, string_bytes};
ghost use Rattle.std.specs.List.{flat_map, range_with_len};
ghost use Rattle.papi_base.specs.declared.limits.TheConstants.{THREADS};
ghost use Rattle.script_lines.specs.Scripts as Scripts;
ghost use Rattle.region_report.specs.CallLines.{AreEvents, asked, numbered};
ghost use Rattle.region_report.specs.Calls as Calls;
ghost use Rattle.region_report.specs.Calls.{add_text, call_text, line_text, opening, thread_opening};

use crate::regions::{RegionCall, RegionLine, Regions};
use crate::threads::threads_of_lines;
use papi_base::{THREADS, Text};
use std::alloc::{AllocError, Global};
use std::fmt::Write;

fn push_call(text: &mut String, thread: u32, words: &str) -> Result<(), AllocError>
    ensures { OnOk result (string_bytes text.new
        ≡ string_bytes text.old ++ call_text thread words.now) }
{
    writeln!(text, "{thread} {words}")
}

// Appends the adds of the events.
fn push_adds(text: &mut String, thread: u32, events: &[Text]) -> Result<(), AllocError>
    ensures { OnOk result (string_bytes text.new
        ≡ string_bytes text.old ++ flat_map (add_text thread) events.now) }
{
    for event in events {
        writeln!(text, "{thread} add 0 {event}")?;
    }
    Ok(())
}

// Appends the calls that make a set of the events and start it.
fn push_opening(text: &mut String, thread: u32, events: &[Text]) -> Result<(), AllocError>
    ensures { OnOk result (string_bytes text.new
        ≡ string_bytes text.old ++ opening events.now thread) }
{
    push_call(text, thread, "create")?;
    push_adds(text, thread, events)?;
    push_call(text, thread, "start 0")
}

// Appends the opening of a thread that counts.
fn push_thread(
    text: &mut String,
    events: &[Text],
    thread: u32,
    counts: bool,
) -> Result<(), AllocError>
    ensures { OnOk result (string_bytes text.new ≡ string_bytes text.old
        ++ (if counts then opening events.now thread else [])) }
{
    if counts {
        push_opening(text, thread, events)
    } else {
        Ok(())
    }
}

// Appends the openings of the threads that have lines.
fn push_openings(text: &mut String, lines: &[RegionLine], events: &[Text]) -> Result<(), AllocError>
    ensures { OnOk result (string_bytes text.new
        ≡ string_bytes text.old ++ flat_map (thread_opening lines.now events.now)
        (range_with_len 0 THREADS)) }
{
    let counting = threads_of_lines(lines);
    for thread in 0..THREADS {
        push_thread(text, events, thread, counting[thread as usize])?;
    }
    Ok(())
}

// Appends the call of a line.
fn push_line(text: &mut String, line: &RegionLine) -> Result<(), AllocError>
    ensures { OnOk result (string_bytes text.new ≡ string_bytes text.old ++ line_text line.now) }
{
    let thread = line.thread;
    match &line.call {
        RegionCall::Run { count } => writeln!(text, "{thread} run {count}"),
        _ => push_call(text, thread, "read 0"),
    }
}

// Appends the calls of all lines.
fn push_lines(text: &mut String, lines: &[RegionLine]) -> Result<(), AllocError>
    ensures { OnOk result (string_bytes text.new
        ≡ string_bytes text.old ++ flat_map line_text lines.now) }
{
    for line in lines {
        push_line(text, line)?;
    }
    Ok(())
}

// The text of the calls that lines stand for.
#[tactic(auto, unfolding(crate::specs::Calls::script_text))]
fn calls_text(alloc: Global, lines: &[RegionLine], events: &[Text]) -> Result<String, AllocError>
    ensures { IfOk result (λ text. string_bytes text ≡ Calls.script_text lines.now events.now) }
{
    let mut text = String::new(alloc);
    push_openings(&mut text, lines, events)?;
    push_lines(&mut text, lines)?;
    Ok(text)
}

/// The script of calls that a region script stands for: each thread that has lines makes a set of the events and starts it, each line that
/// begins, reads or ends a region reads it, and the other lines run. If each event is a word and a set can have as many, `read_script`
/// reads the script as these calls.
pub fn script_of(alloc: Global, regions: &Regions, events: &[Text]) -> Result<String, AllocError>
    ensures text { IfOk result
        (λ text. string_bytes text ≡ Calls.script_text regions.now events.now) }
    ensures read { AreEvents events.now
        → IfOk result (λ text. Scripts.script_of (string_bytes text)
        ≡ Ok (numbered 1 (asked regions.now events.now))) }
{
    let lines = regions.lines();
    let text = calls_text(alloc, lines, events)?;
    Ok(text)
}
