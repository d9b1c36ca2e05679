//! The script.
ghost use Rattle.std.specs.Prelude.{◌≡◌, ◌++◌, IfOk, OnOk, map, string_bytes};
ghost use Rattle.soak_input.specs.Script.{by_thread, call_line, call_lines, rounds_lines, script_text};

use crate::limits::SOAK_THREADS;
use std::alloc::{AllocError, Global};
use std::fmt::Write;

fn push_call(text: &mut String, thread: u32, call: &str) -> Result<(), AllocError>
    ensures { OnOk result (string_bytes text.new
        ≡ string_bytes text.old ++ call_line call.now thread) }
{
    writeln!(text, "{thread} {call}")
}

// Appends these calls of a thread.
fn push_calls(text: &mut String, thread: u32, calls: &[&str]) -> Result<(), AllocError>
    ensures { OnOk result (string_bytes text.new
        ≡ string_bytes text.old ++ call_lines (map (λ s. s.now) calls.now) thread) }
{
    for call in calls {
        push_call(text, thread, *call)?;
    }
    Ok(())
}

// Appends these calls of each thread.
#[tactic(auto, unfolding(crate::specs::Script::by_thread))]
fn push_by_thread(text: &mut String, calls: &[&str]) -> Result<(), AllocError>
    ensures { OnOk result (string_bytes text.new
        ≡ string_bytes text.old ++ by_thread (map (λ s. s.now) calls.now)) }
{
    for thread in 0..SOAK_THREADS {
        push_calls(text, thread, calls)?;
    }
    Ok(())
}

// Appends the lines of n rounds.
#[tactic(auto, unfolding(crate::specs::Script::rounds_lines))]
fn push_rounds(text: &mut String, rounds: u32) -> Result<(), AllocError>
    ensures { OnOk result (string_bytes text.new ≡ string_bytes text.old ++ rounds_lines rounds) }
{
    for _round in 0..rounds {
        push_by_thread(text, &["run 100", "read 0"])?;
    }
    Ok(())
}

/// The script of a soak of n rounds: each of the four threads opens an event set and starts it, runs and reads it in each
/// round, and stops it.
pub fn script_text(alloc: Global, rounds: u32) -> Result<String, AllocError>
    ensures { IfOk result (λ text. string_bytes text ≡ script_text rounds) }
{
    let mut text = String::new(alloc);
    let opening = [
        "create",
        "add 0 INST_RETIRED",
        "add 0 CYCLES",
        "add 0 BR_INST",
        "overflow 0 INST_RETIRED 1000",
        "start 0",
    ];
    push_by_thread(&mut text, &opening)?;
    push_rounds(&mut text, rounds)?;
    push_by_thread(&mut text, &["stop 0"])?;
    Ok(text)
}
