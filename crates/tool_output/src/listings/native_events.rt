//! One native event.

ghost use Rattle.std.specs.Prelude.{◌≡◌, ◌<◌, ◌≤◌, ◌==◌, ◌++◌, IfOk, OnOk, is_ok, length, map, string_bytes};
ghost use Rattle.std.specs.Int.{bit_at};
ghost use Rattle.papi_base.specs.declared.limits.TheConstants.{MOST_COUNTERS};
ghost use Rattle.event_tables.specs.Views.{counter_text};
ghost use Rattle.name_encoder.specs.Canonical as Canonical;
ghost use Rattle.name_encoder.specs.Names.{names};
ghost use Rattle.tool_output.specs.Lines as Lines;
ghost use Rattle.tool_output.specs.NativeEvents as NativeEvents;

use crate::listings::lines::push_name_and_code;
use crate::listings::named_event::NamedEvent;
use event_tables::{Counter, Tables};
use name_encoder::{cause_word, code64, encode, write_name};
use papi_base::Native;
use std::alloc::{AllocError, Global};
use std::fmt::Write;

// Whether a bit of a number is set.
fn has(set: u32, place: u32) -> bool
    requires { place < MOST_COUNTERS }
    ensures { result ≡ (bit_at set place == 1) }
{
    (set >> place) & 1 == 1
}

// Appends the counters whose bits are set, each after a space.
fn push_counters(text: &mut String, counters: &[Counter], allowed: u32) -> Result<(), AllocError>
    requires { length counters.now ≤ MOST_COUNTERS }
    ensures { OnOk result (string_bytes text.new
        ≡ string_bytes text.old ++ NativeEvents.counters_text
        (map counter_text counters.now) allowed) }
{
    for place in 0..counters.len() {
        if has(allowed, place as u32) {
            write!(text, " {}", counters[place].name)?;
        }
    }
    Ok(())
}

// Appends the line of the counters that may count a native event.
fn push_counters_line(text: &mut String, tables: &Tables, native: &Native) -> Result<(), AllocError>
    ensures { OnOk result (string_bytes text.new
        ≡ string_bytes text.old ++ NativeEvents.counters_line tables.now native.now) }
{
    let _components = tables.components();
    text.push_str("Counters:")?;
    if let Some(component) = tables.component(native.comp) {
        push_counters(text, component.counters.as_slice(), native.allowed)?;
    }
    text.push_str("\n")
}

// Appends the lines of a native event's name and code.
fn push_native(text: &mut String, tables: &Tables, native: &Native) -> Result<(), AllocError>
    ensures { OnOk result (string_bytes text.new
        ≡ string_bytes text.old ++ (Lines.name_line (Canonical.canonical tables.now native.now)
        ++ Lines.code_line (Canonical.code64 native.now))) }
{
    let name = write_name(*text.allocator(), tables, native)?;
    push_name_and_code(text, name.as_str(), code64(native))
}

// The text of a native event.
fn encoding_text(alloc: Global, tables: &Tables, native: &Native) -> Result<String, AllocError>
    ensures { IfOk result (λ text.
        string_bytes text ≡ NativeEvents.native_lines tables.now native.now) }
{
    let mut text = String::new(alloc);
    push_native(&mut text, tables, native)?;
    push_counters_line(&mut text, tables, native)?;
    Ok(text)
}

/// What papi_native_avail(1) prints of the native event that a text names: its canonical name, its code of 64 bits and the
/// counters that may count it.
///
/// Of a text that names no native event it says the cause, in the words of pfm_get_os_event_encoding(3), and the text.
#[tactic(auto, unfolding(crate::specs::NativeEvents::native_event))]
pub fn native_event(alloc: Global, tables: &Tables, name: &str) -> Result<NamedEvent, AllocError>
    ensures text { IfOk result
        (λ event. string_bytes event.text ≡ NativeEvents.native_event tables.now name.now) }
    ensures known { IfOk result (λ event. event.known ≡ is_ok (names tables.now name.now)) }
{
    match encode(tables, name) {
        Ok(native) => Ok(NamedEvent {
            text: encoding_text(alloc, tables, &native)?,
            known: true,
        }),
        Err(fault) => {
            let cause = cause_word(fault);
            Ok(NamedEvent {
                text: format!(in alloc; "{cause}: {name}\n")?,
                known: false,
            })
        }
    }
}
