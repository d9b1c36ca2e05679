//! What is wrong with a file, as papi_run says it.
ghost use Rattle.std.specs.Prelude.{◌≡◌};
ghost use Rattle.papi_c.specs.Faults as Faults;
ghost use Rattle.papi_c.specs.Faults.{TellsFault, unit_told};
ghost use Rattle.papi_c.specs.Placed.{ArePlaced};

use crate::handle::{ENOMEM, einval};
use crate::texts::spell;
use event_tables::{TableFault, cause_text as row_text, read_unit};
use papi_base::{LineCause, cause_text};
use preset_csv::{PresetFault, cause_text as preset_text};
use session_model::Ended;
use std::alloc::Global;
use user_events::read_extended;

/// What ended a stream, as C sees it: a line from 1 and the number of its cause. Both are 0 if nothing has ended it.
#[repr(C)]
#[derive(Clone, Copy, Drop)]
pub struct StreamFault {
    pub line: u64,
    pub cause: u32,
}

// Gives a row, and the words of its cause.
fn tell(number: u64, text: &str, row: &mut u64, out: &mut [u8], length: &mut u64) -> i32
    ensures row { row.new ≡ number }
    ensures text { ArePlaced text.now result length.new out.old out.new }
{
    *row = number;
    spell(text, out, length)
}

/// The first faulty row of a unit file, from 1, and the words of its cause; row 0 and an empty text if none is. PAPI_EINVAL if there
/// is no room for the words, and nothing is written then but the row and their length. PAPI_ENOMEM.
#[unsafe(no_mangle)]
pub extern "C" fn kistalub_unit_fault(
    alloc: Global,
    unit: &[u8],
    row: &mut u64,
    out: &mut [u8],
    length: &mut u64,
) -> i32
    ensures tells { TellsFault (unit_told unit.now) row.old row.new result length.old length.new
        out.old out.new }
{
    match read_unit(alloc, unit) {
        Ok(_) => tell(0, "", row, out, length),
        Err(TableFault::Row { row: n, cause }) => tell(n, row_text(cause), row, out, length),
        Err(TableFault::Memory) => ENOMEM,
    }
}

/// The same of a preset file, as it is read for a cpu. PAPI_EINVAL also if the cpu is not UTF-8.
#[unsafe(no_mangle)]
pub extern "C" fn kistalub_presets_fault(
    alloc: Global,
    presets: &[u8],
    cpu: &[u8],
    row: &mut u64,
    out: &mut [u8],
    length: &mut u64,
) -> i32
    ensures tells { Faults.TellsPresets presets.now cpu.now row.old row.new result length.old
        length.new out.old out.new }
{
    let Ok(cpu) = std::str::from_utf8(cpu) else {
        return einval();
    };
    match read_extended(alloc, presets, cpu) {
        Ok(_) => tell(0, "", row, out, length),
        Err(PresetFault::Row { row: n, cause }) => tell(n, preset_text(cause), row, out, length),
        Err(PresetFault::Memory) => ENOMEM,
    }
}

/// The number of a cause.
pub(crate) fn cause_number(cause: LineCause) -> u32
    ensures { result ≡ Faults.cause_number cause }
{
    match cause {
        LineCause::Long => 1,
        LineCause::Size => 2,
        LineCause::Fields => 3,
        LineCause::Field => 4,
        LineCause::Stamp => 5,
    }
}

/// What ended a stream, if a run ended so.
pub(crate) fn fault_of(ended: Ended) -> StreamFault
    ensures { result ≡ Faults.fault_of ended }
{
    match ended {
        Ended::Going => StreamFault { line: 0, cause: 0 },
        Ended::Bad { line, cause } => StreamFault {
            line,
            cause: cause_number(cause),
        },
        Ended::Fault => StreamFault { line: 0, cause: 6 },
    }
}

// The words of a cause by its number; none if none has it.
fn words_of(number: u32) -> &'static str
    ensures { result.now ≡ Faults.cause_words number }
{
    match number {
        1 => cause_text(LineCause::Long),
        2 => cause_text(LineCause::Size),
        3 => cause_text(LineCause::Fields),
        4 => cause_text(LineCause::Field),
        5 => cause_text(LineCause::Stamp),
        6 => "read failed",
        _ => "",
    }
}

/// The words of the cause of a stream's fault by its number, as papi_run says them, and an empty text if no cause has the number.
#[unsafe(no_mangle)]
pub extern "C" fn kistalub_cause(number: u32, out: &mut [u8], length: &mut u64) -> i32
    ensures { ArePlaced (Faults.cause_words number) result length.new out.old out.new }
{
    spell(words_of(number), out, length)
}
