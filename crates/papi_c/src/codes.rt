//! Events by their codes, and the counters of the unit.
ghost use Rattle.std.specs.Prelude.{◌≡◌};
ghost use Rattle.papi_c.specs.Called.{CodesName};
ghost use Rattle.papi_c.specs.Numbers.{Answers, AnswersCount, TellsCount, code_listed, component_coded, counter_count, native_count, row_coded};
ghost use Rattle.papi_c.specs.Placed.{ArePlaced, Listed, Lists, codes_of};

use crate::handle::{Handle, einval, on_library, on_library_by_name};
use crate::numbers::give;
use papi_base::{Code, Events, code_number};
use papi_calls::Library;
use std::alloc::Global;

// The largest number that a call answers.
const MOST_ANSWERED: usize = 0x7fff_ffff;

/// PAPI_event_name_to_code(3). `code` is written if the answer is PAPI_OK. PAPI_EINVAL if the name is not UTF-8, and
/// PAPI_ENOMEM; nothing is changed then.
#[unsafe(no_mangle)]
pub extern "C" fn kistalub_name_to_code(
    alloc: Global,
    h: &mut Handle,
    name: &[u8],
    code: &mut u32,
) -> i32
    ensures { CodesName name.now h.old.library h.new.library result code.old code.new }
{
    let answer = on_library_by_name!(alloc, h, name, |library| library.code_of(name));
    give(answer, code)
}

// The codes of events, if there is room for all.
fn list(library: &Library, events: &Events, out: &mut [u32], count: &mut u64) -> i32
    ensures { ArePlaced (codes_of library.now events.now) result count.new out.old out.new }
{
    let n = events.len() as usize;
    *count = n as u64;
    if n > out.len() {
        return einval();
    }
    for i in 0..n {
        out[i] = library.code_of_event(&events.at(i as u32)).unwrap_or(0);
    }
    0
}

// Lists a set of a library.
fn list_set(library: &Library, set: u32, out: &mut [u32], count: &mut u64) -> i32
    ensures listed { Listed library.now set result count.old count.new out.old out.new }
{
    match library.list_events(set) {
        Ok(events) => list(library, &events, out, count),
        Err(code) => code_number(code),
    }
}

/// PAPI_list_events(3). The codes go into `out`, and `count` has their number. PAPI_EINVAL if there is no room for all, and nothing is
/// written then but their number.
#[unsafe(no_mangle)]
pub extern "C" fn kistalub_list_events(
    alloc: Global,
    h: &mut Handle,
    set: u32,
    out: &mut [u32],
    count: &mut u64,
) -> i32
    ensures lists { Lists h.old.library set result count.old count.new out.old out.new }
    ensures kept { h.new.library ≡ h.old.library }
{
    on_library!(alloc, h, |library| list_set(&library, set, out, count))
}

/// The code of the preset or user event in a row from 0, the presets first, in the order of their table. PAPI_ENOEVNT past the last.
#[unsafe(no_mangle)]
pub extern "C" fn kistalub_code_in_row(
    alloc: Global,
    h: &mut Handle,
    row: u32,
    code: &mut u32,
) -> i32
    ensures code { Answers h.old.library (code_listed row) result code.old code.new }
    ensures kept { h.new.library ≡ h.old.library }
{
    let answer = on_library!(alloc, h, |library| library.code_in_row(row));
    give(answer.ok_or(Code::Enoevnt), code)
}

/// PAPI_get_event_component(3). PAPI_ENOEVNT if it is the code of no event that is available.
#[unsafe(no_mangle)]
pub extern "C" fn kistalub_component_of(
    alloc: Global,
    h: &mut Handle,
    code: u32,
    comp: &mut u32,
) -> i32
    ensures answers { Answers h.old.library (component_coded code) result comp.old comp.new }
    ensures kept { h.new.library ≡ h.old.library }
{
    give(
        on_library!(alloc, h, |library| library.component_of(code)),
        comp,
    )
}

/// The row in its component of the native event of a code. PAPI_ENOEVNT if it is the code of no native event.
#[unsafe(no_mangle)]
pub extern "C" fn kistalub_row_of(alloc: Global, h: &mut Handle, code: u32, row: &mut u32) -> i32
    ensures answers { Answers h.old.library (row_coded code) result row.old row.new }
    ensures kept { h.new.library ≡ h.old.library }
{
    give(on_library!(alloc, h, |library| library.row_of(code)), row)
}

// How many counters a component has.
fn counters_of(library: &Library, comp: u32) -> Option<usize>
    ensures { result ≡ counter_count comp library.now }
{
    let component = library.catalog().tables().component(comp)?;
    Some(component.counters.len())
}

// A number as an answer, as far as one has room for it.
fn counted(count: Option<usize>) -> i32
    ensures { AnswersCount count result }
{
    match count {
        Some(count) => count.min(MOST_ANSWERED) as i32,
        None => code_number(Code::Enocmp),
    }
}

/// PAPI_num_cmp_hwctrs(3), and PAPI_ENOCMP if there is no such component: PAPI_num_components(3) is the first of these.
#[unsafe(no_mangle)]
pub extern "C" fn kistalub_counters(alloc: Global, h: &mut Handle, comp: u32) -> i32
    ensures counts { TellsCount h.old.library (counter_count comp) result }
    ensures kept { h.new.library ≡ h.old.library }
{
    counted(on_library!(alloc, h, |library| counters_of(&library, comp)))
}

// How many native events a component has.
fn natives_of(library: &Library, comp: u32) -> Option<usize>
    ensures { result ≡ native_count comp library.now }
{
    let component = library.catalog().tables().component(comp)?;
    Some(component.events.len())
}

/// How many native events a component has: `num_native_events` of PAPI_get_component_info(3). PAPI_ENOCMP if there is no such component.
#[unsafe(no_mangle)]
pub extern "C" fn kistalub_natives(alloc: Global, h: &mut Handle, comp: u32) -> i32
    ensures counts { TellsCount h.old.library (native_count comp) result }
    ensures kept { h.new.library ≡ h.old.library }
{
    counted(on_library!(alloc, h, |library| natives_of(&library, comp)))
}
