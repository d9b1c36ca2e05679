//! The calls that give values.
ghost use Rattle.std.specs.Prelude.{◌≡◌, length};
ghost use Rattle.papi_base.specs.Codes.{number_of};
ghost use Rattle.papi_c.specs.Called.{AreGiven, GivesValues, code_of, count_of};
ghost use Rattle.call_type.specs.declared.call.Call.TheVariants as call;

use crate::handle::{Handle, on_library};
use papi_base::{Code, Values, code_number};
use std::alloc::Global;

// The values of a call, as far as there is room, and the number of its code.
fn give(code: Code, values: &Values, out: &mut [i64], count: &mut u32) -> i32
    ensures number { result ≡ number_of code }
    ensures count { count.new ≡ length values.now }
    ensures given { AreGiven values.now out.old out.new }
{
    let n = out.len().min(values.len() as usize);
    for i in 0..n {
        out[i] = values.at(i as u32);
    }
    *count = values.len();
    code_number(code)
}

// How many values a call gave, which are none if a code refused it, and the number of its code.
fn give_count(answer: Result<u32, Code>, count: &mut u32) -> i32
    ensures number { result ≡ number_of (code_of answer) }
    ensures count { count.new ≡ count_of answer }
{
    match answer {
        Ok(n) => {
            *count = n;
            0
        }
        Err(code) => {
            *count = 0;
            code_number(code)
        }
    }
}

/// PAPI_read(3). The values go into `out` as far as there is room, and `count` has their number.
#[unsafe(no_mangle)]
pub extern "C" fn kistalub_read(
    alloc: Global,
    h: &mut Handle,
    set: u32,
    out: &mut [i64],
    count: &mut u32,
) -> i32
    ensures gives { GivesValues h.old.library h.new.library (call.Read set) result count.old
        count.new out.old out.new }
{
    let answer = on_library!(alloc, h, |library| library.read_into(set, out));
    give_count(answer, count)
}

/// PAPI_stop(3). The values go into `out` as far as there is room, and `count` has their number.
#[unsafe(no_mangle)]
pub extern "C" fn kistalub_stop(
    alloc: Global,
    h: &mut Handle,
    set: u32,
    out: &mut [i64],
    count: &mut u32,
) -> i32
    ensures gives { GivesValues h.old.library h.new.library (call.Stop set) result count.old
        count.new out.old out.new }
{
    let mut values = Values::new();
    let code = on_library!(alloc, h, |library| library.stop(set, &mut values));
    give(code, &values, out, count)
}

/// PAPI_accum(3) as the model has it: the sums are kept in the set. The values go into `out` as far as there is room, and `count` has their number.
#[unsafe(no_mangle)]
pub extern "C" fn kistalub_accum(
    alloc: Global,
    h: &mut Handle,
    set: u32,
    out: &mut [i64],
    count: &mut u32,
) -> i32
    ensures gives { GivesValues h.old.library h.new.library (call.Accum set) result count.old
        count.new out.old out.new }
{
    let mut values = Values::new();
    let code = on_library!(alloc, h, |library| library.accum(set, &mut values));
    give(code, &values, out, count)
}
