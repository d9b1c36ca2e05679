//! The calls that take numbers and answer a code.
ghost use Rattle.papi_c.specs.Called.{Called, CalledByCode, GivesNumber};
ghost use Rattle.papi_c.specs.Numbers.{AnswersNumber};
ghost use Rattle.call_type.specs.declared.call.Call.TheVariants as call;
ghost use Rattle.session_model.specs.declared.reply.Body.TheVariants as body;

use crate::handle::{Handle, on_library};
use crate::refusals::refusal_code;
use papi_base::{Code, code_number};
use std::alloc::Global;

// A number that is answered, or the code that refuses it.
pub(crate) fn give(answer: Result<u32, Code>, number: &mut u32) -> i32
    ensures { AnswersNumber answer result number.old number.new }
{
    match answer {
        Ok(found) => {
            *number = found;
            0
        }
        Err(code) => code_number(code),
    }
}

/// PAPI_register_thread(3).
#[unsafe(no_mangle)]
pub extern "C" fn kistalub_register(alloc: Global, h: &mut Handle) -> i32
    ensures { Called h.old.library h.new.library (λ l. call.Register) result }
{
    code_number(on_library!(alloc, h, |library| library.register()))
}

/// PAPI_unregister_thread(3).
#[unsafe(no_mangle)]
pub extern "C" fn kistalub_unregister(alloc: Global, h: &mut Handle) -> i32
    ensures { Called h.old.library h.new.library (λ l. call.Unregister) result }
{
    code_number(on_library!(alloc, h, |library| library.unregister()))
}

/// PAPI_destroy_eventset(3).
#[unsafe(no_mangle)]
pub extern "C" fn kistalub_destroy(alloc: Global, h: &mut Handle, set: u32) -> i32
    ensures { Called h.old.library h.new.library (λ l. call.Destroy set) result }
{
    code_number(on_library!(alloc, h, |library| library.destroy(set)))
}

/// PAPI_cleanup_eventset(3).
#[unsafe(no_mangle)]
pub extern "C" fn kistalub_cleanup(alloc: Global, h: &mut Handle, set: u32) -> i32
    ensures { Called h.old.library h.new.library (λ l. call.Cleanup set) result }
{
    code_number(on_library!(alloc, h, |library| library.cleanup(set)))
}

/// PAPI_assign_eventset_component(3).
#[unsafe(no_mangle)]
pub extern "C" fn kistalub_assign_component(
    alloc: Global,
    h: &mut Handle,
    set: u32,
    comp: u32,
) -> i32
    ensures { Called h.old.library h.new.library (λ l. call.AssignComponent set comp) result }
{
    code_number(on_library!(alloc, h, |library| library.assign_component(set, comp)))
}

/// PAPI_set_domain(3).
#[unsafe(no_mangle)]
pub extern "C" fn kistalub_set_domain(alloc: Global, h: &mut Handle, set: u32, bits: u32) -> i32
    ensures { Called h.old.library h.new.library (λ l. call.SetDomain set bits) result }
{
    code_number(on_library!(alloc, h, |library| library.set_domain(set, bits)))
}

/// PAPI_set_multiplex(3), by slices of n ticks.
#[unsafe(no_mangle)]
pub extern "C" fn kistalub_set_multiplex(alloc: Global, h: &mut Handle, set: u32, slice: u32) -> i32
    ensures { Called h.old.library h.new.library (λ l. call.SetMultiplex set slice) result }
{
    code_number(on_library!(alloc, h, |library| library.set_multiplex(set, slice)))
}

/// PAPI_start(3).
#[unsafe(no_mangle)]
pub extern "C" fn kistalub_start(alloc: Global, h: &mut Handle, set: u32) -> i32
    ensures { Called h.old.library h.new.library (λ l. call.Start set) result }
{
    code_number(on_library!(alloc, h, |library| library.start(set)))
}

/// PAPI_reset(3).
#[unsafe(no_mangle)]
pub extern "C" fn kistalub_reset(alloc: Global, h: &mut Handle, set: u32) -> i32
    ensures { Called h.old.library h.new.library (λ l. call.Reset set) result }
{
    code_number(on_library!(alloc, h, |library| library.reset(set)))
}

/// PAPI_create_eventset(3). `set` is written if the code is PAPI_OK.
#[unsafe(no_mangle)]
pub extern "C" fn kistalub_create(alloc: Global, h: &mut Handle, set: &mut u32) -> i32
    ensures { GivesNumber h.old.library h.new.library call.Create (λ n. body.SetNumber n) result
        set.old set.new }
{
    give(on_library!(alloc, h, |library| library.create()), set)
}

/// PAPI_state(3). `bits` is written if the code is PAPI_OK.
#[unsafe(no_mangle)]
pub extern "C" fn kistalub_state(alloc: Global, h: &mut Handle, set: u32, bits: &mut u32) -> i32
    ensures { GivesNumber h.old.library h.new.library (call.State set) (λ b. body.State b) result
        bits.old bits.new }
{
    give(on_library!(alloc, h, |library| library.state(set)), bits)
}

/// PAPI_add_event(3).
#[unsafe(no_mangle)]
pub extern "C" fn kistalub_add(alloc: Global, h: &mut Handle, set: u32, event: u32) -> i32
    ensures { CalledByCode event h.old.library h.new.library (λ e. call.Add set e) result }
{
    match on_library!(alloc, h, |library| library.add_coded(set, event)) {
        Ok(()) => 0,
        Err(refusal) => code_number(refusal_code(refusal)),
    }
}

/// PAPI_remove_event(3).
#[unsafe(no_mangle)]
pub extern "C" fn kistalub_remove(alloc: Global, h: &mut Handle, set: u32, event: u32) -> i32
    ensures { CalledByCode event h.old.library h.new.library (λ e. call.Remove set e) result }
{
    code_number(on_library!(alloc, h, |library| library.remove_coded(set, event)))
}

/// PAPI_overflow(3), and a threshold of 0 clears it.
#[unsafe(no_mangle)]
pub extern "C" fn kistalub_overflow(
    alloc: Global,
    h: &mut Handle,
    set: u32,
    event: u32,
    threshold: u64,
) -> i32
    ensures { CalledByCode event h.old.library h.new.library
        (λ e. call.Overflow set e threshold) result }
{
    code_number(on_library!(
        alloc,
        h,
        |library| library.overflow_coded(set, event, threshold)
    ))
}
