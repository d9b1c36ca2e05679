//! The calls that take an event by its name.
ghost use Rattle.papi_c.specs.Called.{CalledByName};
ghost use Rattle.call_type.specs.declared.call.Call.TheVariants as call;

use crate::handle::{Handle, on_library_by_name};
use crate::refusals::refusal_code;
use papi_base::code_number;
use std::alloc::Global;

/// PAPI_add_named_event(3). PAPI_EINVAL if the name is not UTF-8, and PAPI_ENOMEM; nothing is changed then.
#[unsafe(no_mangle)]
pub extern "C" fn kistalub_add_named(alloc: Global, h: &mut Handle, set: u32, name: &[u8]) -> i32
    ensures { CalledByName name.now h.old.library h.new.library (λ e. call.Add set e) result }
{
    match on_library_by_name!(alloc, h, name, |library| library.add_named(set, name)) {
        Ok(()) => 0,
        Err(refusal) => code_number(refusal_code(refusal)),
    }
}

/// PAPI_remove_named_event(3). PAPI_EINVAL if the name is not UTF-8, and PAPI_ENOMEM; nothing is changed then.
#[unsafe(no_mangle)]
pub extern "C" fn kistalub_remove_named(alloc: Global, h: &mut Handle, set: u32, name: &[u8]) -> i32
    ensures { CalledByName name.now h.old.library h.new.library (λ e. call.Remove set e) result }
{
    code_number(on_library_by_name!(alloc, h, name, |library| library.remove_named(set, name)))
}

/// PAPI_overflow(3) of an event by its name, and a threshold of 0 clears it. PAPI_EINVAL if the name is not UTF-8, and PAPI_ENOMEM;
/// nothing is changed then.
#[unsafe(no_mangle)]
pub extern "C" fn kistalub_overflow_named(
    alloc: Global,
    h: &mut Handle,
    set: u32,
    name: &[u8],
    threshold: u64,
) -> i32
    ensures { CalledByName name.now h.old.library h.new.library
        (λ e. call.Overflow set e threshold) result }
{
    code_number(on_library_by_name!(
        alloc,
        h,
        name,
        |library| library.overflow_named(set, name, threshold)
    ))
}
