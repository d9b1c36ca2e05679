//! What a unit's file says of its components and native events.
ghost use Rattle.std.specs.Prelude.{◌≡◌, IfOk, string_bytes};
ghost use Rattle.papi_c.specs.Asked.{component_asked, component_part_numbered, native_asked, native_part_numbered};
ghost use Rattle.papi_c.specs.Placed.{Spells};
ghost use Rattle.papi_calls.specs.Codes.{map_ok};

use crate::handle::{Handle, on_library};
use crate::texts::give;
use papi_base::Code;
use papi_calls::{ComponentPart, Library, NativePart};
use std::alloc::{AllocError, Global};

// The part of a component that a number stands for.
fn component_part_of(number: u32, place: u32) -> Option<ComponentPart>
    ensures { result ≡ component_part_numbered number place }
{
    match number {
        0 => Some(ComponentPart::Name),
        1 => Some(ComponentPart::Pmu),
        2 => Some(ComponentPart::Counter(place)),
        _ => None,
    }
}

// A part of what the rows of a component say.
fn component_text(
    alloc: Global,
    library: &Library,
    comp: u32,
    part: Option<ComponentPart>,
) -> Result<Result<String, Code>, AllocError>
    ensures { IfOk result (λ text. map_ok string_bytes text
        ≡ component_asked comp part library.now) }
{
    let Some(part) = part else {
        return Ok(Err(Code::Einval));
    };
    let text = library.component_text(alloc, comp, part)?;
    Ok(text.ok_or(Code::Enoevnt))
}

/// A part of what the unit's file says of a component, from 0: 0 its name, 1 the name of its pmu, 2 the name of the counter in this place
/// from 0. PAPI_ENOEVNT if there is no such component or counter, and PAPI_EINVAL if no part has the number.
#[unsafe(no_mangle)]
pub extern "C" fn kistalub_component(
    alloc: Global,
    h: &mut Handle,
    comp: u32,
    number: u32,
    place: u32,
    out: &mut [u8],
    length: &mut u64,
) -> i32
    ensures spells { Spells h.old.library
        (component_asked comp (component_part_numbered number place)) result length.old
        length.new out.old out.new }
    ensures kept { h.new.library ≡ h.old.library }
{
    let part = component_part_of(number, place);
    let answer = on_library!(
        alloc,
        h,
        |library| component_text(alloc, &library, comp, part)
    );
    give(answer, out, length)
}

// The part of a native event that a number stands for.
fn native_part_of(number: u32, place: u32) -> Option<NativePart>
    ensures { result ≡ native_part_numbered number place }
{
    match number {
        0 => Some(NativePart::Name),
        1 => Some(NativePart::Description),
        2 => Some(NativePart::Mask(place)),
        3 => Some(NativePart::MaskDescription(place)),
        _ => None,
    }
}

// A part of what the rows of a native event say.
fn native_text(
    alloc: Global,
    library: &Library,
    comp: u32,
    row: u32,
    part: Option<NativePart>,
) -> Result<Result<String, Code>, AllocError>
    ensures { IfOk result (λ text. map_ok string_bytes text
        ≡ native_asked comp row part library.now) }
{
    let Some(part) = part else {
        return Ok(Err(Code::Einval));
    };
    let text = library.native_text(alloc, comp, row, part)?;
    Ok(text.ok_or(Code::Enoevnt))
}

/// A part of what the unit's file says of the native event in a row of a component, both from 0, in the order of papi_native_avail: 0 its
/// name `PMU::EVENT`, 1 its description, and of its umask in this place from 0, 2 the name `PMU::EVENT:UMASK` and 3 the description.
/// PAPI_ENOEVNT if there is no such row or umask, and PAPI_EINVAL if no part has the number.
#[unsafe(no_mangle)]
pub extern "C" fn kistalub_native(
    alloc: Global,
    h: &mut Handle,
    comp: u32,
    row: u32,
    number: u32,
    place: u32,
    out: &mut [u8],
    length: &mut u64,
) -> i32
    ensures spells { Spells h.old.library
        (native_asked comp row (native_part_numbered number place)) result length.old
        length.new out.old out.new }
    ensures kept { h.new.library ≡ h.old.library }
{
    let part = native_part_of(number, place);
    let answer = on_library!(
        alloc,
        h,
        |library| native_text(alloc, &library, comp, row, part)
    );
    give(answer, out, length)
}
