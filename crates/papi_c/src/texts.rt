//! The calls that give texts.
ghost use Rattle.std.specs.Prelude.{◌≡◌, IfOk, OnErr, negsuc, string_bytes};
ghost use Rattle.component_table.specs.EventNames.{event_name};
ghost use Rattle.papi_c.specs.Asked.{info_asked, part_numbered};
ghost use Rattle.papi_c.specs.Placed.{AnswersItems, ArePlaced, IsRefused, Spells};
ghost use Rattle.papi_calls.specs.Codes.{event_coded, map_ok};

use crate::handle::{ENOMEM, Handle, einval, on_library};
use papi_base::{Code, code_number};
use papi_calls::{InfoPart, Library};
use std::alloc::{AllocError, Global};

// The bytes of a text, if there is room for all.
pub(crate) fn spell(text: &str, out: &mut [u8], length: &mut u64) -> i32
    ensures { ArePlaced text.now result length.new out.old out.new }
{
    let bytes = text.as_bytes();
    *length = bytes.len() as u64;
    if bytes.len() > out.len() {
        return einval();
    }
    out[..bytes.len()].copy_from_slice(bytes);
    0
}

// A text, or the code that refuses it.
pub(crate) fn give(
    answer: Result<Result<String, Code>, AllocError>,
    out: &mut [u8],
    length: &mut u64,
) -> i32
    ensures given { IfOk answer
        (λ text. AnswersItems (map_ok string_bytes text) result length.old length.new out.old
        out.new) }
    ensures refused { OnErr answer
        (IsRefused (negsuc 1) result length.old length.new out.old out.new) }
{
    match answer {
        Ok(Ok(text)) => spell(text.as_str(), out, length),
        Ok(Err(code)) => code_number(code),
        Err(_) => ENOMEM,
    }
}

/// PAPI_event_code_to_name(3). The name goes into `out`, and `length` has its length. PAPI_EINVAL if there is no room for it, and
/// nothing is written then but its length, here and below. PAPI_ENOMEM.
#[unsafe(no_mangle)]
pub extern "C" fn kistalub_code_to_name(
    alloc: Global,
    h: &mut Handle,
    code: u32,
    out: &mut [u8],
    length: &mut u64,
) -> i32
    ensures spells { Spells h.old.library
        (λ l. map_ok (event_name l.catalog) (event_coded l.catalog l.mentioned code)) result
        length.old length.new out.old out.new }
    ensures kept { h.new.library ≡ h.old.library }
{
    let answer = on_library!(alloc, h, |library| library.name_of(alloc, code));
    give(answer, out, length)
}

// The part of a number.
fn part_of(number: u32, place: u32) -> Option<InfoPart>
    ensures { result ≡ part_numbered number place }
{
    match number {
        0 => Some(InfoPart::Name),
        1 => Some(InfoPart::Description),
        2 => Some(InfoPart::DerivedType),
        3 => Some(InfoPart::Formula),
        4 => Some(InfoPart::Native(place)),
        _ => None,
    }
}

// A part of what is told of the event of a code.
fn info_text(
    alloc: Global,
    library: &Library,
    code: u32,
    part: Option<InfoPart>,
) -> Result<Result<String, Code>, AllocError>
    ensures { IfOk result (λ text. map_ok string_bytes text ≡ info_asked code part library.now) }
{
    match part {
        Some(part) => library.info(alloc, code, part),
        None => Ok(Err(Code::Einval)),
    }
}

/// A part of what PAPI_get_event_info(3) tells of the event of a code: 0 the name, 1 the description, 2 the derived type, 3 the formula, 4
/// the native event in this place from 0. The text is empty if there is no such part, and PAPI_EINVAL if none has the number.
#[unsafe(no_mangle)]
pub extern "C" fn kistalub_info(
    alloc: Global,
    h: &mut Handle,
    code: u32,
    number: u32,
    place: u32,
    out: &mut [u8],
    length: &mut u64,
) -> i32
    ensures spells { Spells h.old.library (info_asked code (part_numbered number place)) result
        length.old length.new out.old out.new }
    ensures kept { h.new.library ≡ h.old.library }
{
    let part = part_of(number, place);
    let answer = on_library!(alloc, h, |library| info_text(alloc, &library, code, part));
    give(answer, out, length)
}
