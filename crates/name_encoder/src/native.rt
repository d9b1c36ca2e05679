//! The native event of faultless attributes.

ghost use Rattle.std.specs.Prelude.{◌≡◌, ◌≤◌, ◌<◌, ◌^◌, List, Bool, map, not, take, length, option_map, vec_len, if◌then◌else◌, Some, None};
ghost use Rattle.event_tables.specs.Views.{counter_text, event_text, mask_text};
ghost use Rattle.papi_base.specs.declared.limits.TheConstants.{MOST_COUNTERS};
ghost use Rattle.event_tables.specs.declared.limits.TheConstants.{MOST_UMASKS};
ghost use Rattle.name_encoder.specs.Flags as Flags;
ghost use Rattle.name_encoder.specs.Judged as Judged;
ghost use Rattle.name_encoder.specs.Names as Names;
ghost use Rattle.name_encoder.specs.Views.{found_text};

use crate::attribute::Attributes;
use crate::fault::NameFault;
use crate::fixed::{common_of, contradicts, fixed_of, with_fixed};
use crate::found::Found;
use event_tables::{Counter, MOST_UMASKS, UmaskRow};
use papi_base::{Mods, Native};

// The default umask's flag.
fn default_flags(masks: &[UmaskRow]) -> [bool; MOST_UMASKS]
    requires { length masks.now ≤ MOST_UMASKS }
    ensures { take (length masks.now) result ≡ Names.choices (map mask_text masks.now) }
{
    let mut flags = [false; MOST_UMASKS];
    for i in 0..masks.len() {
        flags[i] = masks[i].preset_choice;
    }
    flags
}

fn has_true(flags: &[bool]) -> bool
    ensures { result ≡ Names.has_true flags.now }
{
    flags.iter().any(|&flag| flag)
}

// The umasks that are named, else the default one, and `None` if the event has umasks and there is neither.
fn chosen(masks: &[UmaskRow], named: [bool; MOST_UMASKS]) -> Option<[bool; MOST_UMASKS]>
    requires { length masks.now ≤ MOST_UMASKS }
    ensures { option_map (λ (flags : List Bool). take (length masks.now) flags) result
        ≡ Names.chosen (map mask_text masks.now) (take (length masks.now) named) }
{
    if masks.is_empty() || has_true(&named[..masks.len()]) {
        return Some(named);
    }
    let flags = default_flags(masks);
    if has_true(&flags[..masks.len()]) {
        Some(flags)
    } else {
        None
    }
}

// The flags as bits, the first as bit 0.
fn mask_bits(flags: &[bool]) -> u16
    requires { length flags.now ≤ MOST_UMASKS }
    ensures { result ≡ Flags.bits_of flags.now }
{
    let mut bits = 0;
    let mut i = flags.len();
    while i > 0 {
        i -= 1;
        bits = 2 * bits + flags[i] as u16;
    }
    bits
}

fn bits_if(on: bool, bits: u8) -> u8
    ensures { result ≡ (if on then bits else 0) }
{
    if on { bits } else { 0 }
}

// The values of the chosen umasks, joined by OR.
fn umask_of(flags: &[bool], masks: &[UmaskRow]) -> u8
    requires { length flags.now ≡ length masks.now }
    ensures { result ≡ Names.values_of flags.now (map mask_text masks.now) }
{
    let mut umask = 0;
    let mut i = masks.len();
    while i > 0 {
        i -= 1;
        umask = bits_if(flags[i], masks[i].bits) | umask;
    }
    umask
}

// The programmable counters as bits.
fn programmable(counters: &[Counter]) -> u32
    requires { length counters.now ≤ MOST_COUNTERS }
    ensures { result ≡ Names.programmable (map counter_text counters.now) }
{
    let mut bits = 0;
    let mut i = counters.len();
    while i > 0 {
        i -= 1;
        bits = 2 * bits + !counters[i].fixed as u32;
    }
    bits
}

fn is_on(value: Option<u8>) -> bool
    ensures { result ≡ Judged.is_on value }
{
    value.unwrap_or(0) > 0
}

fn mods_of(given: &Attributes) -> Mods
    ensures { result ≡ Judged.mods_given given.now }
{
    Mods {
        user: is_on(given.user),
        kernel: is_on(given.kernel),
        edge: is_on(given.edge),
        invert: is_on(given.invert),
        cmask: given.cmask.unwrap_or(0),
    }
}

// The counters that may count with these modifiers: no fixed one with `e`, `i` or `c`.
fn allowed_with(mods: &Mods, counters: &[Counter], allowed: u32) -> u32
    requires { length counters.now ≤ MOST_COUNTERS }
    ensures { result ≡ Names.allowed_with mods.now (map counter_text counters.now) allowed }
{
    if mods.edge || mods.invert || mods.cmask > 0 {
        allowed & programmable(counters)
    } else {
        allowed
    }
}

/// The native event of an event with these umasks and modifiers, and with the modifiers that the umasks fix.
pub fn native_with(f: &Found<'_>, flags: &[bool], mods: &Mods) -> Native
    requires few_counters { vec_len f.now.component.now.counters ≤ MOST_COUNTERS }
    requires few_masks { vec_len f.now.event.now.masks ≤ MOST_UMASKS }
    requires same { length flags.now ≡ vec_len f.now.event.now.masks }
    ensures { result ≡ Names.native_of (found_text f.now) flags.now mods.now }
{
    let masks = f.event.masks.as_slice();
    let mods = with_fixed(&fixed_of(flags, masks), mods);
    let common = common_of(f.event.allowed, flags, masks);
    Native {
        comp: f.comp,
        event: f.row,
        select: f.event.select,
        masks: mask_bits(flags),
        umask: umask_of(flags, masks),
        mods,
        allowed: allowed_with(&mods, f.component.counters.as_slice(), common),
    }
}

// Why the chosen umasks do not go with what is asked for, or with each other.
fn umasks_fault(f: &Found<'_>, given: &Attributes, flags: &[bool]) -> Option<NameFault>
    requires { length flags.now ≡ vec_len f.now.event.now.masks }
    ensures { result ≡ Names.umasks_fault (found_text f.now) (Judged.wanted_given given.now)
        flags.now }
{
    let masks = f.event.masks.as_slice();
    if contradicts(&fixed_of(flags, masks), given) {
        return Some(NameFault::AttrSet);
    }
    if common_of(f.event.allowed, flags, masks) == 0 {
        return Some(NameFault::FeatComb);
    }
    None
}

/// The native event of a found event and of what its attributes give.
pub fn native_of(f: &Found<'_>, given: &Attributes) -> Result<Native, NameFault>
    requires few_counters { vec_len f.now.component.now.counters ≤ MOST_COUNTERS }
    requires few_masks { vec_len f.now.event.now.masks ≤ MOST_UMASKS }
    ensures { result ≡ Judged.native_given (found_text f.now) given.now }
{
    let masks = f.event.masks.as_slice();
    let mods = mods_of(given);
    let Some(flags) = chosen(masks, given.named) else {
        return Err(NameFault::Umask);
    };
    let flags = &flags[..masks.len()];
    match umasks_fault(f, given, flags) {
        Some(fault) => Err(fault),
        None => Ok(native_with(f, flags, &mods)),
    }
}
