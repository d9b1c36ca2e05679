//! What umasks fix: modifiers, and the counters that can count them. libpfm4's tables have the modifiers as modhw.

ghost use Rattle.std.specs.Prelude.{◌≡◌, length, map, if◌then◌else◌};
ghost use Rattle.event_tables.specs.Views.{mask_text};
ghost use Rattle.name_encoder.specs.Judged as Judged;
ghost use Rattle.name_encoder.specs.Names as Names;

use crate::attribute::Attributes;
use event_tables::{FixedMods, UmaskRow};
use papi_base::Mods;

/// Nothing is fixed.
pub fn none_fixed() -> FixedMods
    ensures { result ≡ Names.none_fixed }
{
    FixedMods {
        edge: false,
        invert: false,
        cmask: 0,
    }
}

/// What is fixed by one and by another.
pub fn both_fixed(a: FixedMods, b: FixedMods) -> FixedMods
    ensures { result ≡ Names.both_fixed a b }
{
    FixedMods {
        edge: a.edge || b.edge,
        invert: a.invert || b.invert,
        cmask: a.cmask | b.cmask,
    }
}

/// What a umask fixes, if it is chosen.
pub fn fixed_if(chosen: bool, fixed: Option<FixedMods>) -> FixedMods
    ensures { result ≡ Names.fixed_if chosen fixed }
{
    match fixed {
        Some(fixed) => { if chosen { fixed } else { none_fixed() } }
        None => none_fixed(),
    }
}

/// What the chosen umasks fix.
pub fn fixed_of(flags: &[bool], masks: &[UmaskRow]) -> FixedMods
    requires { length flags.now ≡ length masks.now }
    ensures { result ≡ Names.fixed_of Names.none_fixed flags.now (map mask_text masks.now) }
{
    let mut fixed = none_fixed();
    for i in 0..masks.len() {
        fixed = both_fixed(fixed, fixed_if(flags[i], masks[i].fixed));
    }
    fixed
}

fn asks_other(value: Option<u8>, fixed: u8) -> bool
    ensures { result ≡ Names.asks_other value fixed }
{
    match value {
        Some(value) => value != fixed,
        None => false,
    }
}

/// Whether another value is asked for than one that is fixed.
pub fn contradicts(fixed: &FixedMods, given: &Attributes) -> bool
    ensures { result ≡ Names.contradicts fixed.now (Judged.wanted_given given.now) }
{
    let edge = fixed.edge && asks_other(given.edge, 1);
    let invert = fixed.invert && asks_other(given.invert, 1);
    let cmask = fixed.cmask > 0 && asks_other(given.cmask, fixed.cmask);
    edge || (invert || cmask)
}

/// The modifiers with those that are fixed.
pub fn with_fixed(fixed: &FixedMods, mods: &Mods) -> Mods
    ensures { result ≡ Names.with_fixed fixed.now mods.now }
{
    Mods {
        user: mods.user,
        kernel: mods.kernel,
        edge: fixed.edge || mods.edge,
        invert: fixed.invert || mods.invert,
        cmask: if fixed.cmask > 0 {
            fixed.cmask
        } else {
            mods.cmask
        },
    }
}

// The counters of these that a umask allows.
fn met(counters: Option<u32>, allowed: u32) -> u32
    ensures { result ≡ Names.met counters allowed }
{
    match counters {
        Some(counters) => allowed & counters,
        None => allowed,
    }
}

fn met_if(chosen: bool, counters: Option<u32>, allowed: u32) -> u32
    ensures { result ≡ (if chosen then Names.met counters allowed else allowed) }
{
    if chosen {
        met(counters, allowed)
    } else {
        allowed
    }
}

/// The counters of these that each chosen umask allows.
pub fn common_of(allowed: u32, flags: &[bool], masks: &[UmaskRow]) -> u32
    requires { length flags.now ≡ length masks.now }
    ensures { result ≡ Names.common_of allowed flags.now (map mask_text masks.now) }
{
    let mut common = allowed;
    for i in 0..masks.len() {
        common = met_if(flags[i], masks[i].counters, common);
    }
    common
}
