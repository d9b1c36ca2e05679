//! What an occurrence adds to a register: nothing in other modes than those in which its native event counts.
ghost use Rattle.std.specs.Prelude.{◌≡◌, false};
ghost use Rattle.std.specs.Option.{option_copied};
ghost use Rattle.counter_unit.specs.Modes.{counts_kernel, counts_user, is_modified, weight_at};

use crate::registers::Register;
use papi_base::{Domain, Native, Occ, weight};

/// Whether a native event counts in user mode.
#[inline(always)]
pub(crate) fn counts_user(n: &Native, d: Domain) -> bool
    ensures { result ≡ counts_user n.now d }
{
    let named = n.mods.user || n.mods.kernel;
    if named { n.mods.user } else { d.0 & 1 != 0 }
}

/// Whether a native event counts in kernel mode.
#[inline(always)]
pub(crate) fn counts_kernel(n: &Native, d: Domain) -> bool
    ensures { result ≡ counts_kernel n.now d }
{
    let named = n.mods.user || n.mods.kernel;
    if named { n.mods.kernel } else { d.0 & 2 != 0 }
}

/// Whether a native event does not count each amount as it is: it asks for an edge or a least amount.
#[inline(always)]
pub(crate) fn is_modified(place: &Option<Register>) -> bool
    ensures { result ≡ is_modified place.now }
{
    match place {
        Some(register) => register.native.mods.edge || register.native.mods.cmask != 0,
        None => false,
    }
}

/// What an occurrence adds at a place, if `before` came just before it, given what it adds unless the place is modified.
#[inline(always)]
pub(crate) fn weight_at(
    place: &Option<Register>,
    modified: bool,
    plain: u8,
    before: Option<&Occ>,
    o: &Occ,
) -> u8
    requires { modified ≡ false → plain ≡ weight_at (option_copied before) o.now place.now }
    ensures { result ≡ weight_at (option_copied before.entry) o.now place.now }
{
    if !modified {
        return plain;
    }
    match place {
        Some(register) => weight(&register.native, register.domain, before, o),
        None => 0,
    }
}
