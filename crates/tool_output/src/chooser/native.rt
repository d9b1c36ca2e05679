//! The native events that are candidates.

ghost use Rattle.std.specs.Prelude.{◌≡◌, ◌<◌, ◌≤◌, [], vec_len};
ghost use Rattle.tool_output.specs.Candidates as Candidates;
ghost use Rattle.event_tables.specs.Tables.{ComponentText};
ghost use Rattle.papi_base.specs.declared.limits.TheConstants.{MOST_COUNTERS};
ghost use Rattle.event_tables.specs.declared.limits.TheConstants.{MOST_UMASKS};
ghost use Rattle.event_tables.specs.Views.{component_text, event_text};
ghost use Rattle.name_encoder.specs.Names as Names;

use event_tables::{Component, EventRow, MOST_UMASKS};
use name_encoder::{Found, native_with};
use papi_base::{Mods, Native};

const NO_MODIFIERS: Mods = Mods {
    user: false,
    kernel: false,
    edge: false,
    invert: false,
    cmask: 0,
};

/// The native event in a row of a component, without umasks and modifiers.
pub fn without_umask(comp: u32, row: u32, event: &EventRow) -> Native
    ensures { (c : ComponentText)
        → result ≡ Names.native_of (Candidates.found comp row c (event_text event.now)) []
        Candidates.no_modifiers }
{
    Native {
        comp,
        event: row,
        select: event.select,
        masks: 0,
        umask: 0,
        mods: NO_MODIFIERS,
        allowed: event.allowed,
    }
}

/// The native event in a row of a component, with one of its umasks alone.
pub fn with_umask(
    comp: u32,
    row: u32,
    component: &Component,
    event: &EventRow,
    umask: usize,
) -> Native
    requires few_counters { vec_len component.now.counters ≤ MOST_COUNTERS }
    requires there { umask < vec_len event.now.masks }
    requires few { vec_len event.now.masks ≤ MOST_UMASKS }
    ensures { result ≡ Names.native_of
        (Candidates.found comp row (component_text component.now) (event_text event.now))
        (Candidates.alone umask (event_text event.now).masks) Candidates.no_modifiers }
{
    let mut flags = [false; MOST_UMASKS];
    flags[umask] = true;
    let found = Found {
        comp,
        row,
        component,
        event,
    };
    native_with(&found, &flags[..event.masks.len()], &NO_MODIFIERS)
}
