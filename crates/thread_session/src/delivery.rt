//! Handing notes to a handler: PAPI_overflow(3).
ghost use Rattle.std.specs.Prelude.{◌≡◌, ◌++◌, map, OnErr, OnOk};
ghost use Rattle.overflow_dispatch.specs.Notes.{PartAdded};
ghost use Rattle.session_model.specs.Thresholds.{note};

use overflow_dispatch::{Handler, Note};
use papi_base::Occ;
use std::alloc::AllocError;
use thread_core::Taken;

/// Hands on a note for each threshold that the occurrence passed, in order. If memory is refused, some are not taken.
#[inline(always)]
pub(crate) fn deliver(
    h: &mut dyn Handler,
    thread: u32,
    taken: &Taken,
    o: &Occ,
) -> Result<(), AllocError>
    ensures whole { OnOk result
        (notes h.new ≡ notes h.old ++ map (note thread taken.now.set o.now) taken.now.passed) }
    ensures part { OnErr result
        (PartAdded (notes h.old) (map (note thread taken.now.set o.now) taken.now.passed)
        (notes h.new)) }
{
    let mut left = taken.passed.copied();
    for _told in 0..taken.passed.len() {
        let index = left.pop_first().unwrap_or(0);
        h.on_overflow(Note {
            thread,
            set: taken.set,
            index,
            pc: o.pc,
        })?;
    }
    Ok(())
}
