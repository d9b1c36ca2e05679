//! Opening and closing.
ghost use Rattle.std.specs.Prelude.{◌≡◌, ◌≢◌, Option, Some, None, negsuc, pos};
ghost use Rattle.papi_c.specs.Opened.{AreFaultless, IsOpenedBy};
ghost use Rattle.papi_calls.specs.Libraries.{LibraryView};

use crate::handle::{ENOMEM, Handle, einval};
use crate::opening::{OpenFault, open};
use std::alloc::Global;

/// Opens the library of a thread over a unit, presets for a cpu or none, and a stream; one that was open in the handle is
/// closed. PAPI_EINVAL if a file is faulty or the cpu is not UTF-8, PAPI_ENOMEM; the handle is then as it was.
#[unsafe(no_mangle)]
pub extern "C" fn kistalub_open(
    alloc: Global,
    h: &mut Handle,
    unit: &[u8],
    presets: &[u8],
    cpu: &[u8],
    thread: u32,
    stream: &[u8],
) -> i32
    ensures opened { result ≡ pos 0 → (l : LibraryView) × (h.new.library ≡ Some l)
        × IsOpenedBy unit.now presets.now cpu.now thread stream.now l }
    ensures faulty { result ≡ negsuc 0 → ¬ (AreFaultless unit.now presets.now cpu.now) }
    ensures memory { result ≢ pos 0 → result ≢ negsuc 0 → result ≡ negsuc 1 }
    ensures kept { result ≢ pos 0 → h.new.library ≡ h.old.library }
{
    let Ok(cpu) = std::str::from_utf8(cpu) else {
        return einval();
    };
    match open(alloc, unit, presets, cpu, thread, stream) {
        Ok(library) => match Box::new(alloc, library) {
            Ok(library) => {
                h.put(library);
                0
            }
            Err(_) => ENOMEM,
        },
        Err(OpenFault::Faulty) => einval(),
        Err(OpenFault::Memory) => ENOMEM,
    }
}

/// Closes the library of a handle.
#[unsafe(no_mangle)]
pub extern "C" fn kistalub_close(alloc: Global, h: &mut Handle)
    ensures { h.new.library ≡ None }
{
    *h = Handle::shut(alloc);
}
