//! Runs.
ghost use Rattle.std.specs.Prelude.{◌≡◌, ◌≢◌, ◌≤◌, IfOk, IsOk, OnErr, drop, length, map, negsuc, take};
ghost use Rattle.papi_c.specs.Runs.{HasRun, IsUnrun, Runs, passing_of, run_number};
ghost use Rattle.session_model.specs.Step.{code_of};
ghost use Rattle.thread_session.specs.declared.filling.TheConstants.{MOST_PASSED};

use crate::faults::{StreamFault, fault_of};
use crate::handle::{ENOMEM, Handle, on_library};
use overflow_dispatch::Note;
use papi_base::{Code, code_number};
use papi_calls::{Filled, Library};
use session_model::Ended;
use std::alloc::{AllocError, Global};
use thread_session::MOST_PASSED;

/// No room is left in an array: PAPI_EBUF.
pub(crate) const EBUF: i32 = -20;

/// A passed threshold, as C sees it.
#[repr(C)]
#[derive(Clone, Copy, Drop)]
pub struct Passing {
    pub set: u32,
    pub index: u32,
    pub address: u64,
}

// The first notes, one after another.
pub(crate) fn tell(notes: &[Note], count: usize, out: &mut [Passing])
    requires notes { count ≤ length notes.now }
    requires room { count ≤ length out.old }
    ensures written { take count out.new ≡ map passing_of (take count notes.now) }
    ensures rest { drop count out.new ≡ drop count out.old }
{
    for i in 0..count {
        let note = notes[i];
        out[i] = Passing {
            set: note.set,
            index: note.index,
            address: note.pc,
        };
    }
}

fn end_code(ended: Ended) -> Code
    ensures { result ≡ code_of ended }
{
    match ended {
        Ended::Going => Code::Ok,
        Ended::Bad { .. } | Ended::Fault => Code::Esys,
    }
}

// What a run answers.
fn number_of(filled: Filled) -> i32
    ensures { result ≡ run_number filled.full filled.ran.ended }
{
    if filled.full {
        EBUF
    } else {
        code_number(end_code(filled.ran.ended))
    }
}

// A note of nothing.
pub(crate) const BLANK: Note = Note {
    thread: 0,
    set: 0,
    index: 0,
    pc: 0,
};

// Runs a library into an array, over as many places for notes.
fn run_over(library: &mut Library, n: u32, notes: &mut [Note], out: &mut [Passing]) -> Filled
    requires same { length notes.old ≡ length out.old }
    ensures went { HasRun library.old library.new n result out.old out.new }
{
    let filled = library.run_into(n, notes);
    tell(notes, filled.ran.notes as usize, out);
    filled
}

// Runs a library into an array.
fn run(
    alloc: Global,
    library: &mut Library,
    n: u32,
    out: &mut [Passing],
) -> Result<Filled, AllocError>
    ensures went { IfOk result (λ filled. HasRun library.old library.new n filled out.old out.new) }
    ensures same { OnErr result (library.new ≡ library.old) }
    ensures kept { OnErr result (out.new ≡ out.old) }
    ensures lean { length out.old ≤ MOST_PASSED → IsOk result }
{
    let room = out.len();
    if room <= MOST_PASSED {
        let mut notes = [BLANK; MOST_PASSED];
        return Ok(run_over(library, n, &mut notes[..room], out));
    }
    let mut notes = vec![in alloc; BLANK; room]?;
    Ok(run_over(library, n, notes.as_mut_slice(), out))
}

/// Consumes up to `n` occurrences, and says how many. The thresholds that were passed go into `out`, and `told` has their number. If
/// fewer than 32 have room it stops before the next occurrence: PAPI_EBUF, and a further call goes on. PAPI_ESYS once if the stream is
/// faulty, and `fault` then says where and why; after that the stream has ended. PAPI_ENOMEM only if `out` has more than 32 places;
/// nothing happens then.
#[unsafe(no_mangle)]
pub extern "C" fn kistalub_run(
    alloc: Global,
    h: &mut Handle,
    n: u32,
    consumed: &mut u32,
    out: &mut [Passing],
    told: &mut u64,
    fault: &mut StreamFault,
) -> i32
    ensures runs { Runs h.old.library h.new.library n result consumed.new told.new fault.new out.old
        out.new }
    ensures untold { IsUnrun result
        → (consumed.new ≡ consumed.old) × (told.new ≡ told.old) × (fault.new ≡ fault.old) }
    ensures lean { length out.old ≤ MOST_PASSED → result ≢ negsuc 1 }
{
    let Ok(filled) = on_library!(alloc, h, |library| run(alloc, &mut library, n, out)) else {
        return ENOMEM;
    };
    *consumed = filled.ran.consumed;
    *told = filled.ran.notes;
    *fault = fault_of(filled.ran.ended);
    number_of(filled)
}
