//! Occurrences handed over as numbers: docs/FORMATS.md.
ghost use Rattle.std.specs.Prelude.{◌≡◌, length, min, true, false};
ghost use Rattle.papi_c.specs.Happened.{AllQuiet, HasHappened, HaveHappened, Happens, halt_number, happening_of};
ghost use Rattle.thread_session.specs.declared.filling.TheConstants.{MOST_PASSED};

use crate::handle::{Handle, einval, on_library};
use crate::running::{BLANK, EBUF, Passing, tell};
use overflow_dispatch::Note;
use papi_calls::{Halt, Happened, Happening, Library};
use std::alloc::Global;
use thread_session::MOST_PASSED;

/// Occurrences of a native event, as C hands them over: its component, select code and umask as a line of a stream has them, whether
/// in kernel mode, the program counter, and how many.
#[repr(C)]
#[derive(Clone, Copy, Drop)]
pub struct Occurrences {
    pub address: u64,
    pub amount: u32,
    pub component: u8,
    pub select: u8,
    pub umask: u8,
    pub kernel: u8,
}

fn happening_of(what: &Occurrences) -> Happening
    ensures { result ≡ happening_of what.now }
{
    Happening {
        comp: what.component,
        select: what.select,
        umask: what.umask,
        kernel: what.kernel != 0,
        pc: what.address,
        amount: what.amount,
    }
}

// What they answer.
fn number_of(halt: Halt) -> i32
    ensures { result ≡ halt_number halt }
{
    match halt {
        Halt::Done => 0,
        Halt::Full => EBUF,
        Halt::Spent | Halt::Streaming => einval(),
    }
}

// They happen over as many places for notes as there can be at once, or as the array has.
fn happen_over(
    library: &mut Library,
    what: &Happening,
    notes: &mut [Note],
    out: &mut [Passing],
) -> Happened
    requires room { length notes.old ≡ min (length out.old) MOST_PASSED }
    ensures went { HasHappened library.old library.new what.now result out.old out.new }
{
    let happened = library.happen_into(what, notes);
    tell(notes, happened.notes, out);
    happened
}

// Whether all of it happened, and passed no threshold.
fn is_quiet(happened: &Happened) -> bool
    ensures quiet { result ≡ true → AllQuiet happened.now }
    ensures loud { result ≡ false → AllQuiet happened.now → ⊥ }
{
    matches!(happened.halt, Halt::Done) && happened.notes == 0
}

// One after another, up to the first that passes thresholds or does not happen to its end.
fn happen_in_order(
    library: &mut Library,
    what: &mut [Occurrences],
    notes: &mut [Note],
    out: &mut [Passing],
) -> Happened
    requires room { length notes.old ≡ min (length out.old) MOST_PASSED }
    ensures went { HaveHappened library.old library.new what.old what.new result out.old out.new }
{
    for i in 0..what.len() {
        let happening = happening_of(&what[i]);
        let happened = happen_over(library, &happening, notes, out);
        what[i].amount -= happened.amount;
        if !is_quiet(&happened) {
            return happened;
        }
    }
    Happened {
        amount: 0,
        notes: 0,
        halt: Halt::Done,
    }
}

fn happen(library: &mut Library, what: &mut [Occurrences], out: &mut [Passing]) -> Happened
    ensures went { HaveHappened library.old library.new what.old what.new result out.old out.new }
{
    let mut notes = [BLANK; MOST_PASSED];
    let room = out.len().min(MOST_PASSED);
    happen_in_order(library, what, &mut notes[..room], out)
}

/// These happen, one after another, and each `amount` says then how much of it is left. The thresholds that were passed go into `out`, and
/// `told` has their number: what comes after the first that passes some waits for a further call. If fewer than 32 have room one stops
/// before its next occurrence: PAPI_EBUF, and a further call goes on with the rest. PAPI_EINVAL if the stream of the library has not
/// ended, or if the thread has taken as many occurrences as a thread may.
#[unsafe(no_mangle)]
pub extern "C" fn kistalub_happen(
    alloc: Global,
    h: &mut Handle,
    what: &mut [Occurrences],
    out: &mut [Passing],
    told: &mut u64,
) -> i32
    ensures happens { Happens h.old.library h.new.library what.old what.new result told.old told.new
        out.old out.new }
{
    let happened = on_library!(alloc, h, |library| happen(&mut library, what, out));
    *told = happened.notes as u64;
    number_of(happened.halt)
}
