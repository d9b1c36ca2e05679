//! The occurrence that a line writes, field by field.
ghost use Rattle.std.specs.Prelude.{◌≡◌};
ghost use Rattle.std.specs.Option.{option_map};
ghost use Rattle.stream_reader.specs.Fields.{event_occurrence_on, occurrence_on, stamp_after, tail_on};

use crate::field::{after_field, decimal, hexadecimal, mode};
use crate::line::LineStart;
use papi_base::Occ;

/// The last fields of an occurrence.
#[derive(Clone, Copy)]
pub(crate) struct Tail {
    pub amount: u8,
    pub pc: u64,
    pub stamp: u64,
}

/// The native event of an occurrence.
#[derive(Clone, Copy)]
pub(crate) struct Event {
    pub comp: u8,
    pub select: u8,
    pub umask: u8,
}

// The stamp, if this is what comes after the program counter's space, if there is one.
#[inline(always)]
fn stamp_after(start: &LineStart, rest: Option<&[u8]>) -> Option<u64>
    ensures { result ≡ stamp_after start.now.stamped start.now.given
        (option_map (λ text. text.now) rest.entry) }
{
    if !start.stamped {
        return match rest {
            None => Some(start.given),
            Some(_) => None,
        };
    }
    let text = rest?;
    let stamp = decimal(text, 0, 4_294_967_294)?;
    match after_field(text, stamp.size) {
        None => Some(stamp.value),
        Some(_) => None,
    }
}

// The amount, the program counter and the stamp.
#[tactic(auto, unfolding(crate::specs::Fields::tail_on))]
#[inline(always)]
fn read_tail(start: &LineStart, text: &[u8]) -> Option<Tail>
    ensures { result ≡ tail_on start.now.stamped start.now.given text.now }
{
    let amount = decimal(text, 1, 255)?;
    let rest = after_field(text, amount.size)?;
    let pc = hexadecimal(rest, 1, 16)?;
    let stamp = stamp_after(start, after_field(rest, pc.size))?;
    Some(Tail {
        amount: amount.value as u8,
        pc: pc.value,
        stamp,
    })
}

// The occurrence of an event, if this is the text after it.
#[tactic(auto, using(crate::proofs::Modes::mode_one), unfolding(crate::specs::Fields::event_occurrence_on))]
#[inline(always)]
fn event_occurrence(start: &LineStart, event: Event, text: &[u8]) -> Option<Occ>
    ensures { result ≡ event_occurrence_on start.now.stamped start.now.given event text.now }
{
    let kernel = mode(text)?;
    let rest = after_field(text, 1)?;
    let tail = read_tail(start, rest)?;
    Some(Occ {
        comp: event.comp,
        select: event.select,
        umask: event.umask,
        kernel,
        amount: tail.amount,
        pc: tail.pc,
        stamp: tail.stamp,
    })
}

/// The occurrence that a line writes, or `None` if its fields are not as many as they should be, or one is out of its form.
#[tactic(auto, unfolding(crate::specs::Fields::occurrence_on))]
#[inline(always)]
pub(crate) fn occurrence(start: &LineStart, line: &[u8]) -> Option<Occ>
    ensures { result ≡ occurrence_on start.now.stamped start.now.given line.now }
{
    let comp = decimal(line, 0, 15)?;
    let rest = after_field(line, comp.size)?;
    let select = hexadecimal(rest, 2, 2)?;
    let rest = after_field(rest, select.size)?;
    let umask = hexadecimal(rest, 2, 2)?;
    let rest = after_field(rest, umask.size)?;
    let event = Event {
        comp: comp.value as u8,
        select: select.value as u8,
        umask: umask.value as u8,
    };
    event_occurrence(start, event, rest)
}
