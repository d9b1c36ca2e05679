//! Lists of events that are named again and again.
ghost use Rattle.std.specs.Prelude.{◌≡◌, ◌<◌, ◌++◌, ◌∷◌, [], List, length, Some, IfOk, IfSome, IsTrue, OnOk, OnErr, slice_get};

use papi_base::EventRef;
use std::alloc::{AllocError, Global};
use std::marker::Model;

/// A list of events, in which each place has the number of its event. Contracts see the list.
#[derive(Drop)]
pub struct EventList {
    known: Vec<EventRef>,
    numbers: Vec<u32>,
    next: u32,
}

impl Model for EventList {
    ghost use Rattle.std.specs.Prelude.{List};
    ghost use Rattle.papi_base.specs.declared.native.EventRef.{EventRef};
    ghost use Rattle.reply_lists.specs.Numbered.{AreNumbers, numbered};

    ghost Value = { List EventRef };

    ghost view = { λ l. numbered l.known.items l.numbers.items };

    ghost invariant = { λ l. AreNumbers l.known.items l.numbers.items };
}

/// An event is looked for among so many of the last that were new.
const LOOKED_AT: usize = 2048;

/// Whether this number is that of the event.
fn is_number(known: &[EventRef], number: usize, event: EventRef) -> bool
    ensures { IsTrue result → slice_get known.now number ≡ Some event }
{
    match known.get(number) {
        Some(found) => *found == event,
        None => false,
    }
}

/// The number of an event, if it is found. The guess is looked at first.
fn number_in(known: &[EventRef], guess: u32, event: EventRef) -> Option<u32>
    ensures event { IfSome result (λ n. slice_get known.now n ≡ Some event) }
{
    if is_number(known, guess as usize, event) {
        return Some(guess);
    }
    for i in known.len().saturating_sub(LOOKED_AT)..known.len() {
        if is_number(known, i, event) {
            return match u32::try_from(i) {
                Ok(number) => Some(number),
                Err(_) => None,
            };
        }
    }
    None
}

/// The number of an event, which is known then.
fn number_of(known: &mut Vec<EventRef>, guess: u32, event: EventRef) -> Result<u32, AllocError>
    ensures event { IfOk result (λ n. slice_get known.new.items n ≡ Some event) }
    ensures grown { (more : List EventRef) × (known.new.items ≡ known.old.items ++ more) }
{
    if let Some(number) = number_in(known.as_slice(), guess, event) {
        return Ok(number);
    }
    match u32::try_from(known.len()) {
        Ok(number) => {
            known.push(event)?;
            Ok(number)
        }
        Err(_) => Err(AllocError),
    }
}

impl EventList {
    /// The empty list.
    pub fn new(alloc: Global) -> EventList
        ensures empty { result ≡ [] }
    {
        EventList {
            known: Vec::new(alloc),
            numbers: Vec::new(alloc),
            next: 0,
        }
    }

    /// How many events it has.
    pub fn len(&self) -> usize
        ensures length { result ≡ length self.now }
    {
        self.numbers.len()
    }

    /// The event at a place that is there.
    pub fn at(&self, i: usize) -> EventRef
        requires place { i < length self.now }
        ensures event { slice_get self.now i ≡ Some result }
    {
        self.known[self.numbers[i] as usize]
    }

    /// One more event at the end.
    pub fn push(&mut self, event: EventRef) -> Result<(), AllocError>
        ensures ok { OnOk result (self.new ≡ self.old ++ event ∷ []) }
        ensures err { OnErr result (self.new ≡ self.old) }
    {
        let number = number_of(&mut self.known, self.next, event)?;
        self.numbers.push(number)?;
        self.next = number.saturating_add(1);
        Ok(())
    }
}
