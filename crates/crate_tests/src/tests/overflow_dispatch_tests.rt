//! Notes that handlers had before they were asked.
use overflow_dispatch::{Handler, Note, Recorder, counts_of, notes_since};
use std::alloc::AllocGlobal;
use std::marker::Send;
use std::test::Fail;

// A note with this program counter.
fn note(pc: u64) -> Note {
    Note {
        thread: 0,
        set: 0,
        index: 0,
        pc,
    }
}

#[test]
fn notes_since_are_those_after_the_counts(rt: HostRuntime) -> Result<(), Fail> {
    let alloc = rt.alloc();
    let mut handlers: Vec<Box<dyn Handler + Send>> = Vec::new(alloc);
    handlers.push(Box::new(alloc, Recorder::new(alloc))?)?;
    handlers.push(Box::new(alloc, Recorder::new(alloc))?)?;
    handlers[0].on_overflow(note(1))?;
    let counts = counts_of(alloc, &handlers)?;
    handlers[0].on_overflow(note(3))?;
    handlers[1].on_overflow(note(4))?;
    let told = notes_since(alloc, &handlers, &counts)?;
    assert_eq!(rt; told.as_slice(), [note(3), note(4)].as_slice());
    Ok(())
}
