//! The notes that handlers were told since they were looked at.
ghost use Rattle.std.specs.Prelude.{◌≡◌, ◌++◌, IfOk, OnOk, drop, length, map, slice_get, vec_len};
ghost use Rattle.overflow_dispatch.specs.Notes.{AddedIsTold, told_since};

use crate::handler::{Handler, Note};
use std::alloc::{AllocError, Global};
use std::marker::Send;

/// How many notes the handler has taken.
pub fn count_of(handler: &Box<dyn Handler + Send>) -> u64
    ensures { result ≡ length (notes handler.now) }
{
    handler.noted()
}

/// The note of the handler at this place from 0, if there is one.
pub fn note_of(handler: &Box<dyn Handler + Send>, i: u64) -> Option<Note>
    ensures { result ≡ slice_get (notes handler.now) i }
{
    handler.note_at(i)
}

/// How many notes each handler has taken.
pub fn counts_of(
    alloc: Global,
    handlers: &Vec<Box<dyn Handler + Send>>,
) -> Result<Vec<u64>, AllocError>
    ensures { IfOk result (λ counts.
        counts.items ≡ map (λ b. length (notes b)) handlers.now.items) }
{
    let mut counts = Vec::new(alloc);
    for handler in handlers {
        counts.push(count_of(handler))?;
    }
    Ok(counts)
}

// Appends the notes of a handler from this place on.
fn add_from(
    handler: &Box<dyn Handler + Send>,
    from: u64,
    all: &mut Vec<Note>,
) -> Result<(), AllocError>
    ensures { OnOk result (all.new.items ≡ all.old.items ++ drop from (notes handler.now)) }
{
    for i in from..count_of(handler) {
        if let Some(note) = note_of(handler, i) {
            all.push(note)?;
        }
    }
    Ok(())
}

/// The notes that each handler has taken after its number of `counts`, handler by handler.
pub fn notes_since(
    alloc: Global,
    handlers: &Vec<Box<dyn Handler + Send>>,
    counts: &[u64],
) -> Result<Vec<Note>, AllocError>
    requires { length counts.now ≡ vec_len handlers.now }
    ensures { IfOk result (λ all.
        all.items ≡ told_since counts.now (map (λ b. notes b) handlers.now.items)) }
{
    let mut all = Vec::new(alloc);
    for i in 0..counts.len() {
        add_from(&handlers[i], counts[i], &mut all)?;
    }
    Ok(all)
}

/// What was told since is what was given, if each handler has the notes of its place appended.
#[tactic(auto, using(crate::proofs::SinceLemmas::added_is_told))]
pub fn notes_laws()
    ensures { AddedIsTold }
{}
