//! Replies and notes, written as text.

ghost use Rattle.std.specs.Prelude.{◌≡◌, ◌≤◌, ◌<◌, ◌++◌, IfSome, OnOk, OnErr, IsErrOf, length, slice_get, string_bytes};
ghost use Rattle.papi_base.specs.Outside.{CountsFaults, appended};
ghost use Rattle.tool_output.specs.Notes.{note_text};
ghost use Rattle.script_runner.specs.Pieces.{IsPartWritten};
ghost use Rattle.script_runner.specs.Replies.{notes_text, replies_text, reply_line_text};

use crate::gathering::write_piece;
use component_table::Catalog;
use overflow_dispatch::Note;
use papi_base::{Sink, WriteFail, write_whole};
use std::alloc::Global;
use thread_registry::{ReplyLine, ReplyLines, Shown};
use tool_output::{
    LineBuffer, push_note_line, push_plain_line, push_ran_line, push_reply_line, push_values_line,
};

// Appends the text of a reply.
fn gather_reply(text: &mut String, catalog: &Catalog, line: &ReplyLine) -> Result<(), WriteFail>
    ensures text { OnOk result
        (string_bytes text.new ≡ string_bytes text.old ++ reply_line_text catalog.now line.now) }
    ensures not_failed { IsErrOf result WriteFail.Failed → ⊥ }
{
    match push_reply_line(
        text,
        catalog,
        line.line,
        line.thread,
        line.word,
        &line.reply,
    ) {
        Ok(()) => Ok(()),
        Err(_) => Err(WriteFail::Memory),
    }
}

// Appends the text of a reply of which nothing is shown where it is kept.
#[inline(never)]
fn gather_other(
    text: &mut String,
    catalog: &Catalog,
    lines: &ReplyLines,
    i: usize,
) -> Result<(), WriteFail>
    requires place { i < length lines.now }
    ensures text { OnOk result
        (IfSome (slice_get lines.now i) (λ l. string_bytes text.new
        ≡ string_bytes text.old ++ reply_line_text catalog.now l)) }
    ensures not_failed { IsErrOf result WriteFail.Failed → ⊥ }
{
    gather_reply(text, catalog, &lines.at(i))
}

// Appends the text of the reply at a place, from where it is kept.
fn gather_line(
    text: &mut String,
    buffer: &mut LineBuffer,
    catalog: &Catalog,
    lines: &ReplyLines,
    i: usize,
) -> Result<(), WriteFail>
    requires place { i < length lines.now }
    ensures text { OnOk result
        (IfSome (slice_get lines.now i) (λ l. string_bytes text.new
        ≡ string_bytes text.old ++ reply_line_text catalog.now l)) }
    ensures not_failed { IsErrOf result WriteFail.Failed → ⊥ }
{
    let head = lines.head_at(i);
    let done = match lines.shown_at(i) {
        Shown::Values(code, values) => {
            push_values_line(
                text,
                buffer,
                head.line,
                head.thread,
                head.word,
                code,
                values,
            )
        }
        Shown::Plain(code) => push_plain_line(
            text,
            buffer,
            head.line,
            head.thread,
            head.word,
            code,
        ),
        Shown::Ran(code, ran) => {
            push_ran_line(text, buffer, head.line, head.thread, head.word, code, &ran)
        }
        Shown::Other => return gather_other(text, catalog, lines, i),
    };
    match done {
        Ok(()) => Ok(()),
        Err(_) => Err(WriteFail::Memory),
    }
}

/// Writes the replies in order, each as a line: the number of the script's line, the thread, the call, the code and the results.
/// After an error a prefix of this text is written.
#[tactic(auto, unfolding(crate::specs::Replies::replies_text))]
pub fn write_replies<K: Sink>(
    alloc: Global,
    lines: &ReplyLines,
    catalog: &Catalog,
    out: &mut K,
) -> Result<(), WriteFail>
    ensures ok { OnOk result
        (K.taken out.new ≡ appended (K.taken out.old) (replies_text catalog.now lines.now)) }
    ensures part { OnErr result
        (IsPartWritten (K.taken out.old) (K.taken out.new) (replies_text catalog.now lines.now)) }
    ensures counted { CountsFaults result (K.faults out.old) (K.faults out.new) }
{
    let mut gathered = String::new(alloc);
    let mut buffer = LineBuffer::new();
    for i in 0..lines.len() {
        gather_line(&mut gathered, &mut buffer, catalog, lines, i)?;
        write_piece(&mut gathered, out)?;
    }
    write_whole(out, gathered.as_bytes())
}

// Appends the text of a note.
fn gather_note(text: &mut String, note: &Note) -> Result<(), WriteFail>
    ensures text { OnOk result
        (string_bytes text.new ≡ string_bytes text.old ++ note_text note.now) }
    ensures not_failed { IsErrOf result WriteFail.Failed → ⊥ }
{
    push_note_line(text, note).map_err(|_error| WriteFail::Memory)
}

/// Writes the notes of passed thresholds in order, each as a line: the thread, the number of the set, the event's index in it
/// and the program counter. After an error a prefix of this text is written.
#[tactic(auto, unfolding(crate::specs::Replies::notes_text))]
pub fn write_notes<K: Sink>(alloc: Global, notes: &[Note], out: &mut K) -> Result<(), WriteFail>
    ensures ok { OnOk result (K.taken out.new ≡ appended (K.taken out.old) (notes_text notes.now)) }
    ensures part { OnErr result
        (IsPartWritten (K.taken out.old) (K.taken out.new) (notes_text notes.now)) }
    ensures counted { CountsFaults result (K.faults out.old) (K.faults out.new) }
{
    let mut gathered = String::new(alloc);
    for note in notes {
        gather_note(&mut gathered, note)?;
        write_piece(&mut gathered, out)?;
    }
    write_whole(out, gathered.as_bytes())
}
