//! What a tool writes on standard output.
ghost use Rattle.std.specs.Prelude.{◌≡◌, ◌≤◌, ◌++◌, ℕ, length, take, OnOk, OnErr};
ghost use Rattle.papi_base.specs.Outside.{CountsFaults, appended};
ghost use Rattle.script_runner.specs.Replies.{notes_text, replies_text};

use component_table::Catalog;
use overflow_dispatch::Note;
use papi_base::{Bytes, Sink, WriteFail, write_whole};
use script_runner::{write_notes, write_replies};
use std::alloc::Global;
use std::marker::Model;
use thread_registry::ReplyLines;

#[derive(Drop)]
enum Content {
    Text(Bytes),
    Replies(ReplyLines, Catalog, Vec<Note>),
}

/// What a tool writes on standard output: a text, or replies and the notes after them, which are made into text as they
/// are written. Contracts see the bytes.
#[derive(Drop)]
pub struct Output {
    content: Content,
}

impl Model for Output {
    ghost use Rattle.std.specs.Prelude.{List, ℕ};
    ghost use Rattle.papi_tools.specs.Outputs.{content_bytes};

    ghost Value = { List ℕ };

    ghost view = { λ o. content_bytes o.content };
}

// Writes the replies, and then the notes. After an error a prefix of both is written.
fn write_both<K: Sink>(
    alloc: Global,
    lines: &ReplyLines,
    catalog: &Catalog,
    shown: &[Note],
    out: &mut K,
) -> Result<(), WriteFail>
    ensures ok { OnOk result
        (K.taken out.new ≡ appended (K.taken out.old)
        (replies_text catalog.now lines.now ++ notes_text shown.now)) }
    ensures part { OnErr result
        ((k : ℕ) × (k ≤ length (replies_text catalog.now lines.now ++ notes_text shown.now))
        × (K.taken out.new ≡ appended (K.taken out.old)
        (take k (replies_text catalog.now lines.now ++ notes_text shown.now)))) }
    ensures counted { CountsFaults result (K.faults out.old) (K.faults out.new) }
{
    write_replies(alloc, lines, catalog, out)?;
    write_notes(alloc, shown, out)?;
    Ok(())
}

impl Output {
    /// A text.
    pub fn text(text: Bytes) -> Output
        ensures { result ≡ text }
    {
        Output {
            content: Content::Text(text),
        }
    }

    /// The replies of a run, and the notes that are shown after them.
    pub fn replies(lines: ReplyLines, catalog: Catalog, shown: Vec<Note>) -> Output
        ensures { result ≡ replies_text catalog lines ++ notes_text shown.items }
    {
        Output {
            content: Content::Replies(lines, catalog, shown),
        }
    }

    /// Writes all of it in order. After an error a prefix of it is written.
    pub fn write<K: Sink>(&self, alloc: Global, out: &mut K) -> Result<(), WriteFail>
        ensures ok { OnOk result (K.taken out.new ≡ appended (K.taken out.old) self.now) }
        ensures part { OnErr result
            ((k : ℕ) × (k ≤ length self.now)
            × (K.taken out.new ≡ appended (K.taken out.old) (take k self.now))) }
        ensures counted { CountsFaults result (K.faults out.old) (K.faults out.new) }
    {
        match &self.content {
            Content::Text(text) => write_whole(out, text.as_slice()),
            Content::Replies(lines, catalog, shown) => write_both(
                alloc,
                lines,
                catalog,
                shown.as_slice(),
                out,
            ),
        }
    }
}
