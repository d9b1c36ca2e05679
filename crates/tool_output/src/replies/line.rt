//! The line of a reply.

ghost use Rattle.std.specs.Prelude.{◌≡◌, ◌≤◌, ◌++◌, OnOk, length, string_bytes};
ghost use Rattle.component_table.specs.Catalogs.{CatalogView};
ghost use Rattle.papi_base.specs.declared.limits.TheConstants.{MOST_SET_EVENTS};
ghost use Rattle.session_model.specs.declared.reply.Body.TheVariants as body;
ghost use Rattle.session_model.specs.Replies.{plain};
ghost use Rattle.tool_output.specs.Replies.{line_text, reply_text};

use crate::replies::heads::{HEAD_PARTS, write_code, write_count, write_head};
use crate::replies::numbers::push_from;
use crate::replies::results::push_results;
use crate::replies::values::{LONGEST_LIST, LONGEST_VALUE, listed, write_values};
use call_type::CallName;
use component_table::Catalog;
use papi_base::Code;
use session_model::{Body, Ran, Reply};
use std::alloc::AllocError;

/// The bytes of the longest line of values, with its newline.
const LONGEST_LINE: usize = HEAD_PARTS * LONGEST_VALUE + LONGEST_LIST + 1;

/// Room for one line, which is gathered from its end on. Each line of a script can be gathered in the same room.
#[derive(Drop)]
pub struct LineBuffer {
    bytes: [u8; LONGEST_LINE],
}

impl LineBuffer {
    /// Room for a line.
    pub fn new() -> LineBuffer {
        LineBuffer {
            bytes: [b'\n'; LONGEST_LINE],
        }
    }
}

/// Appends the line of a reply of values: what [`push_reply_line`] appends for it.
///
/// If memory is refused, it is open how much of the line is appended.
pub fn push_values_line(
    text: &mut String,
    buffer: &mut LineBuffer,
    line: u64,
    thread: u32,
    word: CallName,
    code: Code,
    values: &[i64],
) -> Result<(), AllocError>
    requires few { length values.now ≤ MOST_SET_EVENTS }
    ensures text { (catalog : CatalogView) → OnOk result
        (string_bytes text.new ≡ string_bytes text.old
        ++ line_text catalog line thread word
        (record { code = code; body = body.Values values.now })) }
{
    buffer.bytes[LONGEST_LINE - 1] = b'\n';
    let at = write_values(values, &mut buffer.bytes, LONGEST_LINE - 1);
    let start = write_head(line, thread, word, code, &mut buffer.bytes, at);
    push_from(text, &buffer.bytes, start)
}

/// Appends the line of a reply that is the code alone: what [`push_reply_line`] appends for it.
///
/// If memory is refused, it is open how much of the line is appended.
pub fn push_plain_line(
    text: &mut String,
    buffer: &mut LineBuffer,
    line: u64,
    thread: u32,
    word: CallName,
    code: Code,
) -> Result<(), AllocError>
    ensures text { (catalog : CatalogView) → OnOk result
        (string_bytes text.new ≡ string_bytes text.old
        ++ line_text catalog line thread word (plain code)) }
{
    buffer.bytes[LONGEST_LINE - 1] = b'\n';
    let start = write_head(
        line,
        thread,
        word,
        code,
        &mut buffer.bytes,
        LONGEST_LINE - 1,
    );
    push_from(text, &buffer.bytes, start)
}

/// Appends the line of the reply of a run: what [`push_reply_line`] appends for it.
///
/// If memory is refused, it is open how much of the line is appended.
pub fn push_ran_line(
    text: &mut String,
    buffer: &mut LineBuffer,
    line: u64,
    thread: u32,
    word: CallName,
    code: Code,
    ran: &Ran,
) -> Result<(), AllocError>
    ensures text { (catalog : CatalogView) → OnOk result
        (string_bytes text.new ≡ string_bytes text.old
        ++ line_text catalog line thread word
        (record { code = code; body = body.Ran ran.now })) }
{
    buffer.bytes[LONGEST_LINE - 1] = b'\n';
    let notes_at = write_count(ran.notes, &mut buffer.bytes, LONGEST_LINE - 1);
    let at = write_count(u64::from(ran.consumed), &mut buffer.bytes, notes_at);
    let start = write_head(line, thread, word, code, &mut buffer.bytes, at);
    push_from(text, &buffer.bytes, start)
}

/// Appends the name of a reply's code and its results, each after a space.
///
/// If memory is refused, it is open how much of it is appended.
pub fn push_reply(text: &mut String, catalog: &Catalog, reply: &Reply) -> Result<(), AllocError>
    ensures text { OnOk result
        (string_bytes text.new ≡ string_bytes text.old ++ reply_text catalog.now reply.now) }
{
    let mut bytes = [0; LONGEST_VALUE];
    let start = write_code(reply.code, &mut bytes, LONGEST_VALUE);
    push_from(text, &bytes, start)?;
    push_results(text, catalog, &reply.body)?;
    Ok(())
}

// Appends the line of a reply, its results one after another.
fn push_results_line(
    text: &mut String,
    catalog: &Catalog,
    line: u64,
    thread: u32,
    word: CallName,
    reply: &Reply,
) -> Result<(), AllocError>
    ensures text { OnOk result
        (string_bytes text.new ≡ string_bytes text.old
        ++ line_text catalog.now line thread word reply.now) }
{
    let mut buffer = LineBuffer::new();
    let start = write_head(
        line,
        thread,
        word,
        reply.code,
        &mut buffer.bytes,
        LONGEST_LINE,
    );
    push_from(text, &buffer.bytes, start)?;
    push_results(text, catalog, &reply.body)?;
    text.push_str("\n")?;
    Ok(())
}

/// Appends the line of a reply: the number of the script's line, the thread, the word of the call, the code's name and the
/// results, with single spaces between them, and a newline.
///
/// If memory is refused, it is open how much of the line is appended.
pub fn push_reply_line(
    text: &mut String,
    catalog: &Catalog,
    line: u64,
    thread: u32,
    word: CallName,
    reply: &Reply,
) -> Result<(), AllocError>
    ensures text { OnOk result
        (string_bytes text.new ≡ string_bytes text.old
        ++ line_text catalog.now line thread word reply.now) }
{
    let mut buffer = LineBuffer::new();
    match &reply.body {
        Body::Values(values) => {
            let items = listed(values);
            let values = &items[..values.len() as usize];
            push_values_line(text, &mut buffer, line, thread, word, reply.code, values)
        }
        Body::Nothing => push_plain_line(text, &mut buffer, line, thread, word, reply.code),
        Body::Ran(ran) => push_ran_line(text, &mut buffer, line, thread, word, reply.code, ran),
        _ => push_results_line(text, catalog, line, thread, word, reply),
    }
}
