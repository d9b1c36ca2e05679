//! The line of a note.

ghost use Rattle.std.specs.Prelude.{◌≡◌, ◌++◌, ◌∷◌, [], OnOk, decimal, codes, false, string_bytes};
ghost use Rattle.std.specs.Fmt.{digits};
ghost use Rattle.tool_output.specs.Notes.{note_text};

use overflow_dispatch::Note;
use std::alloc::AllocError;
use std::fmt::Write;

/// Appends the line of a passed threshold: `note`, the thread, the number of the set, the event's index in it and the program
/// counter in hexadecimal, with single spaces between them, and a newline.
///
/// If memory is refused, it is open how much of the line is appended.
pub fn push_note_line(text: &mut String, note: &Note) -> Result<(), AllocError>
    ensures text { OnOk result
        (string_bytes text.new ≡ string_bytes text.old ++ note_text note.now) }
{
    let Note {
        thread,
        set,
        index,
        pc,
    } = *note;
    writeln!(text, "note {thread} {set} {index} 0x{pc:x}")
}
