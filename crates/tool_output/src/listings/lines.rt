//! Columns and lines.

ghost use Rattle.std.specs.Prelude.{◌≡◌, ◌++◌, OnOk, string_bytes};
ghost use Rattle.tool_output.specs.Lines as Lines;

use std::alloc::AllocError;
use std::fmt::Write;

/// Appends a text to the left of a column, filled with spaces up to the width.
pub(crate) fn push_column(text: &mut String, width: usize, field: &str) -> Result<(), AllocError>
    ensures { OnOk result (string_bytes text.new
        ≡ string_bytes text.old ++ Lines.column width field.now) }
{
    text.push_str(field)?;
    for _place in field.len()..width {
        text.push_str(" ")?;
    }
    Ok(())
}

/// Appends the lines of an event's name and code.
pub(crate) fn push_name_and_code(text: &mut String, name: &str, code: u64) -> Result<(), AllocError>
    ensures { OnOk result (string_bytes text.new
        ≡ string_bytes text.old ++ (Lines.name_line name.now ++ Lines.code_line code)) }
{
    writeln!(text, "Name: {name}")?;
    writeln!(text, "Code: 0x{code:x}")
}
