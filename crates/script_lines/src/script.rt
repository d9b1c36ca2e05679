//! A whole script.

ghost use Rattle.std.specs.Prelude.{◌≡◌};
ghost use Rattle.script_lines.specs.Kept.{IsScript};
ghost use Rattle.script_lines.specs.Scripts.{ReadsScript};

use crate::fault::{ScriptFault, fault_at};
use crate::line::{call_line, cut_line, is_skipped};
use crate::short::short_line;
use call_type::Asked;
use papi_base::Text;
use std::alloc::Global;
use std::marker::Model;

/// How many call lines a script has at most.
pub const MOST_CALLS: usize = 100_000;

/// What a line asks for, with its event as it is written.
pub type Written = Asked<Text, Text, u32>;

/// A line that asks a call of a thread, with its number in the script, from 1.
#[derive(Drop)]
pub struct ScriptLine {
    pub line: u64,
    pub thread: u32,
    pub call: Written,
}

/// The call lines of a script in order, which contracts see as their list. There are at most `MOST_CALLS`, each of a thread below `THREADS`.
#[derive(Drop)]
pub struct Script {
    lines: Vec<ScriptLine>,
}

impl Model for Script {
    ghost use Rattle.std.specs.Prelude.{List};
    ghost use Rattle.script_lines.specs.declared.script.ScriptLine.{ScriptLine};
    ghost use Rattle.script_lines.specs.Kept.{IsScript};

    ghost Value = { List ScriptLine };

    ghost view = { λ s. s.lines.items };

    ghost invariant = { λ s. IsScript s.lines.items };
}

impl Script {
    /// The call lines.
    pub fn lines(&self) -> &[ScriptLine]
        ensures lines { result.now ≡ self.now }
        ensures kept { IsScript self.now }
    {
        self.lines.as_slice()
    }
}

/// The script of some bytes, or its first line that is not a call line, with the first cause that it has.
///
/// Lines end in a newline, the last one need not; a carriage return before a newline is dropped. Empty lines and lines that begin
/// with `#` are passed over, and numbered. Each other line has words between spaces and tabs: a thread, a call and its arguments.
pub fn read_script(alloc: Global, bytes: &[u8]) -> Result<Script, ScriptFault>
    ensures { ReadsScript result bytes.now }
{
    let mut lines = Vec::new(alloc);
    let mut rest = bytes;
    let mut number = 0;
    while rest.len() > 0 {
        number += 1;
        let above = lines.len();
        if let Some(short) = short_line(number, above, rest) {
            rest = &rest[short.size..];
            lines.push(short.line)?;
            continue;
        }
        let (line, after) = cut_line(rest);
        rest = after;
        if !is_skipped(line) {
            match call_line(alloc, number, above, line) {
                Ok(line) => lines.push(line)?,
                Err(refusal) => return Err(fault_at(number, refusal)),
            }
        }
    }
    Ok(Script { lines })
}
