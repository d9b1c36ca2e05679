//! One line of a script.

ghost use Rattle.std.specs.Prelude.{IfOk, ◌≡◌, ◌==◌, ◌≤◌, ◌<◌, ◌∷◌, length, position, map, option_map, Some, None, if◌then◌else◌};
ghost use Rattle.std.specs.Str.Lines.{lines, strip_carriage_return};
ghost use Rattle.script_lines.specs.Answers.{Answers};
ghost use Rattle.script_lines.specs.Lines as Lines;
ghost use Rattle.script_lines.specs.Words.{words_of};

use crate::asked::call_of;
use crate::fault::ScriptCause;
use crate::script::{MOST_CALLS, ScriptLine};
use crate::words::split_words;
use papi_base::THREADS;
use std::alloc::Global;
use table_rows::{RowRefusal, decimal_in};

// A line without the carriage return at its end.
fn without_return(line: &[u8]) -> &[u8]
    ensures { result.now ≡ strip_carriage_return line.now }
{
    let n = line.len();
    if n > 0 && line[n - 1] == b'\r' {
        return &line[..n - 1];
    }
    line
}

// The place of the first newline.
fn newline_in(bytes: &[u8]) -> Option<usize>
    ensures { result ≡ position (λ b. b == 10) bytes.now }
{
    bytes.iter().position(|b| *b == b'\n')
}

/// The first line of some bytes, and the bytes after its newline.
pub fn cut_line(bytes: &[u8]) -> (&[u8], &[u8])
    requires { 0 < length bytes.now }
    ensures line { lines bytes.now ≡ result.0.now ∷ lines result.1.now }
    ensures shorter { length result.1.now < length bytes.now }
{
    match newline_in(bytes) {
        Some(end) => (without_return(&bytes[..end]), &bytes[end + 1..]),
        None => (bytes, &[]),
    }
}

/// Whether a line is skipped: it is empty, or begins with `#`.
pub fn is_skipped(line: &[u8]) -> bool
    ensures { result ≡ Lines.is_skipped line.now }
{
    line.len() == 0 || line[0] == b'#'
}

/// The thread that a word names.
pub fn thread_in(word: &[u8]) -> Result<u32, ScriptCause>
    ensures thread { result ≡ Lines.thread_in word.now }
    ensures below { IfOk result (λ thread. thread < THREADS) }
{
    match decimal_in(0, u64::from(THREADS) - 1, word) {
        Some(thread) => Ok(thread as u32),
        None => Err(ScriptCause::BadThread),
    }
}

// The call line of the words after its thread.
fn line_of_call(
    alloc: Global,
    number: u64,
    thread: u32,
    words: &[&[u8]],
) -> Result<ScriptLine, RowRefusal<ScriptCause>>
    ensures line { Answers result (Lines.line_of_call number thread (map (λ w. w.now) words.now)) }
    ensures same { IfOk result (λ line. line.thread ≡ thread) }
{
    let [word, arguments @ ..] = words else {
        return Err(RowRefusal::Cause(ScriptCause::UnknownCall));
    };
    let call = call_of(alloc, *word, arguments)?;
    Ok(ScriptLine {
        line: number,
        thread,
        call,
    })
}

// The call line of some words.
fn line_of_words(
    alloc: Global,
    number: u64,
    words: &[&[u8]],
) -> Result<ScriptLine, RowRefusal<ScriptCause>>
    ensures line { Answers result (Lines.line_of_words number (map (λ w. w.now) words.now)) }
    ensures thread { IfOk result (λ line. line.thread < THREADS) }
{
    let [thread, words @ ..] = words else {
        return Err(RowRefusal::Cause(ScriptCause::BadThread));
    };
    line_of_call(alloc, number, thread_in(*thread)?, words)
}

// The call line of a number.
fn line_in(alloc: Global, number: u64, line: &[u8]) -> Result<ScriptLine, RowRefusal<ScriptCause>>
    ensures line { Answers result (Lines.line_of_words number (words_of line.now)) }
    ensures thread { IfOk result (λ line. line.thread < THREADS) }
{
    let words = split_words(alloc, line)?;
    line_of_words(alloc, number, words.as_slice())
}

// The call line of this number, after n call lines.
#[tactic(auto, unfolding(crate::specs::Lines::call_line))]
pub(crate) fn call_line(
    alloc: Global,
    number: u64,
    above: usize,
    line: &[u8],
) -> Result<ScriptLine, RowRefusal<ScriptCause>>
    ensures call { Answers result (Lines.call_line number above line.now) }
    ensures few { Lines.IsAllowed above result }
{
    if above >= MOST_CALLS {
        return Err(RowRefusal::Cause(ScriptCause::OverLimit));
    }
    line_in(alloc, number, line)
}
