//! Lines of the form that long scripts repeat: a thread, a call and a number, with a space between them and a newline after them.

ghost use Rattle.std.specs.Prelude.{◌≡◌, ◌<◌, IfSome, length, take, true};
ghost use Rattle.std.specs.List.{list_all};
ghost use Rattle.std.specs.Str.Parse.{digits_value};
ghost use Rattle.table_rows.specs.Texts.{is_digit};
ghost use Rattle.script_lines.specs.ShortLines as ShortLines;

use crate::script::{MOST_CALLS, ScriptLine, Written};
use call_type::{Asked, Call};
use papi_base::THREADS;

/// A call of one number that long scripts repeat.
#[derive(Clone, Copy)]
pub(crate) enum Repeated {
    Read,
    Accum,
    Run,
}

// A number at the beginning of some bytes, and how many digits it has.
#[derive(Clone, Copy)]
struct Numeral {
    size: usize,
    value: u32,
}

// A word at the beginning of some bytes, and how many bytes it has with the spaces around it.
#[derive(Clone, Copy)]
struct Word {
    size: usize,
    name: Repeated,
}

/// A line at the beginning of some bytes, and how many bytes it has with its newline.
#[derive(Drop)]
pub(crate) struct ShortLine {
    pub(crate) size: usize,
    pub(crate) line: ScriptLine,
}

// A number that is as large takes no digit more, with which it might need more than 32 bits.
const LARGE: u32 = 400_000_000;

// The number of some first digits, if it has no leading zeros.
#[inline(always)]
fn numeral_of(bytes: &[u8], size: usize, value: u32) -> Option<Numeral>
    requires inside { size < length bytes.now }
    requires digits { list_all is_digit (take size bytes.now) ≡ true }
    requires value { value ≡ digits_value 10 (take size bytes.now) }
    ensures { IfSome result (λ n. ShortLines.BeginsWithNumber bytes.now n.size n.value) }
{
    if size == 0 || (size != 1 && bytes[0] == b'0') {
        return None;
    }
    Some(Numeral { size, value })
}

// The number that some bytes begin with. Of a long one the first digits are taken alone.
#[inline(always)]
fn numeral_in(bytes: &[u8]) -> Option<Numeral>
    ensures { IfSome result (λ n. ShortLines.BeginsWithNumber bytes.now n.size n.value) }
{
    let mut value: u32 = 0;
    for i in 0..bytes.len() {
        let byte = bytes[i];
        if byte < b'0' || b'9' < byte || value >= LARGE {
            return numeral_of(bytes, i, value);
        }
        value = value * 10 + u32::from(byte - b'0');
    }
    None
}

// The word that some bytes begin with, between spaces.
#[inline(always)]
fn word_in(bytes: &[u8]) -> Option<Word>
    ensures { IfSome result (λ w. ShortLines.BeginsWithWord bytes.now w.size w.name) }
{
    if bytes.starts_with(b" read ") {
        return Some(Word {
            size: 6,
            name: Repeated::Read,
        });
    }
    if bytes.starts_with(b" accum ") {
        return Some(Word {
            size: 7,
            name: Repeated::Accum,
        });
    }
    if bytes.starts_with(b" run ") {
        return Some(Word {
            size: 5,
            name: Repeated::Run,
        });
    }
    None
}

// The call of a number.
#[inline(always)]
fn call_of(name: Repeated, number: u32) -> Written
    ensures { result ≡ ShortLines.call_of name number }
{
    match name {
        Repeated::Read => Asked::Call(Call::Read { set: number }),
        Repeated::Accum => Asked::Call(Call::Accum { set: number }),
        Repeated::Run => Asked::Call(Call::Run { n: number }),
    }
}

/// The line of this number that some bytes begin with, after n call lines, if it has this form. Any other line gives `None`.
#[inline(always)]
pub(crate) fn short_line(number: u64, above: usize, bytes: &[u8]) -> Option<ShortLine>
    ensures { IfSome result
        (λ s. ShortLines.BeginsWithLine number above bytes.now s.size s.line) }
{
    if above >= MOST_CALLS {
        return None;
    }
    let thread = numeral_in(bytes)?;
    if thread.value >= THREADS {
        return None;
    }
    let called = &bytes[thread.size..];
    let word = word_in(called)?;
    let argument = &called[word.size..];
    let value = numeral_in(argument)?;
    if argument[value.size] != b'\n' {
        return None;
    }
    Some(ShortLine {
        size: thread.size + word.size + value.size + 1,
        line: ScriptLine {
            line: number,
            thread: thread.value,
            call: call_of(word.name, value.value),
        },
    })
}
