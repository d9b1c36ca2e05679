//! The arguments of a call.

ghost use Rattle.std.specs.Prelude.{◌≡◌, [], ◌∷◌, map};
ghost use Rattle.script_lines.specs.Arguments as Arguments;
ghost use Rattle.script_lines.specs.Answers.{made_of};

use crate::fault::ScriptCause;
use table_rows::{decimal_in, hex_in, printable_text};

// The number of 32 bits that a word is, in decimal without leading zeros.
fn number_in(word: &[u8]) -> Result<u32, ScriptCause>
    ensures { result ≡ Arguments.number_in word.now }
{
    match decimal_in(0, 4_294_967_295, word) {
        Some(number) => Ok(number as u32),
        None => Err(ScriptCause::BadNumber),
    }
}

// The number of 64 bits that a word is, in decimal without leading zeros.
fn threshold_in(word: &[u8]) -> Result<u64, ScriptCause>
    ensures { result ≡ Arguments.threshold_in word.now }
{
    match decimal_in(0, u64::MAX, word) {
        Some(number) => Ok(number),
        None => Err(ScriptCause::BadNumber),
    }
}

// The code that a word writes: `0x` and one to eight hexadecimal digits, in either case.
fn code_in(word: &[u8]) -> Result<u32, ScriptCause>
    ensures { result ≡ Arguments.code_in word.now }
{
    if word.len() < 2 || word[0] != b'0' || word[1] != b'x' {
        return Err(ScriptCause::BadNumber);
    }
    match hex_in(1, 8, &word[2..]) {
        Some(code) => Ok(code as u32),
        None => Err(ScriptCause::BadNumber),
    }
}

// No argument.
pub(crate) fn nothing(arguments: &[&[u8]]) -> Result<(), ScriptCause>
    ensures { result ≡ Arguments.nothing (map (λ w. w.now) arguments.now) }
{
    match arguments {
        [] => Ok(()),
        _ => Err(ScriptCause::BadArguments),
    }
}

/// One number of 32 bits.
pub fn one_number(arguments: &[&[u8]]) -> Result<u32, ScriptCause>
    ensures { result ≡ Arguments.one_number (map (λ w. w.now) arguments.now) }
{
    match arguments {
        [number] => number_in(*number),
        _ => Err(ScriptCause::BadArguments),
    }
}

// Two numbers.
#[tactic(auto, using(std::proofs::lemmas::Grind::common_steps))]
pub(crate) fn two_numbers(arguments: &[&[u8]]) -> Result<(u32, u32), ScriptCause>
    ensures { result ≡ Arguments.two_numbers (map (λ w. w.now) arguments.now) }
{
    match arguments {
        [first, second] => Ok((number_in(*first)?, number_in(*second)?)),
        _ => Err(ScriptCause::BadArguments),
    }
}

// One code.
pub(crate) fn one_code(arguments: &[&[u8]]) -> Result<u32, ScriptCause>
    ensures { result ≡ Arguments.one_code (map (λ w. w.now) arguments.now) }
{
    match arguments {
        [code] => code_in(*code),
        _ => Err(ScriptCause::BadArguments),
    }
}

// An event, of printable bytes alone.
fn event_in(word: &[u8]) -> Result<&str, ScriptCause>
    ensures { made_of (λ e. e.now) result ≡ Arguments.one_event (word.now ∷ []) }
{
    match printable_text(word) {
        Some(event) => Ok(event),
        None => Err(ScriptCause::BadArguments),
    }
}

// One event.
pub(crate) fn one_event<'a>(arguments: &[&'a [u8]]) -> Result<&'a str, ScriptCause>
    ensures { made_of (λ e. e.now) result
        ≡ Arguments.one_event (map (λ w. w.now) arguments.entry.now) }
{
    match arguments {
        [event] => event_in(*event),
        _ => Err(ScriptCause::BadArguments),
    }
}

// The number of a set, and an event.
#[tactic(auto, using(std::proofs::lemmas::Grind::common_steps))]
pub(crate) fn set_and_event<'a>(arguments: &[&'a [u8]]) -> Result<(u32, &'a str), ScriptCause>
    ensures { made_of (λ p. (p.0, p.1.now)) result
        ≡ Arguments.set_and_event (map (λ w. w.now) arguments.entry.now) }
{
    let [set, event] = arguments else {
        return Err(ScriptCause::BadArguments);
    };
    let event = event_in(*event)?;
    Ok((number_in(*set)?, event))
}

// The number of a set, an event and a threshold.
#[tactic(auto, using(std::proofs::lemmas::Grind::common_steps))]
pub(crate) fn set_event_and_threshold<'a>(
    arguments: &[&'a [u8]],
) -> Result<(u32, &'a str, u64), ScriptCause>
    ensures { made_of (λ p. (p.0, p.1.now, p.2)) result
        ≡ Arguments.set_event_and_threshold (map (λ w. w.now) arguments.entry.now) }
{
    let [set, event, threshold] = arguments else {
        return Err(ScriptCause::BadArguments);
    };
    let event = event_in(*event)?;
    Ok((number_in(*set)?, event, threshold_in(*threshold)?))
}
