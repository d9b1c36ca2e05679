//! One line of a region script.

ghost use Rattle.std.specs.Prelude.{◌≡◌, ◌<◌, ◌^◌, IfOk, map, option_map};
ghost use Rattle.papi_base.specs.declared.limits.TheConstants.{THREADS};
ghost use Rattle.script_lines.specs.Answers.{Answers};
ghost use Rattle.region_report.specs.Kept.{count_of};
ghost use Rattle.region_report.specs.Lines as Lines;
ghost use Rattle.region_report.specs.Lines.{open_of};
ghost use Rattle.region_report.specs.Opens.{open_text};

use crate::fault::{RegionCause, refusal_of};
use crate::opened::{OpenRegion, OpenRegions};
use crate::regions::{MOST_LINES, MOST_OPEN_REGIONS, RegionCall, RegionLine};
use papi_base::Text;
use script_lines::{one_number, split_words, thread_in};
use std::alloc::Global;
use table_rows::{RowRefusal, name_text};

// The one name of these arguments.
#[tactic(auto, using(std::proofs::lemmas::Grind::common_steps))]
fn one_name(alloc: Global, arguments: &[&[u8]]) -> Result<Text, RowRefusal<RegionCause>>
    ensures { Answers result (Lines.one_name (map (λ w. w.now) arguments.now)) }
{
    let [name] = arguments else {
        return Err(RowRefusal::Cause(RegionCause::BadArguments));
    };
    match name_text(*name) {
        Some(name) => Ok(Text::copy_of(alloc, name)?),
        None => Err(RowRefusal::Cause(RegionCause::BadArguments)),
    }
}

// The reading at which the innermost open region began, which must have this name.
fn begun_of(opens: Option<&OpenRegion>, name: &Text) -> Result<usize, RowRefusal<RegionCause>>
    ensures { Answers result
        (Lines.begun_of (option_map (λ o. open_text o.now) opens.entry) name.now) }
{
    match opens {
        Some(opens) if opens.name.as_str() == name.as_str() => Ok(opens.begun),
        _ => Err(RowRefusal::Cause(RegionCause::WrongRegion)),
    }
}

// The name that begins a region, if its thread has not too many regions open.
fn begun_name(
    alloc: Global,
    opens: &OpenRegions,
    thread: u32,
    arguments: &[&[u8]],
) -> Result<Text, RowRefusal<RegionCause>>
    requires { thread < THREADS }
    ensures { Answers result
        (Lines.begun_name (open_of opens.now thread) (map (λ w. w.now) arguments.now)) }
{
    if opens.count(thread) >= MOST_OPEN_REGIONS {
        return Err(RowRefusal::Cause(RegionCause::OverLimit));
    }
    one_name(alloc, arguments)
}

// The name of the innermost open region, which these arguments must be, and the reading at which it began.
fn innermost_name(
    alloc: Global,
    opens: Option<&OpenRegion>,
    arguments: &[&[u8]],
) -> Result<(Text, usize), RowRefusal<RegionCause>>
    ensures { Answers result
        (Lines.innermost_name (option_map (λ o. open_text o.now) opens.entry)
        (map (λ w. w.now) arguments.now)) }
{
    let name = one_name(alloc, arguments)?;
    let begun = begun_of(opens, &name)?;
    Ok((name, begun))
}

// The call of a word and its arguments, and the reading at which its region begins or began.
fn region_call(
    alloc: Global,
    readings: usize,
    opens: &OpenRegions,
    thread: u32,
    word: &[u8],
    arguments: &[&[u8]],
) -> Result<(RegionCall, usize), RowRefusal<RegionCause>>
    requires { thread < THREADS }
    ensures call { Answers result
        (Lines.region_call readings (open_of opens.now thread) word.now
        (map (λ w. w.now) arguments.now)) }
    ensures count { IfOk result (λ called. count_of called.0 < 2 ^ 32) }
{
    if word == b"begin".as_slice() {
        let name = begun_name(alloc, opens, thread, arguments)?;
        return Ok((RegionCall::Begin { name }, readings));
    }
    if word == b"read".as_slice() {
        let (name, begun) = innermost_name(alloc, opens.innermost(thread), arguments)?;
        return Ok((RegionCall::Read { name }, begun));
    }
    if word == b"end".as_slice() {
        let (name, begun) = innermost_name(alloc, opens.innermost(thread), arguments)?;
        return Ok((RegionCall::End { name }, begun));
    }
    if word == b"run".as_slice() {
        let count = one_number(arguments).map_err(refusal_of)?;
        return Ok((RegionCall::Run { count }, readings));
    }
    Err(RowRefusal::Cause(RegionCause::UnknownCall))
}

// The line of the words after its thread.
#[tactic(auto, using(std::proofs::lemmas::Grind::common_steps))]
fn line_of_thread(
    alloc: Global,
    number: u64,
    readings: usize,
    opens: &OpenRegions,
    thread: u32,
    words: &[&[u8]],
) -> Result<RegionLine, RowRefusal<RegionCause>>
    requires { thread < THREADS }
    ensures line { Answers result
        (Lines.line_of_thread number readings opens.now thread (map (λ w. w.now) words.now)) }
    ensures same { IfOk result (λ line. line.thread ≡ thread) }
    ensures count { IfOk result (λ line. count_of line.call < 2 ^ 32) }
{
    let [word, arguments @ ..] = words else {
        return Err(RowRefusal::Cause(RegionCause::UnknownCall));
    };
    let (call, begun) = region_call(alloc, readings, opens, thread, *word, arguments)?;
    Ok(RegionLine {
        line: number,
        thread,
        call,
        begun,
    })
}

// The line of some words.
#[tactic(auto, using(std::proofs::lemmas::Grind::common_steps))]
fn line_of_words(
    alloc: Global,
    number: u64,
    readings: usize,
    opens: &OpenRegions,
    words: &[&[u8]],
) -> Result<RegionLine, RowRefusal<RegionCause>>
    ensures line { Answers result
        (Lines.line_of_words number readings opens.now (map (λ w. w.now) words.now)) }
    ensures thread { IfOk result (λ line. line.thread < THREADS) }
    ensures count { IfOk result (λ line. count_of line.call < 2 ^ 32) }
{
    let [thread, words @ ..] = words else {
        return Err(RowRefusal::Cause(RegionCause::BadThread));
    };
    let thread = thread_in(*thread).map_err(refusal_of)?;
    line_of_thread(alloc, number, readings, opens, thread, words)
}

// The line of this number, after n lines and m readings, with these regions open.
#[tactic(auto, unfolding(crate::specs::Lines::region_line))]
pub(crate) fn region_line(
    alloc: Global,
    number: u64,
    above: usize,
    readings: usize,
    opens: &OpenRegions,
    line: &[u8],
) -> Result<RegionLine, RowRefusal<RegionCause>>
    ensures line { Answers result (Lines.region_line number above readings opens.now line.now) }
    ensures few { IfOk result (λ line. (above < MOST_LINES) × (line.thread < THREADS)) }
    ensures count { IfOk result (λ line. count_of line.call < 2 ^ 32) }
{
    if above >= MOST_LINES {
        return Err(RowRefusal::Cause(RegionCause::OverLimit));
    }
    let words = split_words(alloc, line)?;
    line_of_words(alloc, number, readings, opens, words.as_slice())
}
