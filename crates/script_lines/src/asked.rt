//! The call that a word names, with its arguments.

ghost use Rattle.std.specs.Prelude.{◌≡◌, IfSome, None, map};
ghost use Rattle.call_type.specs.CallNames.{word_of};
ghost use Rattle.script_lines.specs.Answers.{Answers};
ghost use Rattle.script_lines.specs.Calls as Calls;

use crate::arguments::{
    nothing, one_code, one_event, one_number, set_and_event, set_event_and_threshold, two_numbers,
};
use crate::fault::ScriptCause;
use crate::script::Written;
use call_type::{Asked, Call, CallName, call_word};
use papi_base::Text;
use std::alloc::Global;
use table_rows::RowRefusal;

// The names of all calls, in the order of the table of calls.
// tools/make_calls: begin names
const NAMES: [CallName; 24] = [
    CallName::Register,
    CallName::Unregister,
    CallName::Threads,
    CallName::Create,
    CallName::Destroy,
    CallName::Cleanup,
    CallName::Add,
    CallName::Remove,
    CallName::Component,
    CallName::Domain,
    CallName::Multiplex,
    CallName::Overflow,
    CallName::Start,
    CallName::Stop,
    CallName::Read,
    CallName::Accum,
    CallName::Reset,
    CallName::State,
    CallName::Events,
    CallName::Assign,
    CallName::Raw,
    CallName::Run,
    CallName::Code,
    CallName::Name,
];
// tools/make_calls: end

// The calls that long scripts repeat.
const FREQUENT: [CallName; 3] = [CallName::Read, CallName::Accum, CallName::Run];

// The name that a word is, if it is one of those.
fn frequent_name(word: &[u8]) -> Option<CallName>
    ensures { IfSome result (λ name. word_of name ≡ word.now) }
{
    for name in &FREQUENT {
        if call_word(*name).as_bytes() == word {
            return Some(*name);
        }
    }
    None
}

// The name that a word is, looked for among all.
fn any_name(word: &[u8]) -> Option<CallName>
    ensures named { IfSome result (λ name. word_of name ≡ word.now) }
    ensures unknown { result ≡ None → Calls.form_of word.now Calls.call_rows ≡ None }
{
    for name in &NAMES {
        if call_word(*name).as_bytes() == word {
            return Some(*name);
        }
    }
    None
}

// The name that a word is, if it is one. Those that are repeated are looked for first.
fn name_in(word: &[u8]) -> Option<CallName>
    ensures named { IfSome result (λ name. word_of name ≡ word.now) }
    ensures unknown { result ≡ None → Calls.form_of word.now Calls.call_rows ≡ None }
{
    match frequent_name(word) {
        Some(name) => Some(name),
        None => any_name(word),
    }
}

// The call of a name that takes no event, with its arguments.
#[tactic(auto, unfolding(crate::specs::Calls::call_rows))]
fn eventless_call(name: CallName, arguments: &[&[u8]]) -> Result<Written, ScriptCause>
    requires { Calls.TakesNoEvent (Calls.form_of (word_of name) Calls.call_rows) }
    ensures { result ≡ Calls.call_of (word_of name) (map (λ w. w.now) arguments.now) }
{
    match name {
        // tools/make_calls: begin arms
        CallName::Register => nothing(arguments).map(|_none| Asked::Call(Call::Register)),
        CallName::Unregister => nothing(arguments).map(|_none| Asked::Call(Call::Unregister)),
        CallName::Threads => nothing(arguments).map(|_none| Asked::Threads),
        CallName::Create => nothing(arguments).map(|_none| Asked::Call(Call::Create)),
        CallName::Destroy => one_number(arguments).map(|set| Asked::Call(Call::Destroy { set })),
        CallName::Cleanup => one_number(arguments).map(|set| Asked::Call(Call::Cleanup { set })),
        CallName::Component => {
            two_numbers(arguments).map(|(set, comp)| Asked::Call(Call::AssignComponent {
                set,
                comp,
            }))
        }
        CallName::Domain => {
            two_numbers(arguments).map(|(set, bits)| Asked::Call(Call::SetDomain { set, bits }))
        }
        CallName::Multiplex => {
            two_numbers(arguments).map(|(set, slice)| Asked::Call(Call::SetMultiplex {
                set,
                slice,
            }))
        }
        CallName::Start => one_number(arguments).map(|set| Asked::Call(Call::Start { set })),
        CallName::Stop => one_number(arguments).map(|set| Asked::Call(Call::Stop { set })),
        CallName::Read => one_number(arguments).map(|set| Asked::Call(Call::Read { set })),
        CallName::Accum => one_number(arguments).map(|set| Asked::Call(Call::Accum { set })),
        CallName::Reset => one_number(arguments).map(|set| Asked::Call(Call::Reset { set })),
        CallName::State => one_number(arguments).map(|set| Asked::Call(Call::State { set })),
        CallName::Events => one_number(arguments).map(|set| Asked::Call(Call::ListEvents { set })),
        CallName::Assign => one_number(arguments).map(|set| Asked::Call(Call::Assign { set })),
        CallName::Raw => {
            two_numbers(arguments).map(|(set, c)| Asked::Call(Call::Raw { set, c }))
        }
        CallName::Run => one_number(arguments).map(|n| Asked::Call(Call::Run { n })),
        CallName::Name => one_code(arguments).map(|code| Asked::NameOf(code)),
        // tools/make_calls: end
        _ => unreachable!(),
    }
}

// The call of a name with its arguments.
#[tactic(auto, unfolding(crate::specs::Calls::call_rows))]
fn call_with(
    alloc: Global,
    name: CallName,
    arguments: &[&[u8]],
) -> Result<Written, RowRefusal<ScriptCause>>
    ensures { Answers result (Calls.call_of (word_of name) (map (λ w. w.now) arguments.now)) }
{
    match name {
        // tools/make_calls: begin events
        CallName::Add => {
            let (set, event) = set_and_event(arguments)?;
            let e = Text::copy_of(alloc, event)?;
            Ok(Asked::Call(Call::Add { set, e }))
        }
        CallName::Remove => {
            let (set, event) = set_and_event(arguments)?;
            let e = Text::copy_of(alloc, event)?;
            Ok(Asked::Call(Call::Remove { set, e }))
        }
        CallName::Overflow => {
            let (set, event, t) = set_event_and_threshold(arguments)?;
            let e = Text::copy_of(alloc, event)?;
            Ok(Asked::Call(Call::Overflow { set, e, t }))
        }
        CallName::Code => {
            let event = Text::copy_of(alloc, one_event(arguments)?)?;
            Ok(Asked::CodeOf(event))
        }
        // tools/make_calls: end
        _ => Ok(eventless_call(name, arguments)?),
    }
}

// The call of a word and its arguments.
pub(crate) fn call_of(
    alloc: Global,
    word: &[u8],
    arguments: &[&[u8]],
) -> Result<Written, RowRefusal<ScriptCause>>
    ensures { Answers result (Calls.call_of word.now (map (λ w. w.now) arguments.now)) }
{
    match name_in(word) {
        Some(name) => call_with(alloc, name, arguments),
        None => Err(RowRefusal::Cause(ScriptCause::UnknownCall)),
    }
}
