//! What the calls of a core answer, as replies.
ghost use Rattle.std.specs.Prelude.{◌≡◌, false};
ghost use Rattle.session_model.specs.Conditions.{IsGood};
ghost use Rattle.session_model.specs.Step.{code_of};
ghost use Rattle.call_type.specs.declared.call.Call.TheVariants as call;
ghost use Rattle.session_model.specs.declared.reply.Body.TheVariants as body;
ghost use Rattle.thread_core.specs.Following.{Follows, changed_reply, reply_of, values_reply};
ghost use Rattle.thread_core.specs.Stands.{AgreesWith};
ghost use Rattle.thread_session.specs.Follows.{is_run, run_reply};

use event_sets::Refusal;
use papi_base::{Code, Values};
use postfix_rules::PresetBook;
use session_model::{Body, Call, Ended, Ran, Reply};
use thread_core::Core;

/// A code alone.
#[inline(always)]
fn plain(code: Code) -> Reply
    ensures { result ≡ record { code = code; body = body.Nothing } }
{
    Reply {
        code,
        body: Body::Nothing,
    }
}

/// What is answered, or the code of the refusal.
#[inline(always)]
fn reply(answer: Result<Body, Code>) -> Reply
    ensures { result ≡ reply_of (λ body. body) answer }
{
    match answer {
        Ok(body) => Reply {
            code: Code::Ok,
            body,
        },
        Err(code) => plain(code),
    }
}

fn changed_reply(answer: Result<(), Refusal>) -> Reply
    ensures { result ≡ changed_reply answer }
{
    match answer {
        Ok(()) => plain(Code::Ok),
        Err(Refusal::Plain(code)) => plain(code),
        Err(Refusal::Conflict(clash)) => Reply {
            code: Code::Ecnflct,
            body: Body::Clash(clash),
        },
    }
}

/// The values if the code is OK.
#[inline(always)]
fn values_reply(code: Code, values: Values) -> Reply
    ensures { result ≡ values_reply code values }
{
    match code {
        Code::Ok => Reply {
            code,
            body: Body::Values(values),
        },
        _ => plain(code),
    }
}

/// The code of a run.
#[inline(always)]
pub(crate) fn code_of(ended: Ended) -> Code
    ensures { result ≡ code_of ended }
{
    match ended {
        Ended::Going => Code::Ok,
        Ended::Bad { .. } | Ended::Fault => Code::Esys,
    }
}

/// What a run did.
#[inline(always)]
pub(crate) fn run_reply(ran: Ran) -> Reply
    ensures { result ≡ run_reply ran }
{
    Reply {
        code: code_of(ran.ended),
        body: Body::Ran(ran),
    }
}

/// Stops a set.
#[inline(always)]
fn stop(core: &mut Core, book: &PresetBook, set: u32) -> Reply
    requires agrees { AgreesWith book.now core.old }
    ensures { Follows book.now core.old core.new (call.Stop set) result }
{
    let mut values = Values::new();
    let code = core.stop(book, set, &mut values);
    values_reply(code, values)
}

/// Reads a set.
#[inline(always)]
fn read(core: &Core, book: &PresetBook, set: u32) -> Reply
    requires agrees { AgreesWith book.now core.now }
    ensures { Follows book.now core.now core.now (call.Read set) result }
{
    let mut values = Values::new();
    let code = core.read(book, set, &mut values);
    values_reply(code, values)
}

/// Adds the values of a set to the caller's.
#[inline(always)]
fn accum(core: &mut Core, book: &PresetBook, set: u32) -> Reply
    requires agrees { AgreesWith book.now core.old }
    ensures { Follows book.now core.old core.new (call.Accum set) result }
{
    let mut values = Values::new();
    let code = core.accum(book, set, &mut values);
    values_reply(code, values)
}

/// Makes a call that is not a run.
#[inline(always)]
pub(crate) fn make(core: &mut Core, book: &PresetBook, c: &Call) -> Reply
    requires agrees { AgreesWith book.now core.old }
    requires good { IsGood book.now core.old.shape c.now }
    requires still { is_run c.now ≡ false }
    ensures { Follows book.now core.old core.new c.now result }
{
    match c {
        // tools/make_calls: begin
        Call::Register => plain(core.register(book)),
        Call::Unregister => plain(core.unregister(book)),
        Call::Create => reply(core.create(book).map(Body::SetNumber)),
        Call::Destroy { set } => plain(core.destroy(book, *set)),
        Call::Cleanup { set } => plain(core.cleanup(book, *set)),
        Call::Add { set, e } => changed_reply(core.add(book, *set, e)),
        Call::Remove { set, e } => plain(core.remove(book, *set, e)),
        Call::AssignComponent { set, comp } => plain(core.assign_component(book, *set, *comp)),
        Call::SetDomain { set, bits } => plain(core.set_domain(book, *set, *bits)),
        Call::SetMultiplex { set, slice } => plain(core.set_multiplex(book, *set, *slice)),
        Call::Overflow { set, e, t } => plain(core.overflow(book, *set, e, *t)),
        Call::Start { set } => plain(core.start(book, *set)),
        Call::Stop { set } => stop(core, book, *set),
        Call::Read { set } => read(core, book, *set),
        Call::Accum { set } => accum(core, book, *set),
        Call::Reset { set } => plain(core.reset(book, *set)),
        Call::State { set } => reply(core.state(book, *set).map(Body::State)),
        Call::ListEvents { set } => reply(core.list_events(book, *set).map(Body::Events)),
        Call::Assign { set } => reply(core.assign(book, *set).map(Body::Assigned)),
        Call::Raw { set, c } => reply(core.raw(book, *set, *c).map(Body::Register)),
        Call::Run { .. } => unreachable!(),
        // tools/make_calls: end
    }
}
