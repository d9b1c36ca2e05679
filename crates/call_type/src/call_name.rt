//! The names of the calls that a script makes.
ghost use Rattle.std.specs.Prelude.{◌≡◌};
ghost use Rattle.call_type.specs.CallNames.{word_of};

/// The name of a call of a script, in the order of the table of calls: docs/FORMATS.md.
#[derive(Clone, Copy)]
pub enum CallName {
    // tools/make_calls: begin names
    Register,
    Unregister,
    Threads,
    Create,
    Destroy,
    Cleanup,
    Add,
    Remove,
    Component,
    Domain,
    Multiplex,
    Overflow,
    Start,
    Stop,
    Read,
    Accum,
    Reset,
    State,
    Events,
    Assign,
    Raw,
    Run,
    Code,
    Name,
    // tools/make_calls: end
}

/// The word by which a script makes the call.
pub fn call_word(name: CallName) -> &'static str
    ensures word { result.now ≡ word_of name }
{
    match name {
        // tools/make_calls: begin words
        CallName::Register => "register",
        CallName::Unregister => "unregister",
        CallName::Threads => "threads",
        CallName::Create => "create",
        CallName::Destroy => "destroy",
        CallName::Cleanup => "cleanup",
        CallName::Add => "add",
        CallName::Remove => "remove",
        CallName::Component => "component",
        CallName::Domain => "domain",
        CallName::Multiplex => "multiplex",
        CallName::Overflow => "overflow",
        CallName::Start => "start",
        CallName::Stop => "stop",
        CallName::Read => "read",
        CallName::Accum => "accum",
        CallName::Reset => "reset",
        CallName::State => "state",
        CallName::Events => "events",
        CallName::Assign => "assign",
        CallName::Raw => "raw",
        CallName::Run => "run",
        CallName::Code => "code",
        CallName::Name => "name",
        // tools/make_calls: end
    }
}
