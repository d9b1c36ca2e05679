//! The calls of a script and of a session, with their arguments.
ghost use Rattle.std.specs.Prelude.{◌≡◌};
ghost use Rattle.call_type.specs.Calls.{name_of, name_of_call};

use crate::call_name::CallName;

/// A call on one thread's session, each as the manual page says of the function of PAPI that stands beside it in `calls.csv`.
/// `Assign` asks for the counter of each native event, `Raw` for a counter's register, and `Run` consumes up to `n` occurrences of
/// the thread's stream; these three are this project's own.
///
/// `E` is an event: its text in a script, and then what the text was looked up as.
#[derive(Clone, Copy, Drop)]
pub enum Call<E> {
    // tools/make_calls: begin variants
    Register,
    Unregister,
    Create,
    Destroy { set: u32 },
    Cleanup { set: u32 },
    Add { set: u32, e: E },
    Remove { set: u32, e: E },
    AssignComponent { set: u32, comp: u32 },
    SetDomain { set: u32, bits: u32 },
    SetMultiplex { set: u32, slice: u32 },
    Overflow { set: u32, e: E, t: u64 },
    Start { set: u32 },
    Stop { set: u32 },
    Read { set: u32 },
    Accum { set: u32 },
    Reset { set: u32 },
    State { set: u32 },
    ListEvents { set: u32 },
    Assign { set: u32 },
    Raw { set: u32, c: u32 },
    Run { n: u32 },
    // tools/make_calls: end
}

/// What a line of a script asks for: a call on its thread's session, the code of an event (PAPI_event_name_to_code(3)), the name
/// of a code (PAPI_event_code_to_name(3)), or the registered threads (PAPI_list_threads(3)).
///
/// `E` is an event of a call, `C` what is known of an event whose code is asked for, and `N` what is known of a code whose name is.
#[derive(Clone, Copy, Drop)]
pub enum Asked<E, C, N> {
    Call(Call<E>),
    CodeOf(C),
    NameOf(N),
    Threads,
}

impl<E> Call<E> {
    /// The name of the call.
    pub fn name(&self) -> CallName
        ensures name { result ≡ name_of_call self.now }
    {
        match self {
            // tools/make_calls: begin names
            Call::Register => CallName::Register,
            Call::Unregister => CallName::Unregister,
            Call::Create => CallName::Create,
            Call::Destroy { .. } => CallName::Destroy,
            Call::Cleanup { .. } => CallName::Cleanup,
            Call::Add { .. } => CallName::Add,
            Call::Remove { .. } => CallName::Remove,
            Call::AssignComponent { .. } => CallName::Component,
            Call::SetDomain { .. } => CallName::Domain,
            Call::SetMultiplex { .. } => CallName::Multiplex,
            Call::Overflow { .. } => CallName::Overflow,
            Call::Start { .. } => CallName::Start,
            Call::Stop { .. } => CallName::Stop,
            Call::Read { .. } => CallName::Read,
            Call::Accum { .. } => CallName::Accum,
            Call::Reset { .. } => CallName::Reset,
            Call::State { .. } => CallName::State,
            Call::ListEvents { .. } => CallName::Events,
            Call::Assign { .. } => CallName::Assign,
            Call::Raw { .. } => CallName::Raw,
            Call::Run { .. } => CallName::Run,
            // tools/make_calls: end
        }
    }
}

impl<E, C, N> Asked<E, C, N> {
    /// The name of the call that the line makes.
    pub fn name(&self) -> CallName
        ensures name { result ≡ name_of self.now }
    {
        match self {
            Asked::Call(call) => call.name(),
            Asked::CodeOf(_) => CallName::Code,
            Asked::NameOf(_) => CallName::Name,
            Asked::Threads => CallName::Threads,
        }
    }
}
