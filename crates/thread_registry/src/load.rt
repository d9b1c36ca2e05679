//! How much work the calls of a job ask for.
ghost use Rattle.std.specs.Prelude.{◌≡◌};
ghost use Rattle.thread_registry.specs.Load.{call_load, load_of};

use session_model::Call;

/// The occurrences that a run asks for, and 1 for each other call.
fn call_load(call: &Call) -> u32
    ensures { result ≡ call_load call.now }
{
    match call {
        Call::Run { n } => *n,
        _ => 1,
    }
}

/// The occurrences that the runs ask for, and one for each other call, at most 2^32 - 1.
pub fn load_of(calls: &[Call]) -> u32
    ensures { result ≡ load_of calls.now }
{
    let mut load = 0u32;
    for call in calls {
        load = load.saturating_add(call_load(call));
    }
    load
}
