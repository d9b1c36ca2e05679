//! What a line of a script asks for, with its event looked up.

ghost use Rattle.std.specs.Prelude.{◌≡◌};
ghost use Rattle.component_table.specs.Catalogs.{looked_up, shape_of};
ghost use Rattle.call_type.specs.Calls.{call_with};
ghost use Rattle.session_model.specs.Conditions.{IsGood};
ghost use Rattle.script_runner.specs.Resolving as Resolving;
ghost use Rattle.script_runner.specs.Resolving.{IsGoodAsk};

use component_table::Catalog;
use papi_base::Text;
use script_lines::Written;
use session_model::{Asked, Call};

// A call on a session, with its event looked up.
fn call_with(catalog: &Catalog, call: &call_type::Call<Text>) -> Call
    ensures call { result ≡ call_with (looked_up catalog.now) call.now }
    ensures good { IsGood catalog.now.book (shape_of catalog.now.tables) result }
{
    match *call {
        // tools/make_calls: begin
        call_type::Call::Register => Call::Register,
        call_type::Call::Unregister => Call::Unregister,
        call_type::Call::Create => Call::Create,
        call_type::Call::Destroy { set } => Call::Destroy { set },
        call_type::Call::Cleanup { set } => Call::Cleanup { set },
        call_type::Call::Add { set, ref e } => {
            let e = catalog.lookup(e.as_str());
            Call::Add { set, e }
        }
        call_type::Call::Remove { set, ref e } => {
            let e = catalog.lookup(e.as_str());
            Call::Remove { set, e }
        }
        call_type::Call::AssignComponent { set, comp } => Call::AssignComponent { set, comp },
        call_type::Call::SetDomain { set, bits } => Call::SetDomain { set, bits },
        call_type::Call::SetMultiplex { set, slice } => Call::SetMultiplex { set, slice },
        call_type::Call::Overflow { set, ref e, t } => {
            let e = catalog.lookup(e.as_str());
            Call::Overflow { set, e, t }
        }
        call_type::Call::Start { set } => Call::Start { set },
        call_type::Call::Stop { set } => Call::Stop { set },
        call_type::Call::Read { set } => Call::Read { set },
        call_type::Call::Accum { set } => Call::Accum { set },
        call_type::Call::Reset { set } => Call::Reset { set },
        call_type::Call::State { set } => Call::State { set },
        call_type::Call::ListEvents { set } => Call::ListEvents { set },
        call_type::Call::Assign { set } => Call::Assign { set },
        call_type::Call::Raw { set, c } => Call::Raw { set, c },
        call_type::Call::Run { n } => Call::Run { n },
        // tools/make_calls: end
    }
}

/// What a line asks for: a call on the session of its thread, the code of an event, the name of a code, or the registered threads.
/// A text is looked up here, and nowhere else.
pub(crate) fn asked_of(catalog: &Catalog, written: &Written) -> Asked
    ensures asked { result ≡ Resolving.asked_of catalog.now written.now }
    ensures good { IsGoodAsk catalog.now result }
{
    match *written {
        Written::Call(ref call) => Asked::Call(call_with(catalog, call)),
        Written::CodeOf(ref event) => Asked::CodeOf(catalog.lookup(event.as_str())),
        Written::NameOf(code) => Asked::NameOf(code),
        Written::Threads => Asked::Threads,
    }
}
