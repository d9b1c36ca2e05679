//! Refusals as codes.
ghost use Rattle.std.specs.Prelude.{◌≡◌};
ghost use Rattle.session_model.specs.Replies.{refused};

use event_sets::Refusal;
use papi_base::Code;

pub(crate) fn refusal_code(refusal: Refusal) -> Code
    ensures { result ≡ (refused refusal).code }
{
    match refusal {
        Refusal::Plain(code) => code,
        Refusal::Conflict(_) => Code::Ecnflct,
    }
}
