//! The line of a refused text.

ghost use Rattle.std.specs.Prelude.{◌≡◌, IfOk, string_bytes};
ghost use Rattle.tool_output.specs.Choosing as Choosing;
ghost use Rattle.session_model.specs.Replies as Replies;

use crate::chooser::given::RefusedEvent;
use crate::replies::push_reply;
use component_table::Catalog;
use event_sets::Refusal;
use papi_base::Code;
use session_model::{Body, Reply};
use std::alloc::{AllocError, Global};

// The reply to a call that is refused.
fn reply_of(refusal: Refusal) -> Reply
    ensures { result ≡ Replies.refused refusal }
{
    match refusal {
        Refusal::Plain(code) => Reply {
            code,
            body: Body::Nothing,
        },
        Refusal::Conflict(clash) => Reply {
            code: Code::Ecnflct,
            body: Body::Clash(clash),
        },
    }
}

/// A refused text, a colon, a space, and the refusal as a reply has it from its code on.
pub fn refused_text(
    alloc: Global,
    catalog: &Catalog,
    refused: RefusedEvent<'_>,
) -> Result<String, AllocError>
    ensures { IfOk result
        (λ text. string_bytes text ≡ Choosing.refused_text catalog.now
        (record { text = refused.entry.text.now; refusal = refused.entry.refusal })) }
{
    let mut text = format!(in alloc; "{}:", refused.text)?;
    push_reply(&mut text, catalog, &reply_of(refused.refusal))?;
    text.push_str("\n")?;
    Ok(text)
}
