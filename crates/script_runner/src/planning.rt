//! What a line of a plan asks for, if the native events up to this line are mentioned.

ghost use Rattle.std.specs.Prelude.{◌≡◌, ◌==◌, ◌<◌, IfOk, OnErr, OnOk, length, position};
ghost use Rattle.component_table.specs.Codes.{row_codes};
ghost use Rattle.component_table.specs.declared.native_codes.TheConstants.{MOST_MENTIONED};
ghost use Rattle.thread_registry.specs.Plans.{event_by, planned_by};
ghost use Rattle.postfix_rules.specs.Sameness.{joined_by};
ghost use Rattle.script_runner.specs.Resolving.{IsGoodAsk, asked_of, mentions_by, setting_of};
ghost use Rattle.session_model.specs.World.{mentions_of, mentions_of_call};
ghost use Rattle.postfix_rules.specs.NativeCodes.{native_named};

use crate::asking::asked_of;
use component_table::{Catalog, NativeCodes};
use papi_base::EventRef;
use script_lines::Written;
use session_model::{Asked, Call, Named};
use std::alloc::AllocError;
use thread_registry::Planned;

// The event of a code: PAPI_event_code_to_name(3).
fn event_of_code(catalog: &Catalog, code: u32, codes: &NativeCodes) -> Option<EventRef>
    ensures { result ≡ event_by (position (λ x. x == code) (row_codes catalog.now))
        (native_named codes.now code) }
{
    if let Some(row) = catalog.row_of_code(code) {
        return Some(EventRef::Preset(row));
    }
    let native = codes.native_of(code, codes.count())?;
    Some(EventRef::Native(native))
}

// Mentions the native event that a text names, if it names one.
fn mention_named(named: Named, codes: &mut NativeCodes) -> Result<(), AllocError>
    requires few { length codes.old < MOST_MENTIONED }
    ensures ok { OnOk result (codes.new ≡ joined_by codes.old (mentions_by named)) }
    ensures unchanged { OnErr result (codes.new ≡ codes.old) }
{
    if let Ok(EventRef::Native(native)) = named {
        codes.mention(native)?;
    }
    Ok(())
}

// Mentions the native event of a call, whatever the session will answer.
fn mention_in(call: &Call, codes: &mut NativeCodes) -> Result<(), AllocError>
    requires few { length codes.old < MOST_MENTIONED }
    ensures ok { OnOk result (codes.new ≡ joined_by codes.old (mentions_of_call call.now)) }
    ensures unchanged { OnErr result (codes.new ≡ codes.old) }
{
    match *call {
        Call::Add { e, .. } | Call::Remove { e, .. } | Call::Overflow { e, .. } => {
            mention_named(e, codes)
        }
        _ => Ok(()),
    }
}

// What a line asks for, looked up if its own mention is the last one.
fn planned_of(
    catalog: &Catalog,
    asked: Asked,
    codes: &mut NativeCodes,
) -> Result<Planned, AllocError>
    requires few { length codes.old < MOST_MENTIONED }
    ensures planned { IfOk result
        (λ planned. planned ≡ planned_by (setting_of catalog.now) codes.new asked) }
    ensures mentioned { OnOk result (codes.new ≡ joined_by codes.old (mentions_of asked)) }
    ensures unchanged { OnErr result (codes.new ≡ codes.old) }
{
    match asked {
        Asked::Call(call) => {
            mention_in(&call, codes)?;
            Ok(Planned::Call(call))
        }
        Asked::CodeOf(Ok(EventRef::Native(native))) => {
            Ok(Planned::CodeOf(Ok(codes.mention(native)?)))
        }
        Asked::CodeOf(Ok(EventRef::Preset(row))) => Ok(Planned::CodeOf(Ok(catalog.code_at(row)))),
        Asked::CodeOf(Err(code)) => Ok(Planned::CodeOf(Err(code))),
        Asked::NameOf(code) => Ok(Planned::NameOf(event_of_code(catalog, code, codes))),
        Asked::Threads => Ok(Planned::Threads),
    }
}

/// What a line of a script asks for, looked up if its own mention is the last one. Of the calls that long scripts repeat nothing is looked up.
pub(crate) fn planned_line(
    catalog: &Catalog,
    written: &Written,
    codes: &mut NativeCodes,
) -> Result<Planned, AllocError>
    requires few { length codes.old < MOST_MENTIONED }
    ensures planned { IfOk result (λ planned.
        planned ≡ planned_by (setting_of catalog.now) codes.new
        (asked_of catalog.now written.now)) }
    ensures mentioned { OnOk result
        (codes.new ≡ joined_by codes.old (mentions_of (asked_of catalog.now written.now))) }
    ensures good { IsGoodAsk catalog.now (asked_of catalog.now written.now) }
    ensures unchanged { OnErr result (codes.new ≡ codes.old) }
{
    match *written {
        Written::Call(call_type::Call::Read { set }) => Ok(Planned::Call(Call::Read { set })),
        Written::Call(call_type::Call::Accum { set }) => Ok(Planned::Call(Call::Accum { set })),
        Written::Call(call_type::Call::Run { n }) => Ok(Planned::Call(Call::Run { n })),
        _ => planned_of(catalog, asked_of(catalog, written), codes),
    }
}
