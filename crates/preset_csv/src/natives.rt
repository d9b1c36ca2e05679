//! The natives of a row.

ghost use Rattle.std.specs.Prelude.{◌≡◌, ◌<◌, ◌≤◌, ◌∷◌, ◌++◌, [], IfErr, IfOk, OnOk, Ok, length, map, string_bytes, take};
ghost use Rattle.csv.specs.Records.{fields_of};
ghost use Rattle.postfix_rules.specs.declared.derived.TheConstants.{MOST_NATIVES};
ghost use Rattle.preset_csv.specs.Defs as Defs;
ghost use Rattle.preset_csv.specs.Entries.{kept_natives};
ghost use Rattle.preset_csv.specs.Lines.{natives_from};
ghost use Rattle.preset_csv.specs.Steps.{RefusesForCause};
ghost use Rattle.preset_csv.specs.declared.fault.PresetCause.TheVariants as cause;
ghost use Rattle.table_rows.specs.declared.fault.RowRefusal.TheVariants as refusal;

use crate::fault::PresetCause;
use postfix_rules::MOST_NATIVES;
use std::alloc::{AllocError, Global};
use table_rows::{ByteRecord, RowRefusal, printable_text, text_at};

// Whether a field ends the natives: it is empty, or begins a note or a description.
fn ends_natives(field: &[u8]) -> bool
    ensures { result ≡ Defs.ends_natives field.now }
{
    field.is_empty()
        || field.eq_ignore_ascii_case(b"NOTE")
        || field.eq_ignore_ascii_case(b"SDESC")
        || field.eq_ignore_ascii_case(b"LDESC")
}

// Keeps one more native, unless as many as a preset may have are kept.
fn keep(alloc: Global, natives: &mut Vec<String>, text: &str) -> Result<(), AllocError>
    requires { length natives.old.items ≤ MOST_NATIVES }
    ensures { OnOk result (map string_bytes natives.new.items
        ≡ take MOST_NATIVES (map string_bytes natives.old.items ++ text.now ∷ [])) }
{
    if natives.len() < MOST_NATIVES as usize {
        natives.push(String::from_str(alloc, text)?)?;
    }
    Ok(())
}

// The natives, of which n were counted, if these are not too many.
fn within_limit(natives: Vec<String>, count: usize) -> Result<Vec<String>, RowRefusal<PresetCause>>
    ensures within { IfOk result (λ v. (v ≡ natives) × (count ≤ MOST_NATIVES)) }
    ensures over { IfErr result
        (λ refused. (refused ≡ refusal.Cause cause.OverLimit) × (MOST_NATIVES < count)) }
{
    if count > MOST_NATIVES as usize {
        Err(RowRefusal::Cause(PresetCause::OverLimit))
    } else {
        Ok(natives)
    }
}

/// The natives of a row from a field on, or why the row is refused: a native that is not printable takes precedence over more
/// than [`MOST_NATIVES`]. No more than these are ever held.
pub fn row_natives(
    alloc: Global,
    row: &ByteRecord,
    first: usize,
) -> Result<Vec<String>, RowRefusal<PresetCause>>
    ensures natives { IfOk result
        (λ v. kept_natives (natives_from (fields_of row.now) first)
        ≡ Ok (map string_bytes v.items)) }
    ensures refused { IfErr result
        (λ refused.
        RefusesForCause (kept_natives (natives_from (fields_of row.now) first)) refused) }
{
    let mut natives = Vec::new(alloc);
    let mut count = 0;
    for i in first..row.len() {
        let field = text_at(row, i);
        if ends_natives(field) {
            return within_limit(natives, count);
        }
        let Some(text) = printable_text(field) else {
            return Err(RowRefusal::Cause(PresetCause::BadField));
        };
        keep(alloc, &mut natives, text)?;
        count += 1;
    }
    within_limit(natives, count)
}
