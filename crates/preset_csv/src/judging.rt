//! The entry that a row gives.

ghost use Rattle.std.specs.Prelude.{◌≡◌, ◌≤◌, Ok, map, length, string_bytes};
ghost use Rattle.std.specs.List.{AllByRecursion};
ghost use Rattle.csv.specs.Records.{fields_of};
ghost use Rattle.postfix_rules.specs.declared.derived.TheConstants.{MOST_NATIVES};
ghost use Rattle.preset_csv.specs.Defs.{AreNatives, IsNativeText};
ghost use Rattle.preset_csv.specs.Entries as Entries;
ghost use Rattle.preset_csv.specs.Lines.{derivation_of};
ghost use Rattle.preset_csv.specs.Steps as Steps;
ghost use Rattle.table_rows.specs.Rows.{IsReadRow};
ghost use Rattle.preset_csv.specs.Steps.{Judges};
ghost use Rattle.preset_csv.specs.declared.kind.DerivedType.TheVariants as derived;

use crate::definition::Def;
use crate::entry::Entry;
use crate::fault::PresetCause;
use crate::kind::{DerivedType, Kind, has_formula, type_of};
use crate::natives::row_natives;
use postfix_rules::{FormulaFault, read_postfix};
use std::alloc::Global;
use table_rows::{ByteRecord, RowRefusal, printable_text, text_at, trimmed};

/// The entry that a row gives, or why the row is refused.
pub type Judgement = Result<Entry, RowRefusal<PresetCause>>;

// Whether a token of a formula is `#`.
#[tactic(auto, unfolding(crate::specs::Entries::has_rate))]
fn has_rate(formula: &[u8]) -> bool
    ensures { result ≡ Entries.has_rate formula.now }
{
    formula
        .split(|&b| b == b'|')
        .any(|part| trimmed(part) == b"#".as_slice())
}

/// Why a row with a broken formula is refused.
pub fn formula_refusal(fault: FormulaFault) -> RowRefusal<PresetCause>
    ensures { result ≡ Steps.formula_refusal fault }
{
    match fault {
        FormulaFault::At { place: _, cause } => RowRefusal::Cause(PresetCause::BadFormula(cause)),
        FormulaFault::Memory => RowRefusal::Memory,
    }
}

// The entry of a formula in postfix order over natives.
fn postfix_entry(alloc: Global, formula: &str, natives: Vec<String>) -> Judgement
    requires { AreNatives (map string_bytes natives.items) }
    ensures { Judges (Entries.typed_entry Entries.uncomputed derived.Postfix formula.now
        (map string_bytes natives.items)) result }
{
    if has_rate(formula.as_bytes()) {
        return Ok(Entry::Uncomputed);
    }
    match read_postfix(alloc, formula, natives.len() as u32) {
        Ok(formula) => Ok(Entry::Def(Def::new(Kind::Postfix, Some(formula), natives))),
        Err(fault) => Err(formula_refusal(fault)),
    }
}

// The entry of a formula and of one or more natives, by the derived type.
fn typed_entry<J: RowJudge>(
    alloc: Global,
    derived_type: DerivedType,
    formula: &str,
    natives: Vec<String>,
) -> Judgement
    requires { AreNatives (map string_bytes natives.items) }
    ensures { Judges (Entries.typed_entry J.infix_judged derived_type formula.now
        (map string_bytes natives.items)) result }
{
    match derived_type {
        DerivedType::NotDerived => {
            if natives.len() == 1 {
                Ok(Entry::Def(Def::new(Kind::NotDerived, None, natives)))
            } else {
                Ok(Entry::Uncomputed)
            }
        }
        DerivedType::Add => Ok(Entry::Def(Def::new(Kind::Add, None, natives))),
        DerivedType::Sub => Ok(Entry::Def(Def::new(Kind::Sub, None, natives))),
        DerivedType::Postfix => postfix_entry(alloc, formula, natives),
        DerivedType::Infix => J::infix_entry(alloc, formula, natives),
        DerivedType::Ps | DerivedType::AddPs | DerivedType::Cmpd => { Ok(Entry::Uncomputed) }
    }
}

// The entry of a printable formula and of natives that may stand in a row, by the derived type.
fn kept_entry<J: RowJudge>(
    alloc: Global,
    derived_type: DerivedType,
    formula: &str,
    natives: Vec<String>,
) -> Judgement
    requires each { AllByRecursion IsNativeText (map string_bytes natives.items) }
    requires few { length natives.items ≤ MOST_NATIVES }
    ensures { Judges (Entries.kept_entry J.infix_judged derived_type formula.now
        (Ok (map string_bytes natives.items))) result }
{
    if natives.is_empty() {
        return Ok(Entry::Uncomputed);
    }
    typed_entry::<J>(alloc, derived_type, formula, natives)
}

/// How the formulas in infix order of a preset file are judged.
pub trait RowJudge {
    // The entry of such a formula over natives, or why its row is refused.
    ghost infix_judged: { Entries.InfixJudging };

    /// The entry of such a formula over natives, or why its row is refused.
    fn infix_entry(alloc: Global, formula: &str, natives: Vec<String>) -> Judgement
        requires { AreNatives (map string_bytes natives.items) }
        ensures { Judges (infix_judged formula.now (map string_bytes natives.items)) result };
}

/// The formulas of a file of presets alone.
pub struct PresetJudge;

impl RowJudge for PresetJudge {
    ghost infix_judged = { Entries.uncomputed };

    fn infix_entry(_alloc: Global, _formula: &str, _natives: Vec<String>) -> Judgement {
        Ok(Entry::Uncomputed)
    }
}

/// The entry that a row gives by its derived type, its formula and its natives, whatever its first two fields say, or its
/// first cause.
#[tactic(auto, unfolding(crate::specs::Entries::judged_by, crate::specs::Lines::derivation_of))]
pub fn judge<J: RowJudge>(alloc: Global, row: &ByteRecord) -> Judgement
    requires { IsReadRow (fields_of row.now) }
    ensures { Judges (Entries.judged_by J.infix_judged (derivation_of (fields_of row.now))) result }
{
    let Some(derived_type) = type_of(text_at(row, 2)) else {
        return Err(RowRefusal::Cause(PresetCause::BadField));
    };
    let (formula, first): (&[u8], usize) = if has_formula(derived_type) {
        (text_at(row, 3), 4)
    } else {
        (&[], 3)
    };
    let Some(formula) = printable_text(formula) else {
        return Err(RowRefusal::Cause(PresetCause::BadField));
    };
    let natives = row_natives(alloc, row, first)?;
    kept_entry::<J>(alloc, derived_type, formula, natives)
}
