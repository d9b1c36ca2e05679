//! A table of presets as a preset file.

ghost use Rattle.std.specs.Prelude.{◌≡◌, ◌∷◌, ◌++◌, [], IfOk, OnOk, map, codes, string_bytes};
ghost use Rattle.std.specs.Option.{option_copied};
ghost use Rattle.table_rows.specs.Rows.{rows_text};
ghost use Rattle.preset_csv.specs.Steps.{after_commas};
ghost use Rattle.preset_csv.specs.Written.{ReadsBack, def_fields, formula_fields, rows_of_entry, table_text};

use crate::definition::Def;
use crate::entry::Entry;
use crate::kind::kind_text;
use crate::symbols::preset_symbol;
use crate::table::PresetTable;
use postfix_rules::{Formula, write_formula};
use std::alloc::{AllocError, Global};

/// Appends a field after a comma.
pub fn put_field(text: &mut Vec<u8>, field: &[u8]) -> Result<(), AllocError>
    ensures { OnOk result (text.new.items ≡ text.old.items ++ 44 ∷ field.now) }
{
    text.push(b',')?;
    text.extend_from_slice(field)?;
    Ok(())
}

// The natives, each after a comma.
fn put_natives(text: &mut Vec<u8>, natives: &[String]) -> Result<(), AllocError>
    ensures { OnOk result (text.new.items
        ≡ text.old.items ++ after_commas (map string_bytes natives.now)) }
{
    for native in natives {
        put_field(text, native.as_bytes())?;
    }
    Ok(())
}

// A formula, if there is one, after a comma.
fn put_formula(
    alloc: Global,
    text: &mut Vec<u8>,
    formula: Option<&Formula>,
) -> Result<(), AllocError>
    ensures { OnOk result (text.new.items
        ≡ text.old.items ++ after_commas (formula_fields (option_copied formula.entry))) }
{
    match formula {
        Some(formula) => {
            let written = write_formula(alloc, formula)?;
            put_field(text, written.as_bytes())
        }
        None => Ok(()),
    }
}

/// Appends the type, the formula if there is one, and the natives, each after a comma.
pub fn put_def(alloc: Global, text: &mut Vec<u8>, def: &Def) -> Result<(), AllocError>
    ensures { OnOk result (text.new.items ≡ text.old.items ++ after_commas (def_fields def.now)) }
{
    put_field(text, kind_text(def.kind()).as_bytes())?;
    put_formula(alloc, text, def.formula())?;
    put_natives(text, def.natives())
}

// The first two fields of a row.
fn put_head(text: &mut Vec<u8>, word: &str, name: &str) -> Result<(), AllocError>
    ensures { OnOk result (text.new.items ≡ (text.old.items ++ word.now) ++ 44 ∷ name.now) }
{
    text.extend_from_slice(word.as_bytes())?;
    put_field(text, name.as_bytes())
}

/// Appends the row of an entry with this word and this name before it, and nothing for a missing one.
pub fn put_entry(
    alloc: Global,
    text: &mut Vec<u8>,
    word: &str,
    name: &str,
    entry: &Entry,
) -> Result<(), AllocError>
    ensures { OnOk result (text.new.items
        ≡ text.old.items ++ rows_text (rows_of_entry word.now name.now entry.now)) }
{
    match entry {
        Entry::Missing => Ok(()),
        Entry::Uncomputed => {
            put_head(text, word, name)?;
            text.extend_from_slice(b",DERIVED_CMPD\n")?;
            Ok(())
        }
        Entry::Def(def) => {
            put_head(text, word, name)?;
            put_def(alloc, text, def)?;
            text.push(b'\n')?;
            Ok(())
        }
    }
}

// The row of a cpu.
fn cpu_row(alloc: Global, cpu: &str) -> Result<Vec<u8>, AllocError>
    ensures { IfOk result (λ v. v.items ≡ (codes "CPU" ++ 44 ∷ cpu.now) ++ 10 ∷ []) }
{
    let mut text = Vec::new(alloc);
    text.extend_from_slice(b"CPU")?;
    put_field(&mut text, cpu.as_bytes())?;
    text.push(b'\n')?;
    Ok(text)
}

/// A table of presets as a preset file: a row for the cpu, and in the table's order a row for each entry that is not
/// missing.
///
/// What is written reads back, under the table's cpu, as the table. An entry that is not computed is written with the
/// type `DERIVED_CMPD`. Source: papi_events.csv.
pub fn write_presets(alloc: Global, t: &PresetTable) -> Result<Vec<u8>, AllocError>
    ensures text { IfOk result (λ v. v.items ≡ table_text t.now) }
    ensures back { IfOk result (λ v. ReadsBack v.items t.now) }
{
    let mut text = cpu_row(alloc, t.cpu())?;
    let rows = t.rows();
    for i in 0..rows.len() {
        put_entry(
            alloc,
            &mut text,
            "PRESET",
            preset_symbol(i as u32),
            &rows[i],
        )?;
    }
    Ok(text)
}
