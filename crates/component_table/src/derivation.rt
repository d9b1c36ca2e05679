//! What presets derive over a unit.

ghost use Rattle.std.specs.Prelude.{◌≡◌, ◌≤◌, All, IfOk, IfSome, length, map, string_bytes};
ghost use Rattle.component_table.specs.Books as Books;
ghost use Rattle.component_table.specs.Catalogs.{shape_of};
ghost use Rattle.postfix_rules.specs.declared.derived.TheConstants.{MOST_NATIVES};
ghost use Rattle.postfix_rules.specs.Fitting.{BookFits, Fits};

use event_tables::Tables;
use name_encoder::encode;
use papi_base::Natives;
use postfix_rules::{Derived, Formula, PresetBook, Rule, is_derived};
use preset_csv::{Def, Entry, Kind};
use std::alloc::{AllocError, Global};

// The native events that some texts name, in their order, if each text names one.
fn natives_named(tables: &Tables, texts: &[String]) -> Option<Natives>
    requires few { length texts.now ≤ MOST_NATIVES }
    ensures named { result ≡ Books.natives_named tables.now (map string_bytes texts.now) }
    ensures fit { IfSome result (λ natives. All (Fits (shape_of tables.now)) natives) }
{
    let mut natives = Natives::new();
    for text in texts {
        match encode(tables, text.as_str()) {
            Ok(native) => natives.push(native),
            Err(_) => return None,
        }
    }
    Some(natives)
}

// The rule of a kind, with its formula.
fn rule_of(kind: Kind, formula: Option<Formula>) -> Rule
    ensures { result ≡ Books.rule_of kind formula }
{
    match (kind, formula) {
        (Kind::Add, _) => Rule::Sum,
        (Kind::Sub, _) => Rule::Sub,
        (Kind::Postfix, Some(formula)) => Rule::Postfix(formula),
        _ => Rule::Plain,
    }
}

/// The kind of the events that have a rule.
pub fn kind_of(rule: &Rule) -> Kind
    ensures kind { result ≡ Books.kind_of rule.now }
{
    match rule {
        Rule::Plain => Kind::NotDerived,
        Rule::Sum => Kind::Add,
        Rule::Sub => Kind::Sub,
        Rule::Postfix(_) => Kind::Postfix,
    }
}

// What a computed preset derives, if it is available.
fn derived_of(tables: &Tables, def: Def) -> Option<Derived>
    ensures derived { result ≡ Books.derived_of tables.now def }
    ensures fits { IfSome result (λ d. All (Fits (shape_of tables.now)) d.natives) }
{
    let natives = natives_named(tables, def.natives())?;
    let kind = def.kind();
    let rule = rule_of(kind, def.into_formula());
    if !is_derived(&natives, &rule) {
        return None;
    }
    Some(Derived::new(natives, rule))
}

// What is derived in a row of a table of presets, if the preset is available.
fn derived_from(tables: &Tables, entry: Entry) -> Option<Derived>
    ensures derived { result ≡ Books.derived_from tables.now entry }
    ensures fits { IfSome result (λ d. All (Fits (shape_of tables.now)) d.natives) }
{
    match entry {
        Entry::Def(def) => derived_of(tables, def),
        Entry::Missing | Entry::Uncomputed => None,
    }
}

/// The book of the presets that are available over a unit. Source: PAPI_presets(3).
pub fn book_of(alloc: Global, tables: &Tables, rows: Vec<Entry>) -> Result<PresetBook, AllocError>
    ensures book { IfOk result (λ book. book ≡ Books.book_of tables.now rows.items) }
    ensures fits { IfOk result (BookFits (shape_of tables.now)) }
{
    let mut book = Vec::new(alloc);
    for entry in rows {
        book.push(derived_from(tables, entry))?;
    }
    Ok(PresetBook::new(book))
}
