//! The list of the presets and the user events.

ghost use Rattle.std.specs.Prelude.{◌≡◌, ◌<◌, ◌++◌, IfOk, OnOk, string_bytes};
ghost use Rattle.component_table.specs.Catalogs.{row_count};
ghost use Rattle.tool_output.specs.PresetLists as PresetLists;

use crate::listings::lines::push_column;
use component_table::Catalog;
use preset_csv::{preset_count, preset_text};
use std::alloc::{AllocError, Global};
use std::fmt::Write;

// What the columns of a line say.
#[derive(Drop)]
struct Columns<'a> {
    name: &'a str,
    code: &'a str,
    available: &'a str,
    derived: &'a str,
    description: &'a str,
}

fn push_columns(text: &mut String, columns: &Columns) -> Result<(), AllocError>
    ensures { OnOk result (string_bytes text.new ≡ string_bytes text.old
        ++ PresetLists.columns_line columns.now.name.now columns.now.code.now
        columns.now.available.now columns.now.derived.now columns.now.description.now) }
{
    push_column(text, 14, columns.name)?;
    push_column(text, 12, columns.code)?;
    push_column(text, 7, columns.available)?;
    push_column(text, 7, columns.derived)?;
    writeln!(text, "{}", columns.description)
}

fn push_heading(text: &mut String) -> Result<(), AllocError>
    ensures { OnOk result (string_bytes text.new ≡ string_bytes text.old ++ PresetLists.heading) }
{
    let heading = Columns {
        name: "Name",
        code: "Code",
        available: "Avail",
        derived: "Deriv",
        description: "Description",
    };
    push_columns(text, &heading)
}

fn yes_or_no(is_so: bool) -> &'static str
    ensures { result.now ≡ PresetLists.yes_or_no is_so }
{
    if is_so { "Yes" } else { "No" }
}

// The description of the event in a row: a preset's own, and one for all user events.
fn description_of(row: u32) -> &'static str
    ensures { result.now ≡ PresetLists.description_of row }
{
    if row < preset_count() {
        preset_text(row)
    } else {
        "User defined event"
    }
}

// Appends the line of a row of the catalog.
fn push_row(text: &mut String, catalog: &Catalog, row: u32) -> Result<(), AllocError>
    requires { row < row_count catalog.now }
    ensures { OnOk result (string_bytes text.new
        ≡ string_bytes text.old ++ PresetLists.row_line catalog.now row) }
{
    let code = format!(in *text.allocator(); "0x{:x}", catalog.code(row))?;
    let columns = Columns {
        name: catalog.name(row),
        code: code.as_str(),
        available: yes_or_no(catalog.available(row)),
        derived: yes_or_no(catalog.derived(row)),
        description: description_of(row),
    };
    push_columns(text, &columns)
}

// Appends how many events there are, how many of them are available, and how many of these are derived.
fn push_counts(text: &mut String, catalog: &Catalog) -> Result<(), AllocError>
    ensures { OnOk result (string_bytes text.new
        ≡ string_bytes text.old ++ PresetLists.counts_line catalog.now) }
{
    let count = catalog.rows();
    let mut available = 0;
    let mut derived = 0;
    for row in 0..count {
        available += u32::from(catalog.available(row));
        derived += u32::from(catalog.derived(row));
    }
    writeln!(
        text,
        "Of {count} possible events, {available} are available, of which {derived} are derived."
    )
}

// Whether a row of the catalog is listed.
fn is_listed(catalog: &Catalog, available_alone: bool, row: u32) -> bool
    requires { row < row_count catalog.now }
    ensures { result ≡ PresetLists.is_listed catalog.now.book available_alone row }
{
    !available_alone || catalog.available(row)
}

/// The list of the presets and the user events, as papi_avail(1) prints it: a heading, a line for each row of the catalog or
/// for the available ones alone, and how many there are.
///
/// A line has the name in 14 places, the code in 12, whether it is available in 7, whether it is derived in 7, and the
/// description. A longer name is written whole, and the code follows it at once. The counts are those of the whole catalog.
#[tactic(auto, unfolding(crate::specs::PresetLists::preset_list))]
pub fn avail_list(
    alloc: Global,
    catalog: &Catalog,
    available_alone: bool,
) -> Result<String, AllocError>
    ensures text { IfOk result
        (λ text. string_bytes text ≡ PresetLists.preset_list catalog.now available_alone) }
{
    let mut text = String::new(alloc);
    push_heading(&mut text)?;
    for row in 0..catalog.rows() {
        if is_listed(catalog, available_alone, row) {
            push_row(&mut text, catalog, row)?;
        }
    }
    push_counts(&mut text, catalog)?;
    Ok(text)
}
