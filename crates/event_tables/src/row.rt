//! One row of a unit file, by itself.

ghost use Rattle.std.specs.Prelude.{◌≡◌, ◌&&◌, ◌==◌, not, true, false, codes, length, if◌then◌else◌, option_map, Some, None};
ghost use Rattle.std.specs.Str.{bytes_eq};
ghost use Rattle.std.specs.List.{list_all};
ghost use Rattle.csv.specs.Records.{fields_of};
ghost use Rattle.papi_base.specs.declared.limits.TheConstants.{LEAST_WIDTH, MOST_WIDTH};
ghost use Rattle.table_rows.specs.Texts as Texts;
ghost use Rattle.event_tables.specs.Lines as Lines;
ghost use Rattle.event_tables.specs.Lines.{line_of, line_or_bad, row_line, words_of};

use crate::component::FixedMods;
use crate::limits::LONGEST_DESCRIPTION;
use papi_base::{LEAST_WIDTH, MOST_WIDTH};
use table_rows::{
    ByteRecord, decimal_in, hex_in, is_decimal, is_name, is_skipped, name_text, printable_text,
    text_at,
};

/// The letters of a umask: `d` and `n`.
#[derive(Clone, Copy)]
pub struct Flags {
    pub preset_choice: bool,
    pub alone: bool,
}

/// A row by its kind. An event and a umask have the names of their counters as they stand, with spaces between them.
#[derive(Clone, Copy)]
pub enum Row<'r> {
    Skipped,
    Bad,
    Component {
        name: &'r str,
        pmu: &'r str,
    },
    Counter {
        name: &'r str,
        width: Option<u8>,
        fixed: bool,
    },
    Event {
        name: &'r str,
        select: u8,
        counters: &'r [u8],
        text: &'r str,
    },
    Umask {
        name: &'r str,
        bits: u8,
        flags: Flags,
        text: &'r str,
    },
    UmaskCounters {
        counters: &'r [u8],
    },
    UmaskModifiers {
        fixed: FixedMods,
    },
}

// Whether some part between spaces is not empty.
fn has_word(bytes: &[u8]) -> bool
    ensures { result ≡ not (Texts.is_empty (words_of bytes.now)) }
{
    bytes.split(|&b| b == b' ').any(|word| !word.is_empty())
}

// Whether each part between spaces that is not empty is a name.
fn are_all_names(bytes: &[u8]) -> bool
    ensures { result ≡ list_all Texts.is_name (words_of bytes.now) }
{
    bytes
        .split(|&b| b == b' ')
        .all(|word| word.is_empty() || is_name(word))
}

fn are_names(bytes: &[u8]) -> bool
    ensures { result ≡ Lines.are_names (words_of bytes.now) }
{
    has_word(bytes) && are_all_names(bytes)
}

// The text of bytes that are a description.
fn description(bytes: &[u8]) -> Option<&str>
    ensures { option_map (λ s. s.now) result
        ≡ (if Lines.is_description bytes.now then Some bytes.now else None) }
{
    if bytes.len() <= LONGEST_DESCRIPTION {
        printable_text(bytes)
    } else {
        None
    }
}

// The byte that one or two hexadecimal digits write.
fn byte_of(bytes: &[u8]) -> Option<u8>
    ensures { result ≡ Texts.hex_in 1 2 bytes.now }
{
    Some(hex_in(1, 2, bytes)? as u8)
}

// The width that a decimal number says, if it is in its range.
fn width_of(bytes: &[u8]) -> Option<u8>
    ensures { result ≡ Texts.decimal_in LEAST_WIDTH MOST_WIDTH bytes.now }
{
    Some(decimal_in(LEAST_WIDTH as u64, MOST_WIDTH as u64, bytes)? as u8)
}

#[tactic(auto, unfolding(crate::specs::Lines::flags_of))]
fn flags_of(letters: &[u8]) -> Option<Flags>
    ensures { result ≡ Lines.flags_of letters.now }
{
    let (preset_choice, alone) = match letters {
        b"-" => (false, false),
        b"d" => (true, false),
        b"n" => (false, true),
        b"dn" | b"nd" => (true, true),
        _ => return None,
    };
    Some(Flags {
        preset_choice,
        alone,
    })
}

fn component_row<'r>(name: &'r [u8], pmu: &'r [u8]) -> Option<Row<'r>>
    ensures { line_or_bad result ≡ Lines.component_line name.now pmu.now }
{
    let name = name_text(name)?;
    let pmu = name_text(pmu)?;
    Some(Row::Component { name, pmu })
}

// Whether a kind of counter is the fixed one, if it is a kind: `F` or `P`.
fn fixed_of(kind: &[u8]) -> Option<bool>
    ensures { result ≡ (if bytes_eq kind.now (codes "F") then Some true
        else if bytes_eq kind.now (codes "P") then Some false else None) }
{
    match kind {
        b"F" => Some(true),
        b"P" => Some(false),
        _ => None,
    }
}

fn counter_row<'r>(name: &'r [u8], width: &'r [u8], kind: &[u8]) -> Option<Row<'r>>
    ensures { line_or_bad result ≡ Lines.counter_line name.now width.now kind.now }
{
    let fixed = fixed_of(kind)?;
    if !is_decimal(width) {
        return None;
    }
    let name = name_text(name)?;
    let width = width_of(width);
    Some(Row::Counter { name, width, fixed })
}

fn event_row<'r>(
    name: &'r [u8],
    select: &[u8],
    counters: &'r [u8],
    text: &'r [u8],
) -> Option<Row<'r>>
    ensures { line_or_bad result ≡ Lines.event_line name.now select.now counters.now text.now }
{
    let select = byte_of(select)?;
    let name = name_text(name)?;
    if !are_names(counters) {
        return None;
    }
    let text = description(text)?;
    Some(Row::Event {
        name,
        select,
        counters,
        text,
    })
}

fn umask_row<'r>(name: &'r [u8], bits: &[u8], letters: &[u8], text: &'r [u8]) -> Option<Row<'r>>
    ensures { line_or_bad result ≡ Lines.umask_line name.now bits.now letters.now text.now }
{
    let bits = byte_of(bits)?;
    let flags = flags_of(letters)?;
    let name = name_text(name)?;
    let text = description(text)?;
    Some(Row::Umask {
        name,
        bits,
        flags,
        text,
    })
}

fn umask_counters_row(counters: &[u8]) -> Option<Row<'_>>
    ensures { line_or_bad result ≡ Lines.umask_counters_line counters.now }
{
    if are_names(counters) {
        Some(Row::UmaskCounters { counters })
    } else {
        None
    }
}

// The modifiers of these letters and of this least amount.
#[tactic(auto, unfolding(crate::specs::Lines::fixed_mods_of))]
fn fixed_mods_of(letters: &[u8], cmask: u8) -> Option<FixedMods>
    ensures { result ≡ Lines.fixed_mods_of letters.now cmask }
{
    let (edge, invert) = match letters {
        b"-" => (false, false),
        b"e" => (true, false),
        b"i" => (false, true),
        b"ei" | b"ie" => (true, true),
        _ => return None,
    };
    Some(FixedMods {
        edge,
        invert,
        cmask,
    })
}

// A least amount, from 0 to 255.
fn amount_of(amount: &[u8]) -> Option<u8>
    ensures { result ≡ Texts.decimal_in 0 255 amount.now }
{
    Some(decimal_in(0, 255, amount)? as u8)
}

fn umask_modifiers_row<'r>(letters: &[u8], amount: &[u8]) -> Option<Row<'r>>
    ensures { line_or_bad result ≡ Lines.umask_modifiers_line letters.now amount.now }
{
    let amount = amount_of(amount)?;
    let fixed = fixed_mods_of(letters, amount)?;
    if fixed.edge || fixed.invert || fixed.cmask > 0 {
        Some(Row::UmaskModifiers { fixed })
    } else {
        None
    }
}

// Whether a record begins with this word and has as many fields.
fn has_form(row: &ByteRecord, word: &[u8], fields: usize) -> bool
    ensures { result ≡ (bytes_eq (Texts.text_at (fields_of row.now) 0) word.now
        && (length (fields_of row.now) == fields)) }
{
    row.len() == fields && text_at(row, 0) == word
}

/// What a record says, by itself.
#[tactic(auto, unfolding(crate::specs::Lines::line_of))]
pub fn row_of(row: &ByteRecord) -> Row<'_>
    ensures { row_line result ≡ line_of (fields_of row.now) }
{
    if is_skipped(text_at(row, 0)) {
        return Row::Skipped;
    }
    let first = text_at(row, 1);
    let second = text_at(row, 2);
    let third = text_at(row, 3);
    let fourth = text_at(row, 4);
    if has_form(row, b"COMPONENT", 3) {
        return component_row(first, second).unwrap_or(Row::Bad);
    }
    if has_form(row, b"COUNTER", 4) {
        return counter_row(first, second, third).unwrap_or(Row::Bad);
    }
    if has_form(row, b"EVENT", 5) {
        return event_row(first, second, third, fourth).unwrap_or(Row::Bad);
    }
    if has_form(row, b"UMASK", 5) {
        return umask_row(first, second, third, fourth).unwrap_or(Row::Bad);
    }
    if has_form(row, b"UMASK_COUNTERS", 2) {
        return umask_counters_row(first).unwrap_or(Row::Bad);
    }
    if has_form(row, b"UMASK_MODIFIERS", 3) {
        return umask_modifiers_row(first, second).unwrap_or(Row::Bad);
    }
    Row::Bad
}
