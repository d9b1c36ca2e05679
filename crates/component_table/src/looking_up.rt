//! Events by their names and by their codes.

ghost use Rattle.std.specs.Prelude.{◌≡◌, ◌==◌, ◌<◌, ◌+◌, ◌≤◌, IfOk, IfSome, length, map, position, slice_get, string_bytes, unwrap_or};
ghost use Rattle.std.specs.Str.{bytes_eq};
ghost use Rattle.component_table.specs.Catalogs as Catalogs;
ghost use Rattle.component_table.specs.Catalogs.{looked_up, preset_looked_up, row_count, row_name};
ghost use Rattle.component_table.specs.Codes.{row_codes};
ghost use Rattle.component_table.specs.EventNames as EventNames;
ghost use Rattle.event_tables.specs.Tables.{shape_of};
ghost use Rattle.postfix_rules.specs.Fitting.{IsNamed};
ghost use Rattle.preset_csv.specs.declared.symbols.TheConstants.{PRESETS};
ghost use Rattle.user_events.specs.declared.event.TheConstants.{MOST_USER_EVENTS};

use crate::catalog::Catalog;
use name_encoder::{cause_code, encode, write_name};
use papi_base::{Code, EventRef, FIRST_USER_EVENT_CODE};
use preset_csv::{preset_code, preset_count, preset_row, preset_symbol};
use std::alloc::{AllocError, Global};

// Whether a text begins as a preset's symbol does.
fn is_symbol(text: &str) -> bool
    ensures { result ≡ Catalogs.is_symbol text.now }
{
    text.starts_with("PAPI_")
}

// The code in a row.
fn code_of_row(row: u32) -> u32
    requires { row < PRESETS + MOST_USER_EVENTS }
    ensures { result ≡ Catalogs.code_of_row row }
{
    if row < preset_count() {
        preset_code(row)
    } else {
        FIRST_USER_EVENT_CODE + (row - preset_count())
    }
}

// The rank of a user event's name.
fn rank_of(names: &[String], text: &str) -> Option<usize>
    ensures rank { result ≡ position (λ n. bytes_eq text.now n) (map string_bytes names.now) }
    ensures within { IfSome result (λ rank. rank < length names.now) }
{
    names.iter().position(|name| text == name.as_str())
}

// The row of a user event's name.
fn row_of_name(names: &[String], text: &str) -> Option<u32>
    requires { length names.now ≤ MOST_USER_EVENTS }
    ensures row { result ≡ Catalogs.row_of_name (map string_bytes names.now) text.now }
    ensures within { IfSome result (λ row. row < PRESETS + length names.now) }
{
    match rank_of(names, text) {
        Some(rank) => Some(preset_count() + rank as u32),
        None => None,
    }
}

impl Catalog {
    /// The symbol of a preset, or the name of a user event.
    pub fn name(&self, row: u32) -> &str
        requires { row < row_count self.now }
        ensures name { result.now ≡ row_name self.now row }
    {
        if row < preset_count() {
            preset_symbol(row)
        } else {
            self.names[(row - preset_count()) as usize].as_str()
        }
    }

    /// The code of a preset, or `FIRST_USER_EVENT_CODE` and the rank of a user event.
    pub fn code(&self, row: u32) -> u32
        requires { row < row_count self.now }
        ensures code { result ≡ Catalogs.code_of_row row }
    {
        let _ = &self.names;
        code_of_row(row)
    }

    /// The row whose symbol or name is exactly this text, and `None` if there is none.
    pub fn row_named(&self, text: &str) -> Option<u32>
        ensures row { result ≡ Catalogs.row_named self.now text.now }
        ensures within { IfSome result (λ row. row < row_count self.now) }
    {
        if is_symbol(text) {
            preset_row(text)
        } else {
            row_of_name(self.names.as_slice(), text)
        }
    }

    /// The code in a row, and 0 if there is no such row.
    pub fn code_at(&self, row: u32) -> u32
        ensures code { result ≡ unwrap_or (slice_get (row_codes self.now) row) 0 }
    {
        if row < self.rows() {
            code_of_row(row)
        } else {
            0
        }
    }

    /// The row of a code, and `None` if no row has it.
    pub fn row_of_code(&self, code: u32) -> Option<u32>
        ensures row { result ≡ position (λ x. x == code) (row_codes self.now) }
    {
        for row in 0..self.rows() {
            if code_of_row(row) == code {
                return Some(row);
            }
        }
        None
    }

    // The event in a row, if it is available.
    fn event_in(&self, row: Option<u32>) -> Result<EventRef, Code>
        ensures event { result ≡ preset_looked_up self.now.book row }
        ensures named { IsNamed self.now.book (shape_of self.now.tables) result }
    {
        let Some(row) = row else {
            return Err(Code::Enoevnt);
        };
        match self.book.get(row) {
            Some(_) => Ok(EventRef::Preset(row)),
            None => Err(Code::Enoevnt),
        }
    }

    /// The event that a text names, PAPI_event_name_to_code(3), or the code that refuses it.
    ///
    /// A text that begins with `PAPI_` is the symbol of a preset. Any other text that is exactly the name of a user event is that
    /// event. Both are Enoevnt if the event is not available, and the first also if it is not a symbol of the table. Any other text
    /// is the name of a native event.
    pub fn lookup(&self, text: &str) -> Result<EventRef, Code>
        ensures event { result ≡ looked_up self.now text.now }
        ensures named { IsNamed self.now.book (shape_of self.now.tables) result }
    {
        if is_symbol(text) {
            return self.event_in(preset_row(text));
        }
        let row = row_of_name(self.names.as_slice(), text);
        if row.is_some() {
            return self.event_in(row);
        }
        match encode(&self.tables, text) {
            Ok(native) => Ok(EventRef::Native(native)),
            Err(fault) => Err(cause_code(fault)),
        }
    }

    /// What an event is called: a preset by its symbol, a user event by its name, a native event by its canonical name,
    /// PAPI_event_code_to_name(3).
    pub fn event_name(&self, alloc: Global, event: &EventRef) -> Result<String, AllocError>
        ensures name { IfOk result
            (λ name. string_bytes name ≡ EventNames.event_name self.now event.now) }
    {
        match event {
            EventRef::Preset(row) => String::from_str(alloc, self.name_or_empty(*row)),
            EventRef::Native(native) => write_name(alloc, &self.tables, native),
        }
    }

    // The symbol or name in a row, and an empty text if there is no such row.
    fn name_or_empty(&self, row: u32) -> &str
        ensures { result.now ≡ row_name self.now row }
    {
        if row < self.rows() {
            self.name(row)
        } else {
            ""
        }
    }
}
