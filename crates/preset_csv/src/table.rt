//! The presets for one cpu.

use crate::Entry;
use std::marker::Model;

/// The presets for a cpu: an entry for each row of the preset table.
///
/// Contracts see the cpu's name and the list of entries. No row is read for a cpu whose name can stand in no field.
#[derive(Drop)]
pub struct PresetTable {
    cpu: String,
    rows: Vec<Entry>,
}

impl Model for PresetTable {
    ghost use Rattle.std.specs.Prelude.{string_bytes};
    ghost use Rattle.preset_csv.specs.Tables.{IsTable, TableView};

    ghost Value = { TableView };

    ghost view = { λ t. record { cpu = string_bytes t.cpu; rows = t.rows.items } };

    ghost invariant = { λ t. IsTable (record { cpu = string_bytes t.cpu; rows = t.rows.items }) };
}

impl PresetTable {
    ghost use Rattle.std.specs.Prelude.{◌≡◌, ◌<◌, set, string_bytes};
    ghost use Rattle.preset_csv.specs.declared.symbols.TheConstants.{PRESETS};
    ghost use Rattle.preset_csv.specs.Tables.{IsTable};
    ghost use Rattle.preset_csv.specs.declared.entry.Entry.TheVariants as entry;

    /// These entries for this cpu.
    pub fn new(cpu: String, rows: Vec<Entry>) -> PresetTable
        requires { IsTable (record { cpu = string_bytes cpu; rows = rows.items }) }
        ensures { result ≡ record { cpu = string_bytes cpu; rows = rows.items } }
    {
        PresetTable { cpu, rows }
    }

    /// The name of the cpu.
    pub fn cpu(&self) -> &str
        ensures cpu { result.now ≡ self.now.cpu }
    {
        self.cpu.as_str()
    }

    /// The entry of each row of the preset table.
    pub fn rows(&self) -> &[Entry]
        ensures rows { result.now ≡ self.now.rows }
        ensures kept { IsTable self.now }
    {
        self.rows.as_slice()
    }

    /// The entry of each row of the preset table, taken out.
    pub fn into_rows(self) -> Vec<Entry>
        ensures rows { result.items ≡ self.rows }
        ensures kept { IsTable self }
    {
        self.rows
    }

    /// Makes the entry of a row below [`PRESETS`](crate::PRESETS) a missing one.
    pub fn set_missing(&mut self, row: u32)
        requires { row < PRESETS }
        ensures { self.new ≡ record self.old { rows = set self.old.rows row entry.Missing } }
    {
        self.rows[row as usize] = Entry::Missing;
    }
}
