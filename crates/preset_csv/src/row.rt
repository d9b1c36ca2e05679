//! One row of a preset file, by its kind.

ghost use Rattle.std.specs.Prelude.{◌≡◌};
ghost use Rattle.csv.specs.Records.{fields_of};
ghost use Rattle.preset_csv.specs.Lines.{line_of, row_line};
ghost use Rattle.table_rows.specs.Rows.{IsReadRow};
ghost use Rattle.preset_csv.specs.Steps.{IsPlainRow};

use table_rows::{ByteRecord, text_at};

/// A row by its kind; one that is skipped is `Other`. A CPU row has the cpu's name.
#[derive(Clone, Copy)]
pub enum Row<'r> {
    Other,
    Cpu(&'r [u8]),
    Preset(&'r ByteRecord),
    Event(&'r ByteRecord),
}

/// What a record is in a file of presets alone, by its first field, without regard to ASCII case.
#[tactic(auto, unfolding(crate::specs::Lines::line_of))]
pub fn row_of(row: &ByteRecord) -> Row<'_>
    ensures line { row_line result ≡ line_of (fields_of row.now) }
    ensures plain { IsReadRow (fields_of row.now) → IsPlainRow result }
{
    let first = text_at(row, 0);
    if first.eq_ignore_ascii_case(b"CPU") {
        Row::Cpu(text_at(row, 1))
    } else if first.eq_ignore_ascii_case(b"PRESET") {
        Row::Preset(row)
    } else {
        Row::Other
    }
}
