//! One row of a map, by itself.

ghost use Rattle.std.specs.Prelude.{◌≡◌};
ghost use Rattle.csv.specs.Records.{fields_of};
ghost use Rattle.profil_hist.specs.Lines as Lines;
ghost use Rattle.profil_hist.specs.Lines.{line_of, line_or_bad, row_line};
ghost use Rattle.table_rows.specs.Texts as Texts;
ghost use Rattle.profil_hist.specs.declared.limits.TheConstants.{MOST_BUCKETS, MOST_BUCKET_ADDRESSES};

use crate::limits::{MOST_BUCKET_ADDRESSES, MOST_BUCKETS};
use table_rows::{ByteRecord, decimal_in, hex_in, is_skipped, name_text, text_at};

/// A row by its kind.
#[derive(Clone, Copy)]
pub enum Row<'r> {
    Skipped,
    Bad,
    Range {
        name: &'r str,
        start: u64,
        width: u32,
        buckets: u32,
    },
}

// The address that `0x` and hexadecimal digits write.
#[tactic(auto, unfolding(crate::specs::Lines::address_in))]
fn address_in(text: &[u8]) -> Option<u64>
    ensures { result ≡ Lines.address_in text.now }
{
    if text.starts_with(b"0x") {
        hex_in(1, 16, &text[2..])
    } else {
        None
    }
}

fn width_in(text: &[u8]) -> Option<u32>
    ensures { result ≡ Texts.decimal_in 1 MOST_BUCKET_ADDRESSES text.now }
{
    Some(decimal_in(1, MOST_BUCKET_ADDRESSES as u64, text)? as u32)
}

fn buckets_in(text: &[u8]) -> Option<u32>
    ensures { result ≡ Texts.decimal_in 1 MOST_BUCKETS text.now }
{
    Some(decimal_in(1, MOST_BUCKETS as u64, text)? as u32)
}

// Whether a range that starts here and has n addresses, one or more, ends at 2^64 or below.
fn fits(start: u64, width: u32, buckets: u32) -> bool
    ensures { result ≡ Lines.fits start width buckets }
{
    let span = width as u64 * buckets as u64;
    span == 0 || span - 1 <= u64::MAX - start
}

fn range_row<'r>(name: &'r [u8], start: &[u8], width: &[u8], buckets: &[u8]) -> Option<Row<'r>>
    ensures { line_or_bad result ≡ Lines.range_line name.now start.now width.now buckets.now }
{
    let start = address_in(start)?;
    let width = width_in(width)?;
    let buckets = buckets_in(buckets)?;
    let name = name_text(name)?;
    fits(start, width, buckets).then_some(Row::Range {
        name,
        start,
        width,
        buckets,
    })
}

/// What a record says, by itself.
#[tactic(auto, unfolding(crate::specs::Lines::line_of))]
pub fn row_of(row: &ByteRecord) -> Row<'_>
    ensures { row_line result ≡ line_of (fields_of row.now) }
{
    let first = text_at(row, 0);
    if is_skipped(first) {
        return Row::Skipped;
    }
    if first == b"RANGE".as_slice() && row.len() == 5 {
        return range_row(
            text_at(row, 1),
            text_at(row, 2),
            text_at(row, 3),
            text_at(row, 4),
        )
        .unwrap_or(Row::Bad);
    }
    Row::Bad
}
