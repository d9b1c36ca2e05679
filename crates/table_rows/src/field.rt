//! One field of a row.

ghost use Rattle.std.specs.Prelude.{◌≡◌, reverse};
ghost use Rattle.csv.specs.Records.{fields_of};
ghost use Rattle.table_rows.specs.Texts as Texts;

use csv::ByteRecord;

/// Whether a byte is a space or a tab.
pub fn is_blank(b: u8) -> bool
    ensures { result ≡ Texts.is_blank b }
{
    b == b' ' || b == b'\t'
}

// The bytes after the spaces and tabs.
fn without_front(bytes: &[u8]) -> &[u8]
    ensures { result.now ≡ Texts.without_front bytes.now }
{
    for i in 0..bytes.len() {
        if !is_blank(bytes[i]) {
            return &bytes[i..];
        }
    }
    &[]
}

// The bytes before the spaces and tabs at the end.
fn without_back(bytes: &[u8]) -> &[u8]
    ensures { result.now ≡ reverse (Texts.without_front (reverse bytes.now)) }
{
    let mut n = bytes.len();
    while n > 0 {
        if !is_blank(bytes[n - 1]) {
            return &bytes[..n];
        }
        n -= 1;
    }
    &[]
}

/// The bytes without the spaces and tabs at either end.
#[tactic(auto, unfolding(crate::specs::Texts::trimmed))]
pub fn trimmed(bytes: &[u8]) -> &[u8]
    ensures { result.now ≡ Texts.trimmed bytes.now }
{
    without_back(without_front(bytes))
}

/// The field at a place from 0, trimmed, and nothing if the row has none.
#[tactic(auto, unfolding(crate::specs::Texts::text_at))]
pub fn text_at(row: &ByteRecord, i: usize) -> &[u8]
    ensures { result.now ≡ Texts.text_at (fields_of row.now) i }
{
    match row.get(i) {
        Some(field) => trimmed(field),
        None => &[],
    }
}

/// Whether a row with this trimmed first field is skipped: it is empty, or begins with `#`.
pub fn is_skipped(first: &[u8]) -> bool
    ensures { result ≡ Texts.is_skipped first.now }
{
    first.len() == 0 || first[0] == b'#'
}
