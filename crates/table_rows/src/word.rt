//! Names and printable texts.

ghost use Rattle.std.specs.Prelude.{◌≡◌, if◌then◌else◌, option_map, IsUtf8, Some, None};
ghost use Rattle.std.specs.List.{list_all};
ghost use Rattle.table_rows.specs.Texts as Texts;

use crate::limits::LONGEST_NAME;

fn is_name_byte(b: u8) -> bool
    ensures { result ≡ Texts.is_name_byte b }
{
    (48 <= b && b <= 57) || (65 <= b && b <= 90) || (97 <= b && b <= 122) || b == b'_' || b == b'-'
}

fn is_printable_byte(b: u8) -> bool
    ensures { result ≡ Texts.is_printable_byte b }
{
    32 <= b && b <= 126
}

fn are_name_bytes(bytes: &[u8]) -> bool
    ensures { result ≡ list_all Texts.is_name_byte bytes.now }
{
    bytes.iter().all(|&b| is_name_byte(b))
}

/// Whether bytes are a name: 1 to [`LONGEST_NAME`] letters, digits, `_` and `-`.
#[tactic(auto, unfolding(crate::specs::Texts::is_name))]
pub fn is_name(bytes: &[u8]) -> bool
    ensures { result ≡ Texts.is_name bytes.now }
{
    1 <= bytes.len() && bytes.len() <= LONGEST_NAME && are_name_bytes(bytes)
}

/// Whether each byte is printable ASCII, from a space to `~`.
pub fn is_printable(bytes: &[u8]) -> bool
    ensures { result ≡ Texts.is_printable bytes.now }
{
    bytes.iter().all(|&b| is_printable_byte(b))
}

// Bytes as the text that they are.
pub(crate) fn utf8_text(bytes: &[u8]) -> &str
    requires { IsUtf8 bytes.now }
    ensures { result.now ≡ bytes.now }
{
    str::from_utf8(bytes).unwrap()
}

/// The text of bytes that are a name, and `None` if they are not.
pub fn name_text(bytes: &[u8]) -> Option<&str>
    ensures { option_map (λ s. s.now) result
        ≡ (if Texts.is_name bytes.now then Some bytes.now else None) }
{
    if is_name(bytes) {
        Some(utf8_text(bytes))
    } else {
        None
    }
}

/// The text of bytes that are printable ASCII, and `None` if some byte is not.
pub fn printable_text(bytes: &[u8]) -> Option<&str>
    ensures { option_map (λ s. s.now) result
        ≡ (if Texts.is_printable bytes.now then Some bytes.now else None) }
{
    if is_printable(bytes) {
        Some(utf8_text(bytes))
    } else {
        None
    }
}
