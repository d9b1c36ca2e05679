//! Names in lower case.

ghost use Rattle.std.specs.Prelude.{◌≡◌, true, Some, None, if◌then◌else◌};
ghost use Rattle.std.specs.Str.{str_to_ascii_lowercase};
ghost use Rattle.table_rows.specs.Texts.{is_name};

use arrayvec::ArrayString;
use std::marker::Model;
use table_rows::{LONGEST_NAME, name_text};

/// A name in lower case, by which the tables find an event without regard to ASCII case.
///
/// Contracts see its text.
#[derive(Drop)]
pub struct LowerName {
    text: ArrayString<LONGEST_NAME>,
}

impl Model for LowerName {
    ghost use Rattle.std.specs.Prelude.{ℕ, List};

    ghost Value = { List ℕ };

    ghost view = { λ n. n.text.bytes };
}

impl LowerName {
    /// Bytes that are a name in lower case, and `None` if they are not one.
    pub fn of(bytes: &[u8]) -> Option<LowerName>
        ensures { result ≡ (if is_name bytes.now then Some (str_to_ascii_lowercase bytes.now)
            else None) }
    {
        Some(LowerName::of_name(name_text(bytes)?))
    }

    /// A name in lower case.
    pub(crate) fn of_name(name: &str) -> LowerName
        requires { is_name name.now ≡ true }
        ensures { result ≡ str_to_ascii_lowercase name.now }
    {
        let mut text = ArrayString::new();
        for b in name.as_bytes() {
            text.push(b.to_ascii_lowercase() as char);
        }
        LowerName { text }
    }

    /// Its text.
    pub fn as_str(&self) -> &str
        ensures { result.now ≡ self.now }
    {
        self.text.as_str()
    }
}
