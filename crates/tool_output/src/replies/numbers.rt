//! Words and decimal numbers.

ghost use Rattle.std.specs.Prelude.{◌≡◌, ◌≤◌, ◌+◌, ◌++◌, ◌∷◌, IsUtf8, OnOk, decimal, drop, length, string_bytes};

use itoa::{Buffer, Integer, write_digits};
use std::alloc::AllocError;

/// Appends what was gathered at the end of these bytes, from a place on.
pub(crate) fn push_from(text: &mut String, bytes: &[u8], at: usize) -> Result<(), AllocError>
    requires place { at ≤ length bytes.now }
    requires text { IsUtf8 (drop at bytes.now) }
    ensures { OnOk result (string_bytes text.new ≡ string_bytes text.old ++ drop at bytes.now) }
{
    let gathered = unsafe { str::from_utf8_unchecked(&bytes[at..]) };
    text.push_str(gathered)
}

/// Writes a number so that it ends at a place, and says where it begins. Most numbers have one digit.
#[inline(always)]
pub(crate) fn write_decimal(number: u64, bytes: &mut [u8], end: usize) -> usize
    requires room { length (decimal number) ≤ end }
    requires inside { end ≤ length bytes.old }
    ensures length { length bytes.new ≡ length bytes.old }
    ensures start { result + length (decimal number) ≡ end }
    ensures written { drop result bytes.new ≡ decimal number ++ drop end bytes.old }
{
    if number < 10 {
        bytes[end - 1] = b'0' + number as u8;
        return end - 1;
    }
    write_digits(number, bytes, end)
}

/// Appends a space and a number.
pub(crate) fn push_number<I: Integer>(text: &mut String, number: I) -> Result<(), AllocError>
    ensures { OnOk result (string_bytes text.new
        ≡ string_bytes text.old ++ 32 ∷ I.text number) }
{
    text.push(' ')?;
    text.push_str(Buffer::new().format(number))
}

/// Appends a space and a word.
pub(crate) fn push_word(text: &mut String, word: &str) -> Result<(), AllocError>
    ensures { OnOk result (string_bytes text.new ≡ string_bytes text.old ++ 32 ∷ word.now) }
{
    text.push(' ')?;
    text.push_str(word)
}
