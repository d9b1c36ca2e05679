//! Decimal and hexadecimal numbers.

ghost use Rattle.std.specs.Prelude.{◌≡◌, ◌≤◌, ◌<◌, ◌^◌, true, Some, None, if◌then◌else◌, nat_lt};
ghost use Rattle.std.specs.List.{list_all};
ghost use Rattle.std.specs.Str.Parse.{digits_value};
ghost use Rattle.papi_base.specs.Numerals as Numerals;

use crate::word::utf8_text;

fn is_digit(b: u8) -> bool
    ensures { result ≡ Numerals.is_digit b }
{
    48 <= b && b <= 57
}

fn is_hex_digit(b: u8) -> bool
    ensures { result ≡ Numerals.is_hex_digit b }
{
    (b as char).is_digit(16)
}

fn are_digits(bytes: &[u8]) -> bool
    ensures { result ≡ list_all Numerals.is_digit bytes.now }
{
    bytes.iter().all(|&b| is_digit(b))
}

fn are_hex_digits(bytes: &[u8]) -> bool
    ensures { result ≡ list_all Numerals.is_hex_digit bytes.now }
{
    bytes.iter().all(|&b| is_hex_digit(b))
}

/// Whether bytes are one or more decimal digits.
#[tactic(auto, unfolding(papi_base::specs::Numerals::is_numeral))]
pub fn is_numeral(bytes: &[u8]) -> bool
    ensures { result ≡ Numerals.is_numeral bytes.now }
{
    are_digits(bytes) && bytes.len() > 0
}

/// Whether bytes are a decimal number without leading zeros, of any size.
#[tactic(auto, unfolding(papi_base::specs::Numerals::is_decimal, papi_base::specs::Numerals::is_numeral))]
pub fn is_decimal(bytes: &[u8]) -> bool
    ensures { result ≡ Numerals.is_decimal bytes.now }
{
    are_digits(bytes) && bytes.len() > 0 && (bytes.len() == 1 || bytes[0] != b'0')
}

/// The value of decimal digits, and `None` if it needs more than 64 bits.
pub fn numeral_value(digits: &[u8]) -> Option<u64>
    requires { Numerals.is_numeral digits.now ≡ true }
    ensures { result ≡ (if nat_lt (digits_value 10 digits.now) (2 ^ 64)
        then Some (digits_value 10 digits.now) else None) }
{
    let mut value: u64 = 0;
    for &byte in digits {
        let digit = u64::from(byte - b'0');
        if value > (u64::MAX - digit) / 10 {
            return None;
        }
        value = value * 10 + digit;
    }
    Some(value)
}

/// The decimal number without leading zeros that bytes are, if it is in the range, and else `None`.
#[tactic(auto, unfolding(papi_base::specs::Numerals::decimal_in))]
pub fn decimal_in(low: u64, high: u64, bytes: &[u8]) -> Option<u64>
    ensures { result ≡ Numerals.decimal_in low high bytes.now }
{
    if !is_decimal(bytes) {
        return None;
    }
    match numeral_value(bytes) {
        Some(n) if low <= n && n <= high => Some(n),
        _ => None,
    }
}

/// The number that bytes are as hexadecimal digits of either case, at least `few` and at most `many`, and else `None`.
#[tactic(auto, unfolding(papi_base::specs::Numerals::hex_in))]
pub fn hex_in(few: usize, many: usize, bytes: &[u8]) -> Option<u64>
    requires some { 1 ≤ few }
    requires fits { many ≤ 16 }
    ensures { result ≡ Numerals.hex_in few many bytes.now }
{
    if !are_hex_digits(bytes) || bytes.len() < few || many < bytes.len() {
        return None;
    }
    u64::from_str_radix(utf8_text(bytes), 16).ok()
}
