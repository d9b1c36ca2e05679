//! The fields of a line, each read in one pass up to its space.
ghost use Rattle.std.specs.Prelude.{◌≡◌, ◌<◌, ◌≤◌, ◌^◌, length, Some, None, IfSome, IfNone, if◌then◌else◌, nat_lt, slice_index};
ghost use Rattle.std.specs.Char.{digit_value};
ghost use Rattle.std.specs.Option.{option_map, option_copied};
ghost use Rattle.papi_base.specs.Numerals.{decimal_in, hex_in, is_hex_digit};
ghost use Rattle.stream_reader.specs.declared.limits.TheConstants.{MOST_HEX_DIGITS};
ghost use Rattle.stream_reader.specs.Judged.{mode_of};
ghost use Rattle.stream_reader.specs.Fields.{first_field, after_field, digits_on, has_form, hex_on, is_one_byte};

use crate::byte_tables::digit_or_256;

/// The number that a field writes, and the field's length.
#[derive(Clone, Copy)]
pub(crate) struct Field {
    pub value: u64,
    pub size: usize,
}

// The number of a field of decimal digits. One that is too large may be given or not.
#[inline(always)]
fn digits(text: &[u8], greatest: u64) -> Option<Field>
    requires { greatest < 2 ^ 32 }
    ensures large { IfNone result (IfSome (digits_on 0 text.now) (λ n. greatest < n)) }
    ensures value { IfSome result (λ f. digits_on 0 text.now ≡ Some f.value) }
    ensures size { IfSome result (λ f. f.size ≡ length (first_field text.now)) }
    ensures within { IfSome result (λ f. f.size ≤ length text.now) }
{
    let mut value: u64 = 0;
    for (size, byte) in text.iter().enumerate() {
        let byte = *byte;
        if byte == b' ' {
            return Some(Field { value, size });
        }
        if byte < b'0' || byte > b'9' || value > greatest {
            return None;
        }
        value = value * 10 + u64::from(byte - b'0');
    }
    Some(Field {
        value,
        size: text.len(),
    })
}

/// Whether a field of digits is not empty and has no leading zero.
#[inline(always)]
pub(crate) fn has_form(text: &[u8], size: usize) -> bool
    requires { size ≤ length text.now }
    ensures { result ≡ has_form size (slice_index text.now 0) }
{
    size == 1 || (size > 1 && text[0] != b'0')
}

/// A decimal number without leading zeros, in a range.
#[inline(always)]
pub(crate) fn decimal(text: &[u8], least: u64, greatest: u64) -> Option<Field>
    requires { greatest < 2 ^ 32 }
    ensures value { option_map (λ f. f.value) result
        ≡ decimal_in least greatest (first_field text.now) }
    ensures size { IfSome result (λ f. f.size ≡ length (first_field text.now)) }
    ensures most { IfSome result (λ f. f.value ≤ greatest) }
{
    let field = digits(text, greatest)?;
    if !has_form(text, field.size) {
        return None;
    }
    if least <= field.value && field.value <= greatest {
        return Some(field);
    }
    None
}

// The value of a hexadecimal digit in either case.
#[inline(always)]
fn hex_digit(byte: u8) -> Option<u64>
    ensures { result ≡ (if is_hex_digit byte then Some (digit_value byte) else None) }
{
    let value = digit_or_256(byte);
    if value < 16 {
        Some(u64::from(value))
    } else {
        None
    }
}

/// The number of hexadecimal digits, at least `few` and at most `many`.
#[inline(always)]
pub(crate) fn hexadecimal(text: &[u8], few: usize, many: usize) -> Option<Field>
    requires { many ≤ MOST_HEX_DIGITS }
    ensures value { option_map (λ f. f.value) result ≡ hex_in few many (first_field text.now) }
    ensures size { IfSome result (λ f. f.size ≡ length (first_field text.now)) }
    ensures most { IfSome result (λ f. (f.value < 16 ^ f.size) × (few ≤ f.size) × (f.size ≤ many)) }
{
    let most = text.len().min(many);
    let mut value: u64 = 0;
    let mut size = 0;
    while size < most {
        match hex_digit(text[size]) {
            Some(digit) => value = value * 16 + digit,
            None => break,
        }
        size += 1;
    }
    if size < few || (size < text.len() && text[size] != b' ') {
        return None;
    }
    Some(Field { value, size })
}

// Whether the first field is one byte, unless that is a space.
#[inline(always)]
fn is_one_byte(text: &[u8]) -> bool
    ensures { result ≡ is_one_byte (length text.now) (slice_index text.now 1) }
{
    text.len() == 1 || (text.len() > 1 && text[1] == b' ')
}

/// The mode, `u` or `k`: whether it is the kernel's.
#[inline(always)]
pub(crate) fn mode(text: &[u8]) -> Option<bool>
    ensures { result ≡ mode_of (first_field text.now) }
{
    if !is_one_byte(text) {
        return None;
    }
    match text[0] {
        b'u' => Some(false),
        b'k' => Some(true),
        _ => None,
    }
}

/// The text after the space that ends the first field, which has this length.
#[inline(always)]
pub(crate) fn after_field(text: &[u8], size: usize) -> Option<&[u8]>
    requires { size ≡ length (first_field text.now) }
    ensures { option_map (λ rest. rest.now) result ≡ after_field text.now }
{
    if size < text.len() {
        Some(&text[size + 1..])
    } else {
        None
    }
}
