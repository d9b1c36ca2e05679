//! The values of events.

ghost use Rattle.std.specs.Prelude.{◌≡◌, ◌+◌, ◌*◌, ◌<◌, ◌≤◌, ◌++◌, ◌∷◌, IsAscii, OnOk, Some, drop, length, map, slice_get, string_bytes, take};
ghost use Rattle.std.specs.Fmt.{signed_decimal};
ghost use Rattle.tool_output.specs.Replies.{spaced};
ghost use Rattle.tool_output.specs.declared.replies.values.TheConstants.{LONGEST_LIST, LONGEST_VALUE};

use crate::replies::numbers::{push_from, write_decimal};
use papi_base::{MOST_SET_EVENTS, Values};
use std::alloc::AllocError;

/// The bytes of the longest value: a space, a sign and 19 digits.
pub(crate) const LONGEST_VALUE: usize = 21;

/// The bytes of the longest list of values.
pub(crate) const LONGEST_LIST: usize = LONGEST_VALUE * MOST_SET_EVENTS;

// Writes a value so that it ends at a place, and says where it begins.
fn write_signed(value: i64, bytes: &mut [u8], end: usize) -> usize
    requires room { LONGEST_VALUE ≤ end }
    requires inside { end ≤ length bytes.old }
    ensures length { length bytes.new ≡ length bytes.old }
    ensures near { end + 1 ≤ result + LONGEST_VALUE }
    ensures before { result ≤ end }
    ensures written { drop result bytes.new ≡ signed_decimal value ++ drop end bytes.old }
{
    let start = write_decimal(value.unsigned_abs(), bytes, end);
    if value >= 0 {
        return start;
    }
    bytes[start - 1] = b'-';
    start - 1
}

// Writes a space and a value so that they end at a place, and says where they begin.
fn write_value(value: i64, bytes: &mut [u8], end: usize) -> usize
    requires room { LONGEST_VALUE ≤ end }
    requires inside { end ≤ length bytes.old }
    ensures length { length bytes.new ≡ length bytes.old }
    ensures near { end ≤ result + LONGEST_VALUE }
    ensures before { result ≤ end }
    ensures written { 32 ∷ (signed_decimal value ++ drop end bytes.old) ≡ drop result bytes.new }
    ensures ascii { IsAscii (drop end bytes.old) → IsAscii (drop result bytes.new) }
{
    let start = write_signed(value, bytes, end);
    bytes[start - 1] = b' ';
    start - 1
}

// The value at a place that is there.
#[inline(always)]
fn value_at(values: &[i64], i: usize) -> i64
    requires { i < length values.now }
    ensures { slice_get values.now i ≡ Some result }
{
    values[i]
}

/// Writes the values, each after a space, from the last one on, so that they end at a place, and says where they begin.
pub(crate) fn write_values(values: &[i64], bytes: &mut [u8], end: usize) -> usize
    requires room { LONGEST_VALUE * length values.now ≤ end }
    requires inside { end ≤ length bytes.old }
    ensures length { length bytes.new ≡ length bytes.old }
    ensures near { end ≤ result + LONGEST_VALUE * length values.now }
    ensures before { result ≤ end }
    ensures written { drop result bytes.new
        ≡ spaced (map signed_decimal values.now) ++ drop end bytes.old }
    ensures ascii { IsAscii (drop end bytes.old) → IsAscii (drop result bytes.new) }
{
    let mut at = end;
    for written in 0..values.len() {
        let value = value_at(values, values.len() - 1 - written);
        at = write_value(value, bytes, at);
    }
    at
}

/// The values in an array, at whose beginning they stand.
pub(crate) fn listed(values: &Values) -> [i64; MOST_SET_EVENTS]
    ensures { take (length values.now) result ≡ values.now }
{
    let mut items = [0; MOST_SET_EVENTS];
    for i in 0..values.len() {
        items[i as usize] = values.at(i);
    }
    items
}

/// Appends the values, each after a space. They are gathered from the last one on, and appended at once.
pub(crate) fn push_values(text: &mut String, values: &Values) -> Result<(), AllocError>
    ensures { OnOk result (string_bytes text.new
        ≡ string_bytes text.old ++ spaced (map signed_decimal values.now)) }
{
    let mut bytes = [0; LONGEST_LIST];
    let items = listed(values);
    let at = write_values(&items[..values.len() as usize], &mut bytes, LONGEST_LIST);
    push_from(text, &bytes, at)
}
