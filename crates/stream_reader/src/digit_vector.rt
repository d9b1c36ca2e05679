//! Hexadecimal digits, sixteen at a time: the bytes are the lanes of a vector, the first byte the first lane.
ghost use Rattle.std.specs.Prelude.{◌≡◌, ◌≤◌, ◌+◌, ◌%◌, length, map};
ghost use Rattle.std.specs.List.{prefix_len};
ghost use Rattle.stream_reader.specs.declared.limits.TheConstants.{MOST_HEX_DIGITS};
ghost use Rattle.stream_reader.specs.Digits.{HaveValues, IsHexadecimal, is_value, number_after};

use crate::field::Field;
use std::simd::prelude::*;

// The value of each lane that is a hexadecimal digit in either case, and 16 or more for the others.
//
// `digit` has the values of 0 to 9, by way of 246 to 255 and 240 to 249, and `letter` those of the letters. Both have 16 or more for
// all other bytes, so the smaller one is the value.
#[inline(always)]
#[tactic(auto, using(crate::proofs::DigitLanes::lanes_values))]
fn digits_or_more(bytes: u8x16) -> u8x16
    ensures { HaveValues bytes result }
{
    let from_246 = bytes + u8x16::splat(255 - b'9');
    let digit = from_246.saturating_sub(u8x16::splat(6)) - u8x16::splat(240);
    let capital = bytes & u8x16::splat(0xdf);
    let letter = (capital - u8x16::splat(b'A')).simd_min(u8x16::splat(200)) + u8x16::splat(10);
    digit.simd_min(letter)
}

// How many digits come before the first lane that is not one.
#[inline(always)]
#[tactic(auto, using(crate::proofs::DigitRuns::run_all, crate::proofs::DigitRuns::run_some, crate::proofs::DigitRuns::run_most))]
fn leading_digits(values: u8x16) -> usize
    ensures value { result ≡ prefix_len is_value values }
    ensures most { result ≤ MOST_HEX_DIGITS }
{
    let others = values.simd_ge(u8x16::splat(16)).to_bitmask();
    if others == 0 {
        16
    } else {
        others.trailing_zeros() as usize
    }
}

// The number of sixteen digits, the first of them the highest. Each pair of digits becomes a byte: a lane of 16 bits has the first
// digit in its low byte, and 4097 is 16 * 256 + 1, so the product has 16 times the first and the second in its high byte.
#[inline(always)]
#[tactic(auto, using(crate::proofs::JoinedDigits::joined_value))]
fn joined(values: u8x16) -> u64
    ensures { result ≡ number_after 0 (map (λ value. value % 16) values) }
{
    let pairs = u16x8::from_le_bytes(values & u8x16::splat(15));
    let bytes: u8x8 = ((pairs * u16x8::splat(4097)) >> u16x8::splat(8)).cast();
    u64::from_be_bytes(bytes.to_array())
}

/// The number of the hexadecimal digits from this place on, at most sixteen, and how many they are.
#[inline(always)]
pub(crate) fn hexadecimal_at(text: &[u8], place: usize) -> Field
    requires { place + MOST_HEX_DIGITS ≤ length text.now }
    ensures { IsHexadecimal text.now place result }
{
    let values = digits_or_more(u8x16::from_slice(&text[place..]));
    let size = leading_digits(values);
    if size == 0 {
        return Field { value: 0, size };
    }
    Field {
        value: joined(values) >> (64 - 4 * size),
        size,
    }
}
