//! Where a line ends.
ghost use Rattle.std.specs.Prelude.{◌≡◌, ◌≤◌, ◌==◌, not, length, take};
ghost use Rattle.std.specs.List.{prefix_len};
ghost use Rattle.stream_reader.specs.Inside.{FindsNewline};

use memchr::memchr;
use std::simd::prelude::*;

// How many bytes are looked at first: most lines are shorter.
const NEAR: usize = 32;

// How many of the first bytes come before the first newline among them.
#[inline(always)]
fn before_newline(text: &[u8]) -> usize
    requires { NEAR ≤ length text.now }
    ensures { result ≡ prefix_len (λ b. not (b == 10)) (take NEAR text.now) }
{
    let newlines = u8x32::from_slice(text)
        .simd_eq(u8x32::splat(b'\n'))
        .to_bitmask();
    if newlines == 0 {
        NEAR
    } else {
        newlines.trailing_zeros() as usize
    }
}

/// The length of the line that a text begins with, if a newline ends it.
#[inline(always)]
pub(crate) fn line_len(text: &[u8]) -> Option<usize>
    ensures { FindsNewline text.now result }
{
    if text.len() >= NEAR {
        let size = before_newline(text);
        if size < NEAR {
            return Some(size);
        }
    }
    memchr(b'\n', text)
}
