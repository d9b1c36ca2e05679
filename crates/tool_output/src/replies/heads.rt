//! What stands before the results of a reply, written from its end on.

ghost use Rattle.std.specs.Prelude.{◌≡◌, ◌<◌, ◌+◌, ◌*◌, ◌≤◌, ◌++◌, ◌∷◌, [], IsUtf8, decimal, drop, length};
ghost use Rattle.call_type.specs.CallNames.{word_of};
ghost use Rattle.papi_base.specs.Codes.{name_of};
ghost use Rattle.tool_output.specs.Replies.{spaced};
ghost use Rattle.tool_output.specs.declared.replies.heads.TheConstants.{HEAD_PARTS};
ghost use Rattle.tool_output.specs.declared.replies.values.TheConstants.{LONGEST_VALUE};

use crate::replies::numbers::write_decimal;
use crate::replies::values::LONGEST_VALUE;
use call_type::{CallName, call_word};
use papi_base::{Code, code_name};

/// The number of a line, its thread, its call and the reply's code: none is longer than the longest value.
pub(crate) const HEAD_PARTS: usize = 4;

// Writes a space and a word so that they end at a place, and says where they begin.
#[inline(always)]
fn write_word(word: &str, bytes: &mut [u8], end: usize) -> usize
    requires room { LONGEST_VALUE ≤ end }
    requires short { length word.now < LONGEST_VALUE }
    requires inside { end ≤ length bytes.old }
    ensures length { length bytes.new ≡ length bytes.old }
    ensures near { end ≤ result + LONGEST_VALUE }
    ensures before { result ≤ end }
    ensures written { drop result bytes.new ≡ 32 ∷ (word.now ++ drop end bytes.old) }
    ensures text { IsUtf8 (drop end bytes.old) → IsUtf8 (drop result bytes.new) }
{
    let start = end - word.len();
    bytes[start..end].copy_from_slice(word.as_bytes());
    bytes[start - 1] = b' ';
    start - 1
}

/// Writes a space and a number so that they end at a place, and says where they begin.
#[inline(always)]
pub(crate) fn write_count(number: u64, bytes: &mut [u8], end: usize) -> usize
    requires room { LONGEST_VALUE ≤ end }
    requires inside { end ≤ length bytes.old }
    ensures length { length bytes.new ≡ length bytes.old }
    ensures near { end ≤ result + LONGEST_VALUE }
    ensures before { result ≤ end }
    ensures written { drop result bytes.new ≡ 32 ∷ (decimal number ++ drop end bytes.old) }
    ensures text { IsUtf8 (drop end bytes.old) → IsUtf8 (drop result bytes.new) }
{
    let start = write_decimal(number, bytes, end);
    bytes[start - 1] = b' ';
    start - 1
}

/// Writes a space and the name of a code so that they end at a place, and says where they begin.
#[inline(always)]
pub(crate) fn write_code(code: Code, bytes: &mut [u8], end: usize) -> usize
    requires room { LONGEST_VALUE ≤ end }
    requires inside { end ≤ length bytes.old }
    ensures length { length bytes.new ≡ length bytes.old }
    ensures near { end ≤ result + LONGEST_VALUE }
    ensures before { result ≤ end }
    ensures written { drop result bytes.new ≡ 32 ∷ (name_of code ++ drop end bytes.old) }
    ensures text { IsUtf8 (drop end bytes.old) → IsUtf8 (drop result bytes.new) }
{
    match code {
        Code::Ok => write_word("PAPI_OK", bytes, end),
        _ => write_word(code_name(code), bytes, end),
    }
}

// Writes a space and the word of a call so that they end at a place, and says where they begin.
#[inline(always)]
fn write_call(word: CallName, bytes: &mut [u8], end: usize) -> usize
    requires room { LONGEST_VALUE ≤ end }
    requires inside { end ≤ length bytes.old }
    ensures length { length bytes.new ≡ length bytes.old }
    ensures near { end ≤ result + LONGEST_VALUE }
    ensures before { result ≤ end }
    ensures written { drop result bytes.new ≡ 32 ∷ (word_of word ++ drop end bytes.old) }
    ensures text { IsUtf8 (drop end bytes.old) → IsUtf8 (drop result bytes.new) }
{
    match word {
        CallName::Read => write_word("read", bytes, end),
        CallName::Accum => write_word("accum", bytes, end),
        CallName::Run => write_word("run", bytes, end),
        _ => write_word(call_word(word), bytes, end),
    }
}

/// Writes what stands before the results so that it ends at a place, and says where it begins.
#[inline(always)]
pub(crate) fn write_head(
    line: u64,
    thread: u32,
    word: CallName,
    code: Code,
    bytes: &mut [u8],
    end: usize,
) -> usize
    requires room { HEAD_PARTS * LONGEST_VALUE ≤ end }
    requires inside { end ≤ length bytes.old }
    ensures length { length bytes.new ≡ length bytes.old }
    ensures before { result ≤ end }
    ensures written { drop result bytes.new
        ≡ decimal line ++ (spaced (decimal thread ∷ word_of word ∷ name_of code ∷ [])
        ++ drop end bytes.old) }
    ensures text { IsUtf8 (drop end bytes.old) → IsUtf8 (drop result bytes.new) }
{
    let code_at = write_code(code, bytes, end);
    let word_at = write_call(word, bytes, code_at);
    let thread_at = write_count(u64::from(thread), bytes, word_at);
    write_decimal(line, bytes, thread_at)
}
