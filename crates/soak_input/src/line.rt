//! A line of a stream, as text.
ghost use Rattle.std.specs.Prelude.{◌≡◌, ◌<◌, ◌≤◌, ◌+◌, ◌++◌, decimal, false, length};
ghost use Rattle.std.specs.Fmt.{digit_glyph};
ghost use Rattle.arrayvec.specs.ArrayVec.{array_vec_len};
ghost use Rattle.soak_input.specs.Streams.{line_text, mode_text, six_digits, two_digits};

use crate::Occurrence;
use crate::limits::LINE_BYTES;
use arrayvec::ArrayVec;
use itoa::Buffer;

/// The text of a line, with its newline.
pub type Line = ArrayVec<u8, LINE_BYTES>;

fn append(line: &mut Line, text: &[u8])
    requires { array_vec_len line.old + length text.now ≤ LINE_BYTES }
    ensures text { line.new.items ≡ line.old.items ++ text.now }
    ensures length { array_vec_len line.new ≡ array_vec_len line.old + length text.now }
{
    let _ = line.try_extend_from_slice(text);
}

fn hex_digit(number: u8) -> u8
    requires { number < 16 }
    ensures { result ≡ digit_glyph false number }
{
    if number < 10 {
        b'0' + number
    } else {
        b'a' + (number - 10)
    }
}

// Appends two hexadecimal digits.
fn append_byte(line: &mut Line, byte: u8)
    requires { array_vec_len line.old + 2 ≤ LINE_BYTES }
    ensures text { line.new.items ≡ line.old.items ++ two_digits byte }
    ensures length { array_vec_len line.new ≡ array_vec_len line.old + 2 }
{
    line.push(hex_digit(byte / 16));
    line.push(hex_digit(byte % 16));
}

// Appends a number in decimal.
fn append_number(line: &mut Line, number: u8)
    requires { array_vec_len line.old + 3 ≤ LINE_BYTES }
    ensures text { line.new.items ≡ line.old.items ++ decimal number }
    ensures length { array_vec_len line.new ≤ array_vec_len line.old + 3 }
{
    let mut buffer = Buffer::new();
    append(line, buffer.format(number).as_bytes());
}

// Appends the last six hexadecimal digits.
fn append_counter(line: &mut Line, counter: u32)
    requires { array_vec_len line.old + 6 ≤ LINE_BYTES }
    ensures text { line.new.items ≡ line.old.items ++ six_digits counter }
    ensures length { array_vec_len line.new ≡ array_vec_len line.old + 6 }
{
    append_byte(line, (counter / 65536 % 256) as u8);
    append_byte(line, (counter / 256 % 256) as u8);
    append_byte(line, (counter % 256) as u8);
}

fn mode_text(is_kernel: bool) -> &'static [u8]
    ensures text { result.now ≡ mode_text is_kernel }
    ensures length { length result.now ≡ 3 }
{
    if is_kernel { b" k " } else { b" u " }
}

/// The line of an occurrence.
#[tactic(auto, unfolding(crate::specs::Streams::line_text))]
pub fn line_text(occurrence: &Occurrence) -> Line
    ensures text { result.items ≡ line_text occurrence.now }
    ensures some { 0 < array_vec_len result }
{
    let mut line = ArrayVec::new();
    append(&mut line, b"0 ");
    append_byte(&mut line, occurrence.select);
    append(&mut line, b" ");
    append_byte(&mut line, occurrence.umask);
    append(&mut line, mode_text(occurrence.is_kernel));
    append_number(&mut line, occurrence.amount);
    append(&mut line, b" ");
    append_counter(&mut line, occurrence.program_counter);
    append(&mut line, b"\n");
    line
}
