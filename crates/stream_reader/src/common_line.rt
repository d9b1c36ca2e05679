//! Lines of the common form, read at fixed places: an occurrence of either version, and a newline, with a carriage return before it
//! or not. Every other line, good or bad, is left to `line`.
ghost use Rattle.std.specs.Prelude.{◌≡◌, ◌<◌, ◌≤◌, ◌+◌, ◌*◌, true, false, length, IfSome};
ghost use Rattle.stream_reader.specs.ByteTables.{digit_or_256};
ghost use Rattle.stream_reader.specs.CommonLines.{HasHeadSpaces, BeginsWithComponent, IsHead, IsAmount, IsAmountOf, IsFront, IsDigits, IsStamp, BeginsWith, EndsAt, occ_with};

use crate::byte_tables::{decimal_or_256, digit_or_256, mode_or_256};
use crate::digit_vector::hexadecimal_at;
use crate::field::{Field, has_form};
use crate::line::LineStart;
use papi_base::{LARGEST_AMOUNT, LAST_STAMP, Occ};

/// An occurrence, and the length of its line without the newline.
#[derive(Clone, Copy)]
pub(crate) struct CommonLine {
    pub occ: Occ,
    pub size: usize,
}

/// The fields between the component and the amount.
#[derive(Clone, Copy)]
pub(crate) struct Head {
    pub select: u8,
    pub umask: u8,
    pub kernel: bool,
}

/// The fields before the stamp, and the length of the line up to there.
#[derive(Clone, Copy)]
pub(crate) struct Front {
    pub comp: u8,
    pub head: Head,
    pub amount: u8,
    pub pc: u64,
    pub size: usize,
}

// The bytes between the component and the amount.
const HEAD: usize = 9;

// The bytes after the component in the longest line of version 1: the head, an amount of 3, a space, a program counter of 16 and the
// newline.
const LONGEST_REST: usize = HEAD + 3 + 1 + 16 + 1;

// The digits of the longest stamp.
const LONGEST_STAMP: usize = 10;

// The bytes of the longest line of version 1, with its newline. A line may have a carriage return more.
const LONGEST_NUMBERED: usize = 2 + LONGEST_REST;

// The bytes of the longest line of version 2, which has a space and the stamp more.
const LONGEST_STAMPED: usize = LONGEST_NUMBERED + 1 + LONGEST_STAMP;

// The component, if it has one digit.
#[inline(always)]
fn one_digit(text: &[u8]) -> Option<Field>
    requires { LONGEST_REST ≤ length text.now }
    ensures { IfSome result (λ comp. BeginsWithComponent text.now comp) }
{
    let digit = text[0].wrapping_sub(b'0');
    if digit > 9 {
        return None;
    }
    Some(Field {
        value: u64::from(digit),
        size: 1,
    })
}

// The component, if it has two digits.
#[inline(always)]
fn two_digits(text: &[u8]) -> Option<Field>
    requires { LONGEST_REST ≤ length text.now }
    ensures { IfSome result (λ comp. BeginsWithComponent text.now comp) }
{
    let digit = text[1].wrapping_sub(b'0');
    if text[0] != b'1' || digit > 5 {
        return None;
    }
    Some(Field {
        value: u64::from(10 + digit),
        size: 2,
    })
}

// Whether a space stands before and after each of the three fields between the component and the amount.
#[inline(always)]
fn has_head_spaces(text: &[u8]) -> bool
    requires { LONGEST_REST ≤ length text.now }
    ensures { result ≡ true → HasHeadSpaces text.now }
{
    text[0] == b' ' && text[3] == b' ' && text[6] == b' ' && text[8] == b' '
}

// The byte that has these two hexadecimal digits, and more than 255 if one of them is none.
#[inline(always)]
fn byte_or_more(high: u8, low: u8) -> u32
    ensures { result ≡ digit_or_256 high * 16 + digit_or_256 low }
{
    digit_or_256(high) * 16 + digit_or_256(low)
}

// The fields after the component and before the amount.
#[inline(always)]
fn read_head(text: &[u8]) -> Option<Head>
    requires { LONGEST_REST ≤ length text.now }
    ensures { IfSome result (λ head. IsHead text.now head) }
{
    let select = byte_or_more(text[1], text[2]);
    let umask = byte_or_more(text[4], text[5]);
    let mode = mode_or_256(text[7]);
    if !has_head_spaces(text) {
        return None;
    }
    if (select | umask | mode) > 255 {
        return None;
    }
    Some(Head {
        select: select as u8,
        umask: umask as u8,
        kernel: mode == 1,
    })
}

// The amount of this value and length, unless it is above [`LARGEST_AMOUNT`]. It is below the least number of its length if its first digit is 0.
#[inline(always)]
fn amount_of(value: u32, size: usize, least: u32) -> Option<Field>
    ensures { IfSome result (λ amount. IsAmountOf value size least amount) }
{
    if value < least || value > LARGEST_AMOUNT as u32 {
        return None;
    }
    Some(Field {
        value: u64::from(value),
        size,
    })
}

// The amount after the head, if a space ends it.
#[inline(always)]
fn read_amount(text: &[u8]) -> Option<Field>
    requires { LONGEST_REST ≤ length text.now }
    ensures { IfSome result (λ amount. IsAmount text.now amount) }
{
    let first = decimal_or_256(text[HEAD]);
    let second = decimal_or_256(text[HEAD + 1]);
    if text[HEAD + 2] == b' ' {
        return amount_of(first * 10 + second, 2, 10);
    }
    if text[HEAD + 1] == b' ' {
        return amount_of(first, 1, 1);
    }
    let third = decimal_or_256(text[HEAD + 2]);
    if text[HEAD + 3] != b' ' {
        return None;
    }
    amount_of(first * 100 + second * 10 + third, 3, 100)
}

// The fields before the stamp, if this is the component.
#[inline(always)]
fn front_after(text: &[u8], comp: Field) -> Option<Front>
    requires component { BeginsWithComponent text.now comp }
    requires long { comp.size + LONGEST_REST ≤ length text.now }
    ensures { IfSome result (λ front. IsFront text.now front) }
{
    let rest = &text[comp.size..];
    let head = read_head(rest)?;
    let amount = read_amount(rest)?;
    let place = comp.size + (HEAD + amount.size + 1);
    let pc = hexadecimal_at(text, place);
    if pc.size == 0 {
        return None;
    }
    Some(Front {
        comp: comp.value as u8,
        head,
        amount: amount.value as u8,
        pc: pc.value,
        size: place + pc.size,
    })
}

// The fields before the stamp. In each of the two cases all places up to the amount are fixed.
#[inline(always)]
fn read_front(text: &[u8]) -> Option<Front>
    requires { LONGEST_NUMBERED ≤ length text.now }
    ensures { IfSome result (λ front. IsFront text.now front) }
{
    if text[1] == b' ' {
        front_after(text, one_digit(text)?)
    } else {
        front_after(text, two_digits(text)?)
    }
}

// The number of the decimal digits that a text begins with, at most those of the longest stamp, and how many they are.
#[inline(always)]
fn decimal_digits(text: &[u8]) -> Field
    requires { LONGEST_STAMP ≤ length text.now }
    ensures { IsDigits text.now result }
{
    let mut value: u64 = 0;
    let mut size = 0;
    while size < LONGEST_STAMP {
        let digit = text[size].wrapping_sub(b'0');
        if digit > 9 {
            break;
        }
        value = value * 10 + u64::from(digit);
        size += 1;
    }
    Field { value, size }
}

// The stamp after a space.
#[inline(always)]
fn read_stamp(text: &[u8]) -> Option<Field>
    requires { LONGEST_STAMP + 2 ≤ length text.now }
    ensures { IfSome result (λ stamp. IsStamp text.now stamp) }
{
    if text[0] != b' ' {
        return None;
    }
    let digits = &text[1..];
    let stamp = decimal_digits(digits);
    if !has_form(digits, stamp.size) {
        return None;
    }
    if stamp.value > LAST_STAMP as u64 {
        return None;
    }
    Some(stamp)
}

// The occurrence of these fields with this stamp.
#[inline(always)]
fn occ_with(front: Front, stamp: u64) -> Occ
    ensures { result ≡ occ_with front stamp }
{
    Occ {
        comp: front.comp,
        select: front.head.select,
        umask: front.head.umask,
        kernel: front.head.kernel,
        amount: front.amount,
        pc: front.pc,
        stamp,
    }
}

// The length of the line whose fields end at this place, if a newline comes then, or a carriage return and a newline.
#[inline(always)]
fn line_size(text: &[u8], place: usize) -> Option<usize>
    requires { place + 1 < length text.now }
    ensures { IfSome result (λ size. EndsAt text.now place size) }
{
    if text[place] == b'\n' {
        return Some(place);
    }
    if text[place] == b'\r' && text[place + 1] == b'\n' {
        return Some(place + 1);
    }
    None
}

// The line in version 1, if the stamp is the number of occurrences before.
#[inline(always)]
fn numbered_line(start: &LineStart, text: &[u8]) -> Option<CommonLine>
    requires { start.now.stamped ≡ false }
    ensures { IfSome result (λ line. BeginsWith start.now text.now line) }
{
    if text.len() <= LONGEST_NUMBERED {
        return None;
    }
    let front = read_front(text)?;
    let size = line_size(text, front.size)?;
    Some(CommonLine {
        occ: occ_with(front, start.given),
        size,
    })
}

// The line in version 2.
#[inline(always)]
fn stamped_line(start: &LineStart, text: &[u8]) -> Option<CommonLine>
    requires { start.now.stamped ≡ true }
    ensures { IfSome result (λ line. BeginsWith start.now text.now line) }
{
    if text.len() <= LONGEST_STAMPED {
        return None;
    }
    let front = read_front(text)?;
    let stamp = read_stamp(&text[front.size..])?;
    let size = line_size(text, front.size + (1 + stamp.size))?;
    Some(CommonLine {
        occ: occ_with(front, stamp.value),
        size,
    })
}

/// The line that a text begins with, if it has the common form and the text is long enough for any such line of the version.
#[inline(always)]
pub(crate) fn common_line(start: &LineStart, text: &[u8]) -> Option<CommonLine>
    ensures { IfSome result (λ line. BeginsWith start.now text.now line) }
{
    if start.stamped {
        stamped_line(start, text)
    } else {
        numbered_line(start, text)
    }
}
