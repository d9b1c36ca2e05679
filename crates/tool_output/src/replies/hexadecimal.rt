//! Numbers in hexadecimal.

ghost use Rattle.std.specs.Prelude.{◌≡◌, ◌<◌, ◌++◌, ◌∷◌, [], OnOk, string_bytes};
ghost use Rattle.tool_output.specs.Hexadecimal as Hexadecimal;

use std::alloc::AllocError;

// The hexadecimal digit of a number below 16.
fn hex_digit(number: u32) -> &'static str
    requires { number < 16 }
    ensures { result.now ≡ Hexadecimal.hex_digit number ∷ [] }
{
    match number {
        0 => "0",
        1 => "1",
        2 => "2",
        3 => "3",
        4 => "4",
        5 => "5",
        6 => "6",
        7 => "7",
        8 => "8",
        9 => "9",
        10 => "a",
        11 => "b",
        12 => "c",
        13 => "d",
        14 => "e",
        _ => "f",
    }
}

// Appends the last n hexadecimal digits of a number.
fn push_last_hex(text: &mut String, digits: u32, number: u32) -> Result<(), AllocError>
    ensures { OnOk result (string_bytes text.new
        ≡ string_bytes text.old ++ Hexadecimal.last_hex digits number) }
{
    if digits == 0 {
        return Ok(());
    }
    push_last_hex(text, digits - 1, number / 16)?;
    text.push_str(hex_digit(number % 16))
}

/// Appends a space, `0x` and the last n hexadecimal digits of a number.
pub(crate) fn push_hex(text: &mut String, digits: u32, number: u32) -> Result<(), AllocError>
    ensures { OnOk result (string_bytes text.new
        ≡ string_bytes text.old ++ 32 ∷ Hexadecimal.hex_text digits number) }
{
    text.push_str(" 0x")?;
    push_last_hex(text, digits, number)
}
