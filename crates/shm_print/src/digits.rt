//! Hexadecimal digits, appended to a text.
ghost use Rattle.std.specs.Prelude.{◌≡◌, ◌<◌, ◌≤◌, ◌++◌, OnOk, false, string_bytes, drop};
ghost use Rattle.std.specs.Fmt.{digits, digit_glyph};

use std::alloc::AllocError;

/// The most digits that 64 bits have in any base.
const MOST_DIGITS: usize = 64;

// The digit of a number below 16.
fn digit(number: u64) -> u8
    requires { number < 16 }
    ensures { result ≡ digit_glyph false number }
{
    if number < 10 {
        b'0' + number as u8
    } else {
        b'a' + (number as u8 - 10)
    }
}

// Writes the digits of a number at the end of the room, and returns where they begin.
fn fill_digits(number: u64, room: &mut [u8; MOST_DIGITS]) -> usize
    ensures start { result ≤ MOST_DIGITS }
    ensures digits { drop result room.new ≡ digits 16 false number }
{
    let mut at = MOST_DIGITS;
    let mut left = number;
    while at > 0 {
        at -= 1;
        room[at] = digit(left % 16);
        left /= 16;
        if left == 0 {
            return at;
        }
    }
    at
}

/// Appends the hexadecimal digits of a number to a text, without leading zeros.
pub(crate) fn push_digits(text: &mut String, number: u64) -> Result<(), AllocError>
    ensures { OnOk result (string_bytes text.new ≡ string_bytes text.old ++ digits 16 false number) }
{
    let mut room = [0u8; MOST_DIGITS];
    let start = fill_digits(number, &mut room);
    text.push_str(str::from_utf8(&room[start..]).unwrap())
}
