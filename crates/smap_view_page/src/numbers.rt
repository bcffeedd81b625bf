//! Numbers as characters.
ghost use Rattle.std.specs.Prelude.{◌≡◌, ◌<◌, ◌^◌, ◌+◌, ◌++◌, OnOk, encode_utf8, string_bytes};
ghost use Rattle.std.specs.List.{flat_map};
ghost use Rattle.smap_view_page.specs.Numbers as spec;

use std::alloc::AllocError;

/// The base of the digits.
const BASE: u64 = 16_384;

/// The character of a digit: from `=` on, so that none is a `<` or a quotation mark.
fn digit(value: u32) -> char
    requires { value < 32768 }
    ensures { result ≡ 61 + value }
{
    char::from_u32(61 + value).unwrap()
}

fn push_last(text: &mut String, number: u64) -> Result<(), AllocError>
    requires { number < 16384 }
    ensures { OnOk result (string_bytes text.new
        ≡ string_bytes text.old ++ encode_utf8 (spec.last_digit number)) }
{
    text.push(digit(number as u32))
}

fn push_more(text: &mut String, number: u64) -> Result<(), AllocError>
    ensures { OnOk result (string_bytes text.new
        ≡ string_bytes text.old ++ encode_utf8 (spec.more_digit number)) }
{
    text.push(digit(16_384 + (number % BASE) as u32))
}

/// Adds a number to a text.
pub(crate) fn push_number(text: &mut String, number: u64) -> Result<(), AllocError>
    requires { number < 2 ^ 42 }
    ensures { OnOk result (string_bytes text.new
        ≡ string_bytes text.old ++ flat_map encode_utf8 (spec.spelled number)) }
{
    if number < BASE {
        return push_last(text, number);
    }
    push_more(text, number)?;
    if number / BASE < BASE {
        return push_last(text, number / BASE);
    }
    push_more(text, number / BASE)?;
    push_last(text, number / BASE / BASE)
}

/// How far a number is from an older one: 0, -1, 1, -2, 2 and so on are counted up.
pub(crate) fn difference(old: u32, new: u32) -> u64
    ensures value { result ≡ spec.difference old new }
    ensures small { result < 2 ^ 33 }
{
    let (old, new) = (u64::from(old), u64::from(new));
    if new < old {
        2 * (old - new) - 1
    } else {
        2 * (new - old)
    }
}
