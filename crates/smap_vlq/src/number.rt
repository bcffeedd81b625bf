//! Reading a number.
ghost use Rattle.std.specs.Prelude.{◌≡◌, ◌+◌, ◌*◌, ◌%◌, ◌^◌, ◌<◌, ◌≤◌, min, length, Ok, IfOk, IfSome};
ghost use Rattle.smap_vlq.specs.Number.{signed, number_of, number_at, without_place};

use crate::digit::{digit_value, lone_number};

/// The greatest number that can be encoded, and so the greatest line, column or index of a map: 2^31 - 1.
/// This project's own bound; the standard has none for lines and columns.
pub const MAX_POSITION: u32 = 2_147_483_647;

/// Why no number can be read.
#[derive(Clone, Copy, Debug, PartialEq, Eq)]
pub enum NumberFault {
    /// The string ends before a digit without a continuation bit.
    Unfinished,
    /// A byte isn't a Base64 digit.
    Character,
    /// The unsigned value is 2^32 or more. This project's own bound.
    TooLarge,
    /// The unsigned value is 1: a minus sign with magnitude 0. Rejecting it is this project's own rule.
    NegativeZero,
}

/// Reads the number that begins at index `at` of `text` (ECMA-426, "Base64 VLQ"), and answers it with the
/// index after its last digit.
///
/// Numbers are from -2,147,483,647 to 2,147,483,647. Redundant zero digits at the end, as in `gA` for 0,
/// are accepted. The time is linear in the number of digits.
///
/// # Errors
///
/// The first byte from `at` on that isn't a continuation digit decides: past the end of `text` the number
/// is `Unfinished`; a byte that isn't a digit is a `Character` fault; else the number ends there, and its
/// unsigned value may be `TooLarge` or a `NegativeZero`.
#[inline(always)]
pub fn read_number(text: &[u8], at: usize) -> Result<(i32, usize), NumberFault>
    ensures { result ≡ number_at text.now at }
{
    // Most numbers have one digit or two, and are read inline; all others are read out of line.
    if let Some(found) = read_short(text, at) {
        return Ok(found);
    }
    let mut end = at;
    let number = read_long(text, &mut end)?;
    Ok((number, end))
}

/// The number of one digit or two at an index, if there is one.
#[inline(always)]
fn read_short(text: &[u8], at: usize) -> Option<(i32, usize)>
    ensures { IfSome result (λ found. Ok found ≡ number_at text.now at) }
{
    if at >= text.len() {
        return None;
    }
    if let Some(number) = lone_number(text[at]) {
        return Some((number, at + 1));
    }
    read_two(text, at)
}

/// The number of two digits at an index, if there is one.
#[inline(always)]
fn read_two(text: &[u8], at: usize) -> Option<(i32, usize)>
    requires { at < length text.now }
    ensures { IfSome result (λ found. Ok found ≡ number_at text.now at) }
{
    let first = digit_value(text[at])?;
    if first < 32 || text.len() - at < 2 {
        return None;
    }
    let second = digit_value(text[at + 1])?;
    let unsigned = (first % 32) as u32 + 32 * second as u32;
    if second >= 32 || unsigned == 1 {
        return None;
    }
    Some((of_unsigned(unsigned), at + 2))
}

/// The number at an index, digit by digit; the index is moved to the byte after it.
#[inline(never)]
fn read_long(text: &[u8], place: &mut usize) -> Result<i32, NumberFault>
    ensures number { result ≡ without_place (number_at text.now place.old) }
    ensures after { IfOk (number_at text.now place.old) (λ found. place.new ≡ found.1) }
{
    let mut unsigned = Unsigned::of_no_digits();
    let mut at = *place;
    while at < text.len() {
        let Some(digit) = digit_value(text[at]) else {
            return Err(NumberFault::Character);
        };
        unsigned = unsigned.with_digit(digit);
        at += 1;
        if digit < 32 {
            *place = at;
            return signed(unsigned.total);
        }
    }
    Err(NumberFault::Unfinished)
}

/// The unsigned value of the digits so far, and what the next digit is worth. Both saturate above the range
/// of numbers, so that there may be any number of redundant digits.
#[derive(Clone, Copy)]
pub(crate) struct Unsigned {
    pub(crate) total: u64,
    pub(crate) weight: u64,
    ghost total_stays: { total ≤ 2 ^ 32 },
    ghost weight_stays: { weight ≤ 2 ^ 35 },
}

impl Unsigned {
    pub(crate) fn of_no_digits() -> Self
        ensures total { result.total ≡ 0 }
        ensures weight { result.weight ≡ 1 }
    {
        Unsigned {
            total: 0,
            weight: 1,
        }
    }

    pub(crate) fn with_digit(self, digit: u8) -> Self
        ensures total { result.total ≡ min (self.total + digit % 32 * self.weight) (2 ^ 32) }
        ensures weight { result.weight ≡ min (self.weight * 32) (2 ^ 35) }
    {
        let low = (digit % 32) as u64;
        Unsigned {
            total: (self.total + low * self.weight).min(1 << 32),
            weight: (self.weight * 32).min(1 << 35),
        }
    }
}

/// The number with this unsigned value, or why there is none.
pub(crate) fn signed(unsigned: u64) -> Result<i32, NumberFault>
    ensures { result ≡ number_of unsigned }
{
    if unsigned >= 1 << 32 {
        return Err(NumberFault::TooLarge);
    }
    if unsigned == 1 {
        return Err(NumberFault::NegativeZero);
    }
    Ok(of_unsigned(unsigned as u32))
}

/// The lowest bit is the sign, the bits above it are the magnitude.
#[inline(always)]
fn of_unsigned(unsigned: u32) -> i32
    ensures { result ≡ signed unsigned }
{
    let magnitude = (unsigned / 2) as i32;
    if unsigned % 2 == 0 {
        magnitude
    } else {
        -magnitude
    }
}
