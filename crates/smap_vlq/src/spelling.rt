//! Writing the shortest encoding of a number.
ghost use Rattle.std.specs.Prelude.{◌≡◌, ◌≢◌, ◌+◌, ◌≤◌, ◌++◌, negsuc, length, take, drop};
ghost use Rattle.smap_vlq.specs.Limits.{max_position};
ghost use Rattle.smap_vlq.specs.Number.{spelling, unsigned_spelling, unsigned_of, Written};

use crate::digit::byte_of;

/// Writes the shortest encoding of `n` (ECMA-426, "Base64 VLQ") to the start of `out`, and answers its
/// length, from 1 to 7. The bytes of `out` after it stay as they are.
///
/// `n` must not be -2,147,483,648, which has no encoding.
pub fn spell(n: i32, out: &mut [u8; 7]) -> usize
    requires { n ≢ negsuc max_position }
    ensures { Written (spelling n) out.old out.new result }
{
    spell_at(n, out, 0)
}

/// Writes the shortest encoding of `n` into `out` from index `at` on, and answers the index after it. All
/// other bytes stay as they are.
///
/// `n` must not be -2,147,483,648, and `out` must have at least seven bytes from `at` on. Nearly all
/// numbers of a mappings string have one or two digits, so these are tried first.
#[inline(always)]
pub fn spell_at(n: i32, out: &mut [u8], at: usize) -> usize
    requires number { n ≢ negsuc max_position }
    requires room { at + 7 ≤ length out.old }
    ensures text { take result out.new ≡ take at out.old ++ spelling n }
    ensures rest { drop result out.new ≡ drop result out.old }
    ensures place { result ≤ at + 7 }
    ensures room { length out.new ≡ length out.old }
{
    let unsigned = unsigned_value(n);
    if unsigned < 32 {
        out[at] = byte_of(unsigned);
        return at + 1;
    }
    if unsigned < 1024 {
        out[at] = byte_of(unsigned % 32 + 32);
        out[at + 1] = byte_of(unsigned / 32);
        return at + 2;
    }
    spell_unsigned(unsigned, out, at)
}

/// How many bytes the shortest spelling of a number has, from 1 to 7. The number isn't -2,147,483,648.
#[inline(always)]
pub fn spelled_len(n: i32) -> usize
    requires { n ≢ negsuc max_position }
    ensures len { result ≡ length (spelling n) }
    ensures few { result ≤ 7 }
{
    digit_count(unsigned_value(n))
}

/// How many digits an unsigned value has.
#[inline(always)]
fn digit_count(unsigned: u32) -> usize
    ensures len { result ≡ length (unsigned_spelling unsigned) }
    ensures few { result ≤ 7 }
{
    if unsigned < 1 << 5 {
        1
    } else if unsigned < 1 << 10 {
        2
    } else if unsigned < 1 << 15 {
        3
    } else if unsigned < 1 << 20 {
        4
    } else if unsigned < 1 << 25 {
        5
    } else if unsigned < 1 << 30 {
        6
    } else {
        7
    }
}

/// The unsigned value of a number: its sign is the lowest bit.
fn unsigned_value(n: i32) -> u32
    requires { n ≢ negsuc max_position }
    ensures { result ≡ unsigned_of n }
{
    if n < 0 {
        n.unsigned_abs() * 2 + 1
    } else {
        n as u32 * 2
    }
}

/// Writes the digits of an unsigned value from index `at` on, the least significant first.
#[inline(never)]
fn spell_unsigned(unsigned: u32, out: &mut [u8], at: usize) -> usize
    requires room { at + 7 ≤ length out.old }
    ensures text { take result out.new ≡ take at out.old ++ unsigned_spelling unsigned }
    ensures rest { drop result out.new ≡ drop result out.old }
    ensures place { result ≤ at + 7 }
    ensures room { length out.new ≡ length out.old }
{
    let mut left = unsigned;
    for i in 0..7 {
        if left < 32 {
            out[at + i] = byte_of(left);
            return at + i + 1;
        }
        out[at + i] = byte_of(left % 32 + 32);
        left /= 32;
    }
    at + 7
}
