//! The header of an entry of a bundle, as `map http://h/o.js http://h/o.js.map 55` and a line feed.
ghost use Rattle.std.specs.Prelude.{◌≡◌, ◌≢◌, ℕ, ◌-◌, ◌^◌, ◌<◌, ◌++◌, ◌∷◌, ◌↔◌, List, [], IsTrue, IsUtf8};
ghost use Rattle.std.specs.Prelude.{MatchOption, codes, length, min, true};
ghost use Rattle.std.specs.Char.{is_ascii_digit};
ghost use Rattle.std.specs.List.{list_all};
ghost use Rattle.smap_tool.specs.Header.{IsHeader, IsNumber};
ghost use Rattle.smap_record.specs.Scripts.{lacks};

use std::str;

/// The most bytes of a header line, its line feed included.
pub(crate) const LONGEST_HEADER: usize = 65_536;

/// A header: the URL of a script, the base of its map, and how many bytes the map has. A length that
/// doesn't fit into a u64 is u64::MAX.
#[derive(Drop)]
pub(crate) struct Header<'a> {
    pub(crate) script: &'a str,
    pub(crate) base: &'a str,
    pub(crate) length: u64,
}

/// What is between `map ` and the line feed.
fn words_of(line: &[u8]) -> Option<&str>
    ensures { MatchOption result ((words : List ℕ) → IsUtf8 words → line.now ≢ codes "map " ++
        (words ++ 10 ∷ []))
        (λ words. line.now ≡ codes "map " ++ (words.now ++ 10 ∷ [])) }
{
    let words = line.strip_prefix(b"map ")?.strip_suffix(b"\n")?;
    match str::from_utf8(words) {
        Ok(text) => Some(text),
        Err(_) => None,
    }
}

/// Whether the string isn't empty, and has no line feed.
fn is_one_line(text: &str) -> bool
    ensures one_line { IsTrue result ↔ ((0 < length text.now) × (lacks 10 text.now ≡ true)) }
    ensures utf8 { IsUtf8 text.now }
{
    !text.is_empty() && !text.as_bytes().contains(&b'\n')
}

/// Whether all bytes are decimal digits.
fn are_digits(bytes: &[u8]) -> bool
    ensures { result ≡ list_all is_ascii_digit bytes.now }
{
    bytes.iter().all(|b| b.is_ascii_digit())
}

/// Whether this is an integer in decimal digits.
fn is_number(text: &str) -> bool
    ensures { IsTrue result ↔ ((n : ℕ) × IsNumber text.now n) }
{
    match text.as_bytes() {
        b"0" => true,
        [b'0', ..] => false,
        digits => !digits.is_empty() && are_digits(digits),
    }
}

/// The integer that this is in decimal digits, or u64::MAX for a greater one.
fn number_of(text: &str) -> Option<u64>
    ensures { MatchOption result ((n : ℕ) → IsNumber text.now n → ⊥)
        (λ least. (n : ℕ) × IsNumber text.now n × (least ≡ min n (2 ^ 64 - 1))) }
{
    if !is_number(text) {
        return None;
    }
    match text.parse::<u64>() {
        Ok(n) => Some(n),
        Err(_) => Some(u64::MAX),
    }
}

/// The header that the line is, which includes its line feed.
pub(crate) fn parse_header(line: &[u8]) -> Option<Header<'_>>
    ensures { MatchOption result ((script base : List ℕ) (n : ℕ) → IsHeader line.now script base n → ⊥)
        (λ h. (n : ℕ) × IsHeader line.now h.script.now h.base.now n × (h.length ≡ min n (2 ^ 64 - 1))) }
{
    if line.len() > LONGEST_HEADER {
        return None;
    }
    let words = words_of(line)?;
    let (script, rest) = words.split_once(' ')?;
    let (base, digits) = rest.split_once(' ')?;
    let length = number_of(digits)?;
    if !is_one_line(script) || !is_one_line(base) {
        return None;
    }
    Some(Header {
        script,
        base,
        length,
    })
}
