//! White space as ECMAScript has it, in UTF-8.
ghost use Rattle.std.specs.Prelude.{◌≡◌, ◌+◌, ◌≤◌, ◌<◌, ℕ, MatchOption, drop, length};
ghost use Rattle.smap_link.specs.White as spec;

fn is_white_byte(a: u8) -> bool
    ensures { result ≡ spec.is_white_byte a }
{
    a == b'\t' || a == 0x0b || a == 0x0c || a == b' '
}

fn is_white_triple(a: u8, b: u8, c: u8) -> bool
    ensures { result ≡ spec.is_white_triple a b c }
{
    (a == 0xe1 && b == 0x9a && c == 0x80)
        || (a == 0xe2 && b == 0x80 && ((0x7f < c && c < 0x8b) || c == 0xaf))
        || (a == 0xe2 && b == 0x81 && c == 0x9f)
        || (a == 0xe3 && b == 0x80 && c == 0x80)
        || (a == 0xef && b == 0xbb && c == 0xbf)
}

fn triple_size(a: u8, b: u8, rest: &[u8]) -> usize
    ensures value { result ≡ spec.triple_size a b rest.now }
    ensures within { result ≤ length rest.now + 2 }
{
    match rest {
        [c, ..] if is_white_triple(a, b, *c) => 3,
        _ => 0,
    }
}

fn pair_size(a: u8, rest: &[u8]) -> usize
    ensures value { result ≡ spec.pair_size a rest.now }
    ensures within { result ≤ length rest.now + 1 }
{
    match rest {
        [0xa0, ..] if a == 0xc2 => 2,
        [b, rest @ ..] => triple_size(a, *b, rest),
        [] => 0,
    }
}

/// The bytes of the white space character that the text begins with; 0 if it begins with none.
pub(crate) fn white_size(text: &[u8]) -> usize
    ensures value { result ≡ spec.white_size text.now }
    ensures within { result ≤ length text.now }
{
    match text {
        [a, ..] if is_white_byte(*a) => 1,
        [a, rest @ ..] => pair_size(*a, rest),
        [] => 0,
    }
}

/// How many bytes of white space are to be passed behind the one at `i`, if that is white space: `left` of
/// its character are left here.
fn passed(text: &[u8], i: usize, left: usize) -> Option<usize>
    requires { i < length text.now }
    ensures { MatchOption result
        (spec.behind_white left (drop i text.now) ≡ drop i text.now)
        (λ n. spec.behind_white left (drop i text.now) ≡ spec.behind_white n (drop (i + 1) text.now)) }
{
    if left > 0 {
        return Some(left - 1);
    }
    let size = white_size(&text[i..]);
    if size > 0 { Some(size - 1) } else { None }
}

/// The text behind the white space that it begins with.
pub(crate) fn behind_white<'a>(text: &'a [u8]) -> &'a [u8]
    ensures { result.now ≡ spec.behind_white 0 text.now }
{
    let mut left = 0;
    for i in 0..text.len() {
        match passed(text, i, left) {
            Some(more) => left = more,
            None => return &text[i..],
        }
    }
    &text[text.len()..]
}

/// How many bytes come before the first white space.
pub(crate) fn word_size(text: &[u8]) -> usize
    ensures value { result ≡ spec.word_size text.now }
    ensures within { result ≤ length text.now }
{
    for i in 0..text.len() {
        if white_size(&text[i..]) > 0 {
            return i;
        }
    }
    text.len()
}
