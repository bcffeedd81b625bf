//! The comment of a script that holds its map.
ghost use Rattle.std.specs.Prelude.{◌≡◌, ◌≤◌, cond, drop, length};
ghost use Rattle.smap_view_page.specs.Comments as spec;

/// Whether a comment with a map begins a text.
fn opens(text: &[u8]) -> bool
    ensures { result ≡ spec.opens text.now }
{
    text.starts_with(b"//# sourceMappingURL=data:")
        || text.starts_with(b"/*# sourceMappingURL=data:")
        || text.starts_with(b"//@ sourceMappingURL=data:")
}

/// This place where such a comment begins there, and else the last one.
fn later(text: &[u8], at: usize, last: usize) -> usize
    requires { at ≤ length text.now }
    ensures { result ≡ cond (spec.opens (drop at text.now)) at last }
{
    if opens(&text[at..]) { at } else { last }
}

/// How many bytes of a script stand before the last comment with a map; all of them where it has none.
pub fn code_length(text: &[u8]) -> usize
    ensures { result ≡ spec.code_length text.now }
{
    let mut last = text.len();
    for at in 0..text.len() {
        last = later(text, at, last);
    }
    last
}
