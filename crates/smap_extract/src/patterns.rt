//! Which sources are meant.
use memchr::memmem;

/// Whether these pieces, with stars between them, are in a text, one after another.
fn has_pieces(pieces: &[u8], text: &[u8]) -> bool {
    let mut rest = text;
    for piece in pieces.split(|b| *b == b'*') {
        let Some(at) = memmem::find(rest, piece) else {
            return false;
        };
        rest = match rest.get(at.saturating_add(piece.len())..) {
            Some(rest) => rest,
            None => return false,
        };
    }
    true
}

/// Whether a text is as a pattern says, in which a star stands for any run of characters.
fn is_like(pattern: &[u8], text: &[u8]) -> bool {
    let Some(first) = pattern.iter().position(|b| *b == b'*') else {
        return pattern == text;
    };
    let (before, stars) = (&pattern[..first], &pattern[first..]);
    let size = stars.iter().rev().take_while(|b| **b != b'*').count();
    let (pieces, after) = (&stars[..stars.len() - size], &stars[stars.len() - size..]);
    let Some(rest) = text.strip_prefix(before) else {
        return false;
    };
    match rest.strip_suffix(after) {
        Some(middle) => has_pieces(pieces, middle),
        None => false,
    }
}

fn is_like_any(patterns: &[&str], text: &str) -> bool {
    patterns
        .iter()
        .any(|pattern| is_like(pattern.as_bytes(), text.as_bytes()))
}

/// Which sources are meant: those that are as one of some patterns says, or all if there is none, and as none
/// of others says. A null is as no pattern says.
#[derive(Drop)]
pub struct Meant<'a> {
    pub only: Vec<&'a str>,
    pub except: Vec<&'a str>,
}

impl Meant<'_> {
    /// Whether a source is, as it is written in the map.
    pub(crate) fn has(&self, source: Option<&str>) -> bool {
        match source {
            Some(source) => {
                (self.only.is_empty() || is_like_any(&self.only, source))
                    && !is_like_any(&self.except, source)
            }
            None => self.only.is_empty(),
        }
    }
}
