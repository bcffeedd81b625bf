//! Values of two parts.
ghost use Rattle.std.specs.Prelude.{◌≡◌, IfOk, map};
ghost use Rattle.smap_command_line.specs.Lookups.{rows_in, values_of};
ghost use Rattle.smap_command_line.specs.Values as spec;

use crate::lookups::Options;
use crate::values::parted;
use std::alloc::{AllocError, Global};

/// A value `KEY=TEXT`.
#[derive(Clone, Copy)]
pub struct Pair<'a> {
    /// What stands before the first `=` of the word; never empty.
    pub key: &'a str,
    /// What stands behind it.
    pub text: &'a str,
}

/// The pair that a word is.
fn pair_in(word: &str) -> Pair<'_>
    ensures { spec.pair_view result ≡ spec.pair_meant word.now }
{
    match parted(word) {
        Some((key, text)) => Pair { key, text },
        None => Pair {
            key: word,
            text: "",
        },
    }
}

/// The pairs that words are.
fn pairs_in<'a>(alloc: Global, words: &[&'a str]) -> Result<Vec<Pair<'a>>, AllocError>
    ensures { IfOk result (λ pairs. map spec.pair_view pairs.items
        ≡ map spec.pair_meant (map (λ s. s.now) words.now)) }
{
    let mut pairs = Vec::new(alloc);
    for i in 0..words.len() {
        pairs.push(pair_in(words[i]))?;
    }
    Ok(pairs)
}

/// The values of all uses of an option that takes pairs, in the order of the words.
pub(crate) fn pairs_of<'a>(
    alloc: Global,
    options: &Options<'a>,
    name: &str,
) -> Result<Vec<Pair<'a>>, AllocError>
    ensures { IfOk result (λ pairs. map spec.pair_view pairs.items
        ≡ map spec.pair_meant (values_of name.now (rows_in options.now))) }
{
    let words = options.texts(alloc, name)?;
    pairs_in(alloc, &words)
}
