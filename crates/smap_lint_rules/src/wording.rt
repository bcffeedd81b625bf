//! How many things a sentence speaks of.
ghost use Rattle.std.specs.Prelude.{◌≡◌, IfOk, string_bytes};
ghost use Rattle.smap_lint_rules.specs.Wording as spec;

use std::alloc::{AllocError, Global};

/// A number and what is counted, as `1 line` or `2 lines`.
pub(crate) fn counted(alloc: Global, count: usize, noun: &str) -> Result<String, AllocError>
    ensures { IfOk result (λ t. string_bytes t ≡ spec.counted count noun.now) }
{
    if count == 1 {
        format!(in alloc; "{count} {noun}")
    } else {
        format!(in alloc; "{count} {noun}s")
    }
}

/// So many of all, as `1 of 3 sources`, or `the source` where there is one.
pub(crate) fn some_of(
    alloc: Global,
    count: usize,
    total: usize,
    noun: &str,
) -> Result<String, AllocError>
    ensures { IfOk result (λ t. string_bytes t ≡ spec.some_of count total noun.now) }
{
    if total == 1 {
        return format!(in alloc; "the {noun}");
    }
    let all = counted(alloc, total, noun)?;
    format!(in alloc; "{count} of {all}")
}

/// The word for one, or that for more.
pub(crate) fn one_or_more<'a>(count: usize, one: &'a str, more: &'a str) -> &'a str
    ensures { result.now ≡ spec.one_or_more count one.now more.now }
{
    if count == 1 { one } else { more }
}

/// The first one of so many, as an example behind a sentence.
pub(crate) fn example(alloc: Global, count: usize, first: &str) -> Result<String, AllocError>
    ensures { IfOk result (λ t. string_bytes t ≡ spec.example count first.now) }
{
    let before = one_or_more(count, ": ", ", such as ");
    format!(in alloc; "{before}{first}")
}

/// A place by a line and a column that count from 0: they are told from 1.
pub(crate) fn place(alloc: Global, line: u32, column: u32) -> Result<String, AllocError>
    ensures { IfOk result (λ t. string_bytes t ≡ spec.place line column) }
{
    let (line, column) = (u64::from(line) + 1, u64::from(column) + 1);
    format!(in alloc; "line {line}, column {column}")
}

/// What is said in the file of the first of so many scripts that name no map and have none beside them.
pub fn mapless_words(alloc: Global, count: usize) -> Result<String, AllocError>
    ensures { IfOk result (λ t. string_bytes t ≡ spec.mapless_words count) }
{
    if count == 1 {
        return String::from_str(alloc, "names no map, and none is next to it");
    }
    format!(in alloc; "{count} scripts name no map and have none next to them; this is the first")
}
