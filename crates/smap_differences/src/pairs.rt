//! Maps of two builds, in pairs by their paths.
use indexmap::IndexMap;
use std::alloc::{AllocError, Global};

/// The numbers of a map in the two builds, where they have it.
#[derive(Clone, Copy)]
pub struct Pair {
    pub old: Option<usize>,
    pub new: Option<usize>,
}

/// The numbers of paths.
fn numbers_of<'a>(
    alloc: Global,
    paths: &[&'a str],
) -> Result<IndexMap<&'a str, usize>, AllocError> {
    let mut numbers = IndexMap::new(alloc);
    for i in 0..paths.len() {
        numbers.insert(paths[i], i)?;
    }
    Ok(numbers)
}

fn number_of(numbers: &IndexMap<&str, usize>, path: &str) -> Option<usize> {
    match numbers.get(path) {
        Some(number) => Some(*number),
        None => None,
    }
}

/// The pairs of the new build's maps.
fn pairs_of_new(alloc: Global, old: &[&str], new: &[&str]) -> Result<Vec<Pair>, AllocError> {
    let numbers = numbers_of(alloc, old)?;
    let mut pairs = Vec::new(alloc);
    for i in 0..new.len() {
        pairs.push(Pair {
            old: number_of(&numbers, new[i]),
            new: Some(i),
        })?;
    }
    Ok(pairs)
}

/// Appends the maps that only the old build has.
fn push_gone(
    alloc: Global,
    old: &[&str],
    new: &[&str],
    pairs: &mut Vec<Pair>,
) -> Result<(), AllocError> {
    let numbers = numbers_of(alloc, new)?;
    for i in 0..old.len() {
        if number_of(&numbers, old[i]).is_none() {
            pairs.push(Pair {
                old: Some(i),
                new: None,
            })?;
        }
    }
    Ok(())
}

/// The maps of two builds by their paths, which differ within each: those of the new one, and then those that
/// only the old one has.
///
/// # Errors
///
/// `AllocError`.
pub fn paired(alloc: Global, old: &[&str], new: &[&str]) -> Result<Vec<Pair>, AllocError> {
    let mut pairs = pairs_of_new(alloc, old, new)?;
    push_gone(alloc, old, new, &mut pairs)?;
    Ok(pairs)
}
