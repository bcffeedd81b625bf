//! The options of a command line, by their names.
ghost use Rattle.std.specs.Prelude.{◌≡◌, IfOk, map, option_map};
ghost use Rattle.clap.specs.Words.{all_of};
ghost use Rattle.smap_command_line.specs.Lookups as spec;
ghost use Rattle.smap_command_line.specs.Lookups.{rows_in};

use clap::ArgMatches;
use std::alloc::{AllocError, Global};

/// How many bytes the URLs of a map's sources may take, unless another number is given: 64 MiB.
const USUAL_URL_BYTES: usize = 67_108_864;

/// The options of a command line, which are looked up by their names in the table of options. Each value is
/// what its option takes.
#[derive(Drop)]
pub struct Options<'a> {
    pub(crate) matches: ArgMatches<'a>,
}

/// The number that a text is, if 32 bits hold it.
pub(crate) fn number_in(text: &str) -> Option<u32>
    ensures { result ≡ spec.number_in 32 text.now }
{
    match text.parse::<u32>() {
        Ok(number) => Some(number),
        Err(_) => None,
    }
}

/// The number that a text is, if 64 bits hold it.
pub(crate) fn size_in(text: &str) -> Option<usize>
    ensures { result ≡ spec.number_in 64 text.now }
{
    match text.parse::<usize>() {
        Ok(number) => Some(number),
        Err(_) => None,
    }
}

impl<'a> Options<'a> {
    /// Whether a flag is set.
    pub fn has(&self, name: &str) -> bool
        ensures { result ≡ spec.has self.now name.now }
    {
        self.matches.get_one::<bool>(name).unwrap_or(false)
    }

    /// The value of an option, if it is given; of several uses the last.
    pub fn text(&self, name: &str) -> Option<&'a str>
        ensures { option_map (λ s. s.now) result ≡ spec.text self.now name.now }
    {
        self.matches.get_str(name)
    }

    /// The values of all uses, in the order of the words; none where there are no uses.
    pub(crate) fn uses(&self, name: &str) -> Option<&[&'a str]>
        ensures { option_map (λ s. map (λ v. v.now) s.now) result ≡ all_of name.now (rows_in self.now) }
    {
        self.matches.get_strs(name)
    }

    /// The values of all uses, in the order of the words.
    ///
    /// # Errors
    ///
    /// Memory runs out.
    pub fn texts(&self, alloc: Global, name: &str) -> Result<Vec<&'a str>, AllocError>
        ensures { IfOk result (λ texts.
            map (λ s. s.now) texts.items ≡ spec.values_of name.now (rows_in self.now)) }
    {
        match self.uses(name) {
            Some(texts) => Vec::from_slice(alloc, texts),
            None => Ok(Vec::new(alloc)),
        }
    }

    /// The value of an option, if it is given, as a number below 2^32.
    pub fn number(&self, name: &str) -> Option<u32>
        ensures { result ≡ spec.number self.now name.now }
    {
        match self.text(name) {
            Some(text) => number_in(text),
            None => None,
        }
    }

    /// `--url-bytes`: how many bytes the URLs of a map's sources may take together; 67,108,864 unless it is
    /// given.
    pub fn url_bytes(&self) -> usize
        ensures { result ≡ spec.url_bytes self.now }
    {
        match self.text("url-bytes") {
            Some(text) => size_in(text).unwrap_or(USUAL_URL_BYTES),
            None => USUAL_URL_BYTES,
        }
    }
}
