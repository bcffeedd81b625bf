//! What the arguments name: maps, files of folders, logs, positions; and how much a map may take.
ghost use Rattle.std.specs.Prelude.{◌≡◌, ◌==◌, ◌&&◌, length};
ghost use Rattle.smap_map_files.specs.Lists.{lists_of, no_lists};
ghost use Rattle.smap_map_files.specs.Positions as spec_positions;
ghost use Rattle.smap_map_files.specs.WantedView as spec;

use crate::loading::Reading;
use smap_link::{FileKind, file_kind};
use smap_map_choice::Place;
use std::alloc::Global;

/// A folder.
#[derive(Drop)]
pub struct Root {
    /// The URL of what is in it, or its path as the log has it, with a slash at the end. A folder that is
    /// given
    /// alone has a URL of its own, so that none leads out of it.
    pub url: Vec<u8>,
    /// Its name, without slashes at the end.
    pub path: String,
}

/// How a map is named.
#[derive(Clone, Copy, PartialEq, Eq)]
pub enum Origin {
    /// By its own argument, perhaps with its base.
    Alone { has_base: bool },
    /// As a file below the folder with this number.
    Below(usize),
}

/// Positions, and what those need that name no script.
#[derive(Drop)]
pub struct Positions<'a> {
    /// The scripts whose maps are given by their files.
    pub scripts: Vec<Vec<u8>>,
    /// `LINE:COLUMN` or `NAME:LINE:COLUMN`, in the order of the words.
    pub words: Vec<&'a str>,
}

/// What the arguments name, and how much a map of that may take.
#[derive(Drop)]
pub struct Wanted<'a> {
    /// The maps of scripts with names, and scripts that may name their maps.
    pub places: Vec<Place>,
    /// How each of them is named.
    pub origins: Vec<Origin>,
    /// The maps in folders that are given alone, and then the scripts there that may name theirs.
    pub files: Vec<Vec<u8>>,
    /// The number of the folder of each.
    pub file_roots: Vec<usize>,
    /// How many of them are maps.
    pub map_count: usize,
    pub roots: Vec<Root>,
    pub logs: Vec<&'a str>,
    pub positions: Positions<'a>,
    /// How the texts of the maps are read: with no bytes for the URLs of sources, until more is said.
    pub reading: Reading,
}

impl<'a> Wanted<'a> {
    /// Nothing is named.
    pub fn new(alloc: Global) -> Wanted<'a>
        ensures lists { lists_of result ≡ no_lists }
        ensures map_count { result.map_count ≡ 0 }
    {
        Wanted {
            places: Vec::new(alloc),
            origins: Vec::new(alloc),
            files: Vec::new(alloc),
            file_roots: Vec::new(alloc),
            map_count: 0,
            roots: Vec::new(alloc),
            logs: Vec::new(alloc),
            positions: Positions {
                scripts: Vec::new(alloc),
                words: Vec::new(alloc),
            },
            reading: Reading {
                url_bytes: 0,
                mends: false,
                chains: false,
            },
        }
    }

    /// Whether no map can be found.
    pub fn is_empty(&self) -> bool
        ensures { result ≡ ((length self.now.places.items == 0) && (length self.now.files.items == 0)) }
    {
        self.places.is_empty() && self.files.is_empty()
    }

    /// Whether positions are given.
    pub fn has_positions(&self) -> bool
        ensures { result ≡ spec_positions.has_positions self.now }
    {
        !self.positions.words.is_empty()
    }
}

/// Whether a file's name is that of a script or of a style sheet, which may name its map.
pub fn may_name_map(name: &[u8]) -> bool
    ensures { result ≡ spec.may_name_map name.now }
{
    matches!(file_kind(name), FileKind::Script | FileKind::StyleSheet)
}
