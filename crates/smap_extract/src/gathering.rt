//! What maps hold of their sources.
use crate::path::{SourcePath, source_path};
use indexmap::IndexSet;
use smap_record::SourceMap;
use std::alloc::{AllocError, Global};

/// A content, and the path that it is wanted at.
#[derive(Drop, PartialEq, Eq, Hash)]
pub(crate) struct Piece {
    pub(crate) path: Vec<u8>,
    pub(crate) content: Vec<u8>,
}

/// The contents of sources: those of one path that are equal are one.
#[derive(Drop)]
pub struct Extraction {
    pub(crate) pieces: IndexSet<Piece>,
    /// The paths that these are wanted at, in the same order.
    pub(crate) paths: Vec<SourcePath>,
    /// How many sources of maps have no content.
    pub without: u64,
}

/// A path as text.
pub(crate) fn path_text(alloc: Global, path: &SourcePath) -> Result<Vec<u8>, AllocError> {
    let mut text = Vec::from_slice(alloc, &path.folder)?;
    text.extend_from_slice(&path.name)?;
    Ok(text)
}

fn piece_at(alloc: Global, path: &SourcePath, content: &[u8]) -> Result<Piece, AllocError> {
    let content = Vec::from_slice(alloc, content)?;
    let path = path_text(alloc, path)?;
    Ok(Piece { path, content })
}

impl Extraction {
    /// None is there yet.
    pub fn new(alloc: Global) -> Extraction {
        Extraction {
            pieces: IndexSet::new(alloc),
            paths: Vec::new(alloc),
            without: 0,
        }
    }

    /// Adds the content of the source with this URL.
    fn add(&mut self, alloc: Global, url: &str, content: &str) -> Result<(), AllocError> {
        let path = source_path(alloc, url.as_bytes())?;
        let piece = piece_at(alloc, &path, content.as_bytes())?;
        if self.pieces.insert(piece)? {
            self.paths.push(path)?;
        }
        Ok(())
    }

    /// Adds the contents of a map's sources.
    ///
    /// # Errors
    ///
    /// `AllocError`.
    pub fn add_map(&mut self, alloc: Global, map: &SourceMap) -> Result<(), AllocError> {
        for i in 0..map.source_count() {
            let source = map.source(i);
            match source.content {
                Some(content) => self.add(alloc, source.url.unwrap_or(""), content)?,
                None => self.without = self.without.saturating_add(1),
            }
        }
        Ok(())
    }
}
