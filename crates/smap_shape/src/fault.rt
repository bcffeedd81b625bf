//! What can be wrong with the members of a map or of a section.

/// What is wrong with the members of a map or of a section.
///
/// [`shape`](crate::shape) reports the first of NotObject, Version, File, Both; then of a flat map
/// SourceRoot, Sources, SourcesContent, Names, IgnoreList, Mappings, and of an index map Sections.
/// [`section`](crate::section) reports the first of NotObject, Offset, SectionMap, Nested. A member that is
/// null counts as absent everywhere; that, and refusing a map where the standard would skip a member of
/// the wrong type, are this project's own rules.
#[derive(Clone, Copy, PartialEq, Eq)]
pub enum ShapeFault {
    /// The map, or the section, isn't an object.
    NotObject,
    /// `version` isn't the integer 3: it is absent, a string, `3.0` or another number.
    Version,
    /// `file` is present, and not a string.
    File,
    /// `sections` and `mappings` are both present.
    Both,
    /// `sourceRoot` is present, and not a string.
    SourceRoot,
    /// `sources` is present, and not an array of strings and nulls.
    Sources,
    /// `sourcesContent` is present, and not an array of strings and nulls. Entries beyond the last source
    /// are checked too.
    SourcesContent,
    /// `names` is present, and not an array of strings.
    Names,
    /// `ignoreList`, or in its absence `x_google_ignoreList`, is present, and not an array of integers
    /// below the number of sources.
    IgnoreList,
    /// `mappings` is absent, or not a string.
    Mappings,
    /// `sections` isn't an array.
    Sections,
    /// A section's `offset` isn't an object with a `line` and a `column`, both integers from 0 to
    /// 2,147,483,647.
    Offset,
    /// A section's `map` is absent, as where it has a `url` instead, or isn't an object.
    SectionMap,
    /// The `map` of a section of an index map of level 8 has `sections`.
    Nested,
}
