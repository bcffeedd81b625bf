//! What the getters of a source map return: views that borrow its strings.
/// A label of a map: a member by which it says something of itself as a whole.
#[derive(Clone, Copy)]
pub struct LabelView<'a> {
    /// The name of the member.
    pub name: &'static str,
    /// Its text, if the map has it.
    pub text: Option<&'a str>,
}

/// A source of a map.
#[derive(Clone, Copy)]
pub struct SourceView<'a> {
    /// Its URL, absolute and normalized by the URL Standard; none for a `null` in `sources`.
    pub url: Option<&'a str>,
    /// Its content, if `sourcesContent` has it.
    pub content: Option<&'a str>,
    /// Whether it is in the ignore list.
    pub ignored: bool,
}

/// What a mapping maps to: a position in a source, perhaps with a name.
#[derive(Clone, Copy)]
pub struct OriginalView<'a> {
    /// The source.
    pub source: SourceView<'a>,
    /// The index of the source among the distinct ones, for
    /// [`SourceMap::source`](crate::SourceMap::source).
    pub source_number: usize,
    /// The line in the source, from 0.
    pub line: u32,
    /// The column in the source, from 0, in the unit of whoever wrote the map.
    pub column: u32,
    /// The name that the mapping has, if any.
    pub name: Option<&'a str>,
}

/// A mapping, with its source and its name.
#[derive(Clone, Copy)]
pub struct TokenView<'a> {
    /// The generated line, from 0.
    pub line: u32,
    /// The generated column, from 0, in the unit of whoever wrote the map.
    pub column: u32,
    /// What it maps to; none where it says that its position has no original.
    pub original: Option<OriginalView<'a>>,
}
