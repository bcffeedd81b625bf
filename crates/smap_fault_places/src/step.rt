//! The steps that lead to a value in the JSON tree of a source map.
ghost use Rattle.std.specs.Prelude.{◌≡◌};
ghost use Rattle.smap_fault_places.specs.Paths as spec;

/// The name of a member of a source map, or of a section (ECMA-426, "Source map format" and "Index source
/// map").
#[derive(Clone, Copy, PartialEq, Eq)]
pub enum Key {
    /// `version`
    Version,
    /// `file`
    File,
    /// `sourceRoot`
    SourceRoot,
    /// `sources`
    Sources,
    /// `sourcesContent`
    SourcesContent,
    /// `names`
    Names,
    /// `ignoreList`
    IgnoreList,
    /// `x_google_ignoreList`, the older name of `ignoreList`
    OlderIgnoreList,
    /// `mappings`
    Mappings,
    /// `sections`
    Sections,
    /// `offset`, of a section
    Offset,
    /// `map`, of a section
    Map,
}

/// A step from a value to one within it.
#[derive(Clone, Copy, PartialEq, Eq)]
pub enum Step {
    /// To the member of an object with this name; to the last one, if there are several.
    Member(Key),
    /// To the entry of an array with this index, from 0.
    Entry(usize),
}

impl Key {
    /// The name as it is in the map.
    pub fn name(self) -> &'static str
        ensures { result.now ≡ spec.name self }
    {
        match self {
            Key::Version => "version",
            Key::File => "file",
            Key::SourceRoot => "sourceRoot",
            Key::Sources => "sources",
            Key::SourcesContent => "sourcesContent",
            Key::Names => "names",
            Key::IgnoreList => "ignoreList",
            Key::OlderIgnoreList => "x_google_ignoreList",
            Key::Mappings => "mappings",
            Key::Sections => "sections",
            Key::Offset => "offset",
            Key::Map => "map",
        }
    }
}
