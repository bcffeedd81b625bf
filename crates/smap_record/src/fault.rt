//! Why a map is refused: every kind of fault with its section, its place and its message, and its number
//! in C. Whoever prints a fault adds words such as `refused: ` before the message.
ghost use Rattle.std.specs.Prelude.{◌≡◌, ◌++◌, Some, codes};
ghost use Rattle.smap_record.specs.MessageView.{message_bytes};
ghost use Rattle.smap_record.specs.Faults.{plain, segment_fault};
ghost use Rattle.smap_record.specs.Kinds.{code_and_number, fault_name, kind_message, number_message};
ghost use Rattle.smap_record.specs.Kinds.{spelling_code};
ghost use Rattle.smap_record.specs.Messages.{fault_message, place_message, section_message};

use crate::path::Path;
use itoa::Buffer;
use smap_mappings::{SegmentKind, SegmentPlace};
use smap_shape::ShapeFault;
use smap_vlq::NumberFault;
use std::alloc::{AllocError, AllocFailed};
use std::fmt;

/// What is wrong with a map. A map is refused for the first fault that is met; `docs/FORMAT.md` has the
/// order, and what to do about each fault is in `docs/ERRORS.md`. `Display` writes its message.
#[derive(Clone, Copy, Debug, PartialEq, Eq)]
pub enum Kind {
    /// The input begins with `)]}'` and has no line feed.
    Prefix,
    /// The input, after such a line, isn't JSON in UTF-8.
    Json,
    /// The map, or a section, isn't an object.
    NotObject,
    /// `version` isn't the integer 3.
    Version,
    /// `file` is neither absent nor a string.
    File,
    /// `sections` and `mappings` are both present.
    Both,
    /// `sourceRoot` is neither absent nor a string.
    SourceRoot,
    /// `sources` is neither absent nor an array of strings and nulls.
    Sources,
    /// `sourcesContent` is neither absent nor an array of strings and nulls.
    SourcesContent,
    /// `names` is neither absent nor an array of strings.
    Names,
    /// `ignoreList`, or in its absence `x_google_ignoreList`, is neither absent nor an array of indices of
    /// sources.
    IgnoreList,
    /// `mappings` isn't a string.
    Mappings,
    /// `sections` isn't an array.
    Sections,
    /// A section's `offset` isn't a line and a column of at most 2,147,483,647, or isn't once those of the
    /// sections around it are added.
    Offset,
    /// A section has no `map`, as where it has a `url` instead, or it isn't an object.
    SectionMap,
    /// A section of an index map of level 8 has an index map.
    Nested,
    /// A section's offset, as written, is before that of the previous section of its array.
    Order,
    /// A mapping of an earlier section, at any level, is after the position where this section begins.
    Overlap,
    /// More sources or more names are listed than the limits allow.
    TooMany,
    /// The source with this index, from 0, in its own map's `sources` can't be parsed as a URL.
    SourceUrl(usize),
    /// The URL of the source with this index, from 0, resolved again, is another one.
    UnstableUrl(usize),
    /// A segment of the mappings string is empty.
    Empty,
    /// A number of a segment is invalid: which one, from 1, where 255 stands for 255 or more; and why.
    Number(u8, NumberFault),
    /// A segment has this many numbers, not 1, 4 or 5; 255 stands for 255 or more.
    Count(u8),
    /// A mapping's generated line isn't below the limit on lines.
    GeneratedLine,
    /// A generated column is negative, or above 2,147,483,647.
    Column,
    /// A source index is negative, or not below the number of sources.
    Source,
    /// An original line is negative, or above 2,147,483,647.
    OriginalLine,
    /// An original column is negative, or above 2,147,483,647.
    OriginalColumn,
    /// A name index is negative, or not below the number of names.
    Name,
}

/// The first fault of a map: what is wrong, and where. `Display` writes the message that `docs/ERRORS.md`
/// gives, as in
///
/// ```
/// section 0.2: line 0 segment 1: source index
/// ```
#[derive(Debug, Drop, PartialEq, Eq)]
pub struct Fault {
    /// Which section it is in; empty outside of sections.
    pub section: Path,
    /// The segment that is invalid, in the mappings string of its own map; none for all other faults.
    pub place: Option<SegmentPlace>,
    /// What is wrong.
    pub kind: Kind,
}

/// Why no map was read.
#[derive(Debug, Drop, PartialEq, Eq)]
pub enum ReadError {
    /// The map has this fault, and no earlier one.
    Refused(Fault),
    /// Out of memory, or a URL of 4 GiB or more. It may come in place of any other answer, and says nothing
    /// about the map.
    Memory,
}

/// Why there is no base.
#[derive(Clone, Copy, Debug, PartialEq, Eq)]
pub enum BaseFault {
    /// The string isn't an absolute URL.
    NotUrl,
    /// Out of memory, or a URL of 4 GiB or more.
    Memory,
}

impl From<AllocError> for ReadError {
    ghost use Rattle.std.specs.Prelude.{◌≡◌};
    ghost use Rattle.smap_record.specs.declared.fault.ReadError.TheVariants.{Memory};

    ghost from_gives = { λ _ e. e ≡ Memory };

    fn from(_: AllocError) -> ReadError {
        ReadError::Memory
    }
}

impl<T: Drop> From<AllocFailed<T>> for ReadError {
    ghost use Rattle.std.specs.Prelude.{◌≡◌};
    ghost use Rattle.smap_record.specs.declared.fault.ReadError.TheVariants.{Memory};

    ghost from_gives = { λ _ e. e ≡ Memory };

    fn from(_: AllocFailed<T>) -> ReadError {
        ReadError::Memory
    }
}

/// The error for a fault that is in no section and no segment.
pub(crate) fn refused(kind: Kind) -> ReadError
    ensures { result ≡ ReadError.Refused (plain kind) }
{
    ReadError::Refused(Fault {
        section: Path::outside(),
        place: None,
        kind,
    })
}

impl Fault {
    /// The fault of a segment outside of sections.
    pub fn of_segment(place: SegmentPlace, kind: SegmentKind) -> Fault
        ensures { result ≡ segment_fault (place, kind) }
    {
        Fault {
            section: Path::outside(),
            place: Some(place),
            kind: Kind::from(kind),
        }
    }
}

impl From<ShapeFault> for Kind {
    ghost use Rattle.std.specs.Prelude.{◌≡◌};
    ghost use Rattle.smap_record.specs.Kinds.{kind_of_shape};

    ghost from_gives = { λ fault kind. kind ≡ kind_of_shape fault };

    fn from(fault: ShapeFault) -> Kind {
        match fault {
            ShapeFault::NotObject => Kind::NotObject,
            ShapeFault::Version => Kind::Version,
            ShapeFault::File => Kind::File,
            ShapeFault::Both => Kind::Both,
            ShapeFault::SourceRoot => Kind::SourceRoot,
            ShapeFault::Sources => Kind::Sources,
            ShapeFault::SourcesContent => Kind::SourcesContent,
            ShapeFault::Names => Kind::Names,
            ShapeFault::IgnoreList => Kind::IgnoreList,
            ShapeFault::Mappings => Kind::Mappings,
            ShapeFault::Sections => Kind::Sections,
            ShapeFault::Offset => Kind::Offset,
            ShapeFault::SectionMap => Kind::SectionMap,
            ShapeFault::Nested => Kind::Nested,
        }
    }
}

impl From<SegmentKind> for Kind {
    ghost use Rattle.std.specs.Prelude.{◌≡◌};
    ghost use Rattle.smap_record.specs.Kinds.{kind_of_segment};

    ghost from_gives = { λ segment kind. kind ≡ kind_of_segment segment };

    fn from(kind: SegmentKind) -> Kind {
        match kind {
            SegmentKind::Empty => Kind::Empty,
            SegmentKind::Number(which, fault) => Kind::Number(which, fault),
            SegmentKind::Count(n) => Kind::Count(n),
            SegmentKind::GeneratedLine => Kind::GeneratedLine,
            SegmentKind::Column => Kind::Column,
            SegmentKind::Source => Kind::Source,
            SegmentKind::OriginalLine => Kind::OriginalLine,
            SegmentKind::OriginalColumn => Kind::OriginalColumn,
            SegmentKind::Name => Kind::Name,
        }
    }
}

/// The number of a misspelled number in C.
fn spelling_code(fault: NumberFault) -> u32
    ensures { result ≡ spelling_code fault }
{
    match fault {
        NumberFault::Unfinished => 23,
        NumberFault::Character => 24,
        NumberFault::TooLarge => 25,
        NumberFault::NegativeZero => 26,
    }
}

impl Kind {
    /// The number of the kind in C, as `smap.h` has it, and the number that it carries, or 0.
    pub fn code_and_number(self) -> (u32, usize)
        ensures { result ≡ code_and_number self }
    {
        match self {
            Kind::Prefix => (1, 0),
            Kind::Json => (2, 0),
            Kind::NotObject => (3, 0),
            Kind::Version => (4, 0),
            Kind::File => (5, 0),
            Kind::Both => (6, 0),
            Kind::SourceRoot => (7, 0),
            Kind::Sources => (8, 0),
            Kind::SourcesContent => (9, 0),
            Kind::Names => (10, 0),
            Kind::IgnoreList => (11, 0),
            Kind::Mappings => (12, 0),
            Kind::Sections => (13, 0),
            Kind::Offset => (14, 0),
            Kind::SectionMap => (15, 0),
            Kind::Nested => (16, 0),
            Kind::Order => (17, 0),
            Kind::Overlap => (18, 0),
            Kind::TooMany => (19, 0),
            Kind::SourceUrl(i) => (20, i),
            Kind::UnstableUrl(i) => (21, i),
            Kind::Empty => (22, 0),
            Kind::Number(which, fault) => (spelling_code(fault), usize::from(which)),
            Kind::Count(n) => (27, usize::from(n)),
            Kind::GeneratedLine => (28, 0),
            Kind::Column => (29, 0),
            Kind::Source => (30, 0),
            Kind::OriginalLine => (31, 0),
            Kind::OriginalColumn => (32, 0),
            Kind::Name => (33, 0),
        }
    }
}

/// The name of the kind that has this number in C, or nothing for a number that is none.
pub fn fault_name(kind: u32) -> &'static str
    ensures { result.now ≡ fault_name kind }
{
    match kind {
        1 => "Prefix",
        2 => "Json",
        3 => "NotObject",
        4 => "Version",
        5 => "File",
        6 => "Both",
        7 => "SourceRoot",
        8 => "Sources",
        9 => "SourcesContent",
        10 => "Names",
        11 => "IgnoreList",
        12 => "Mappings",
        13 => "Sections",
        14 => "Offset",
        15 => "SectionMap",
        16 => "Nested",
        17 => "Order",
        18 => "Overlap",
        19 => "TooMany",
        20 => "SourceUrl",
        21 => "UnstableUrl",
        22 => "Empty",
        23 => "Unfinished",
        24 => "Character",
        25 => "TooLarge",
        26 => "NegativeZero",
        27 => "Count",
        28 => "GeneratedLine",
        29 => "Column",
        30 => "Source",
        31 => "OriginalLine",
        32 => "OriginalColumn",
        33 => "Name",
        _ => "",
    }
}

/// The message of a kind: words, or words before and after a number.
#[derive(Clone, Copy)]
enum Message {
    Plain(&'static str),
    Numbered(&'static str, usize, &'static str),
}

/// What is wrong with a number, after its number in the segment.
fn number_message(fault: NumberFault) -> &'static str
    ensures { result.now ≡ codes ": " ++ number_message fault }
{
    match fault {
        NumberFault::Unfinished => ": unfinished",
        NumberFault::Character => ": bad character",
        NumberFault::TooLarge => ": too large",
        NumberFault::NegativeZero => ": negative zero",
    }
}

/// What a kind says.
fn message_of(kind: Kind) -> Message
    ensures { message_bytes result ≡ kind_message kind }
{
    match kind {
        Kind::Prefix => Message::Plain("prefix without line feed"),
        Kind::Json => Message::Plain("not json"),
        Kind::NotObject => Message::Plain("not an object"),
        Kind::Version => Message::Plain("version"),
        Kind::File => Message::Plain("file"),
        Kind::Both => Message::Plain("sections beside mappings"),
        Kind::SourceRoot => Message::Plain("sourceRoot"),
        Kind::Sources => Message::Plain("sources"),
        Kind::SourcesContent => Message::Plain("sourcesContent"),
        Kind::Names => Message::Plain("names"),
        Kind::IgnoreList => Message::Plain("ignoreList"),
        Kind::Mappings => Message::Plain("mappings"),
        Kind::Sections => Message::Plain("sections"),
        Kind::Offset => Message::Plain("offset"),
        Kind::SectionMap => Message::Plain("map"),
        Kind::Nested => Message::Plain("nested sections"),
        Kind::Order => Message::Plain("order"),
        Kind::Overlap => Message::Plain("overlap"),
        Kind::TooMany => Message::Plain("too many sources or names"),
        Kind::SourceUrl(i) => Message::Numbered("source ", i, " is no URL"),
        Kind::UnstableUrl(i) => Message::Numbered("source ", i, " has an unstable URL"),
        Kind::Empty => Message::Plain("empty segment"),
        Kind::Number(which, fault) => {
            Message::Numbered("number ", which as usize, number_message(fault))
        }
        Kind::Count(count) => Message::Numbered("", count as usize, " numbers"),
        Kind::GeneratedLine => Message::Plain("generated line"),
        Kind::Column => Message::Plain("generated column"),
        Kind::Source => Message::Plain("source index"),
        Kind::OriginalLine => Message::Plain("original line"),
        Kind::OriginalColumn => Message::Plain("original column"),
        Kind::Name => Message::Plain("name index"),
    }
}

impl fmt::Display for Kind {
    ghost output = { λ kind. Some (kind_message kind) };

    fn fmt<W: fmt::Write>(&self, f: &mut fmt::Formatter<W>) -> fmt::Result {
        match message_of(*self) {
            Message::Plain(words) => write!(f, "{words}"),
            Message::Numbered(before, number, after) => {
                write!(f, "{before}{}{after}", Buffer::new().format(number))
            }
        }
    }
}

/// The section that a fault is in, if it is in one, as its message has it.
#[derive(Drop)]
struct InSection<'a>(&'a Path);

impl fmt::Display for InSection<'_> {
    ghost output = { λ section. Some (section_message section.0.now) };

    fn fmt<W: fmt::Write>(&self, f: &mut fmt::Formatter<W>) -> fmt::Result {
        let path = self.0;
        if path.numbers().is_empty() {
            return Ok(());
        }
        write!(f, "section {path}: ")
    }
}

/// The segment that a fault is in, if it is in one, as its message has it.
#[derive(Drop)]
struct InSegment(Option<SegmentPlace>);

impl fmt::Display for InSegment {
    ghost output = { λ segment. Some (place_message segment.0) };

    fn fmt<W: fmt::Write>(&self, f: &mut fmt::Formatter<W>) -> fmt::Result {
        match self.0 {
            None => Ok(()),
            Some(SegmentPlace { line, segment }) => write!(
                f,
                "line {} segment {}: ",
                Buffer::new().format(line),
                Buffer::new().format(segment)
            ),
        }
    }
}

/// Lines, segments, sections and sources count from 0, and the numbers of a segment from 1.
impl fmt::Display for Fault {
    ghost output = { λ fault. Some (fault_message fault) };

    #[tactic(auto, unfolding(crate::specs::Messages::fault_message))]
    fn fmt<W: fmt::Write>(&self, f: &mut fmt::Formatter<W>) -> fmt::Result {
        write!(
            f,
            "{}{}{}",
            InSection(&self.section),
            InSegment(self.place),
            self.kind
        )
    }
}
