//! Laws about mappings strings. Each is the contract of a function that does nothing.
ghost use Rattle.smap_mappings.specs.Laws.{ArrangedByPosition, TextReadsBack, TextIsShort, TextIsLeast};

/// The tokens of a string are sorted by position, and tokens at one position keep the order of the string.
pub fn arrangement()
    ensures { ArrangedByPosition }
{}

/// Tokens that have a string, with lines and indices below the bounds, are what that string decodes to
/// under these bounds, with a start at line 0 and column 0.
pub fn decode_of_encode()
    ensures { TextReadsBack }
{}

/// A canonical string has at most 36 bytes for each token, and one for each line.
pub fn text_length()
    ensures { TextIsShort }
{}

/// The canonical string of tokens is the shortest of all strings whose segments, in the order of the
/// string, are these tokens under the same bounds, with a start at line 0 and column 0; every other such
/// string is longer.
pub fn least_text()
    ensures { TextIsLeast }
{}
