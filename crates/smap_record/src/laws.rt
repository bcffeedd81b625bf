//! Laws about nested index maps. Each is the contract of a function that does nothing.
ghost use Rattle.smap_record.specs.Laws.{PlacingIsAssociative, SectionsByLevel, NoneBelowLastLevel, OldTexts};

/// A position placed by an inner offset and then by an outer one is placed by both offsets combined.
pub fn placing_is_associative()
    ensures { PlacingIsAssociative }
{}

/// How nested index maps are read, level by level: at every level but the last, an index map in a section
/// is added by its sections, which are those of an index map of the next level; at the last level no section
/// that is accepted has an index map.
pub fn sections_by_level()
    ensures levels { SectionsByLevel }
    ensures last { NoneBelowLastLevel }
{}

/// A map without nested index maps is read as by a reader that refuses these, and one that such a reader
/// refuses has the same fault, unless that is nested sections.
pub fn old_texts()
    ensures { OldTexts }
{}
