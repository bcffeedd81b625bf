//! Laws about the translation of whole traces. Each is the contract of a function that does nothing.
ghost use Rattle.smap_trace.specs.TraceLaws.{NamedAreOfFrames, NamedSuffice, PartsAreTranslated};
ghost use Rattle.smap_trace.specs.TraceLaws.{UnfoundAreLeftOut, UnnamedAreLeftOut};

/// A trace that is cut behind a line feed is translated part by part: its translation is that of the first
/// part and then that of the second, and its counts are the sums of theirs.
pub fn parts_are_translated()
    ensures { PartsAreTranslated }
{}

/// The URLs that [`named_scripts`](crate::named_scripts) returns for a trace are exactly those of its lines
/// that are frames by the grammar.
pub fn named_are_of_frames()
    ensures { NamedAreOfFrames }
{}

/// Where positions are found in frames, scripts can be left out if no frame of a trace has the URL of one of
/// them: the translation of the trace and the counts stay the same.
pub fn unnamed_are_left_out()
    ensures { UnnamedAreLeftOut }
{}

/// Where positions are found in frames, a trace is translated alike with those scripts alone whose URLs
/// [`named_scripts`](crate::named_scripts) returns for it.
pub fn named_suffice()
    ensures { NamedSuffice }
{}

/// In each way of finding positions, scripts can be left out if none of them is found: neither as that of
/// a frame of the trace nor, where positions are found anywhere, among the pieces of a line.
pub fn unfound_are_left_out()
    ensures { UnfoundAreLeftOut }
{}
