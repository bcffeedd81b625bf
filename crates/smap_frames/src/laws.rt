//! Laws about the definitions. Each is the contract of a function that does nothing.
ghost use Rattle.smap_frames.specs.Laws.{FrameIsComputed, OneReading};

/// The function that finds frames finds exactly those of the grammar.
pub fn frames_are_computed()
    ensures { FrameIsComputed }
{}

/// A line is a frame in at most one way.
pub fn one_reading()
    ensures { OneReading }
{}
