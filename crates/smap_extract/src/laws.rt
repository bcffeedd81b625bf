//! What holds of paths. Each law is the contract of a function that does nothing.
ghost use Rattle.smap_extract.specs.Laws.{NumbersAreSafe, PathsAreSafe};

/// Whatever a URL says, its path has a name, and each of its names is safe.
pub fn paths_are_safe()
    ensures { PathsAreSafe }
{}

/// A name with a number is safe.
pub fn numbers_are_safe()
    ensures { NumbersAreSafe }
{}
