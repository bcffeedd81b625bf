//! Assertions as calls. A test that calls these is proved several times faster than one with the branches
//! of `assert_eq!` in it, all the more where it keeps a map, a text or a device alive across them. Only tests
//! may end the process, so no library can have these.
use std::fmt::Debug;
use std::process::Abort;

/// Asserts that what was found is what was expected, and otherwise says both, after the row or thing.
pub(crate) fn equal<R: Copy + Debug, T: Copy + Debug + PartialEq>(
    rt: &impl Abort,
    row: R,
    found: T,
    expected: T,
) {
    holds(rt, (row, found, expected), found == expected);
}

/// Asserts a claim, and says otherwise of which row or thing it fails.
pub(crate) fn holds<R: Copy + Debug>(rt: &impl Abort, row: R, claim: bool) {
    assert!(rt; claim, "{row:?}");
}
