//! Laws about canonical bytes. Each is the contract of a function that does nothing, and is about the
//! definitions only.
//!
//! Both have the premise that the compact text of the canonical JSON tree reads back as that tree. It is a
//! promise of `canonical`.
ghost use Rattle.smap_canon.specs.Laws.{CanonicalBytesAreAFixedPoint, EqualBytesForEqualRecordsOnly};

/// Canonical bytes are a fixed point: those of a record that fits a base and limits are accepted under
/// these, with the same record, and are its canonical bytes again.
pub fn canonical_bytes_are_a_fixed_point()
    ensures { CanonicalBytesAreAFixedPoint }
{}

/// Two records that fit a base and limits are equal exactly if their canonical bytes are.
pub fn equal_bytes_for_equal_records_only()
    ensures { EqualBytesForEqualRecordsOnly }
{}
