//! Why maps aren't composed, and why a map isn't built.
use smap_mappings::SegmentKind;
use std::alloc::{AllocError, AllocFailed};

/// Why maps aren't composed.
#[derive(Clone, Copy, Debug, PartialEq, Eq)]
pub enum ComposeError {
    /// The composition would list more sources, or use more names, than the limits allow.
    TooMany,
    /// Memory ran out.
    Memory,
}

impl From<AllocError> for ComposeError {
    ghost use Rattle.std.specs.Prelude.{◌≡◌};
    ghost use Rattle.smap_compose.specs.declared.error.ComposeError.TheVariants as errors;

    ghost from_gives = { λ _ e. e ≡ errors.Memory };

    fn from(_: AllocError) -> ComposeError {
        ComposeError::Memory
    }
}

impl<T: Drop> From<AllocFailed<T>> for ComposeError {
    ghost use Rattle.std.specs.Prelude.{◌≡◌};
    ghost use Rattle.smap_compose.specs.declared.error.ComposeError.TheVariants as errors;

    ghost from_gives = { λ _ e. e ≡ errors.Memory };

    fn from(_: AllocFailed<T>) -> ComposeError {
        ComposeError::Memory
    }
}

/// Why a call of a [`Builder`](crate::Builder) fails.
#[derive(Clone, Copy, Debug, PartialEq, Eq)]
pub enum BuildError {
    /// The source leads to no URL.
    SourceUrl,
    /// As many sources, or names, are listed already as the limits allow.
    TooMany,
    /// No source has this number.
    Source,
    /// The first number of the mapping that is out of bounds: `GeneratedLine`, `Column`, `Source`,
    /// `OriginalLine`, `OriginalColumn` or `Name`.
    Mapping(SegmentKind),
    /// Memory ran out.
    Memory,
}

impl From<AllocError> for BuildError {
    ghost use Rattle.std.specs.Prelude.{◌≡◌};
    ghost use Rattle.smap_compose.specs.declared.error.BuildError.TheVariants as errors;

    ghost from_gives = { λ _ e. e ≡ errors.Memory };

    fn from(_: AllocError) -> BuildError {
        BuildError::Memory
    }
}

impl<T: Drop> From<AllocFailed<T>> for BuildError {
    ghost use Rattle.std.specs.Prelude.{◌≡◌};
    ghost use Rattle.smap_compose.specs.declared.error.BuildError.TheVariants as errors;

    ghost from_gives = { λ _ e. e ≡ errors.Memory };

    fn from(_: AllocFailed<T>) -> BuildError {
        BuildError::Memory
    }
}
