//! Why a run ends before its end.
ghost use Rattle.std.specs.Prelude.{◌≡◌};
ghost use Rattle.smap_system.specs.Status.{status_of};

use std::alloc::{AllocError, AllocFailed};

/// Why a run ends before its end.
#[derive(Clone, Copy, PartialEq, Eq)]
pub enum Stop {
    /// With this status; why was said.
    Reported(u8),
    /// Nobody reads the output any more.
    Unread,
    /// Out of memory.
    Memory,
}

impl Stop {
    /// The exit status of a run that ends so.
    pub fn status(self) -> u8
        ensures { result ≡ status_of self }
    {
        match self {
            Stop::Reported(status) => status,
            Stop::Unread => 141,
            Stop::Memory => 4,
        }
    }
}

impl From<AllocError> for Stop {
    ghost use Rattle.std.specs.Prelude.{◌≡◌};
    ghost use Rattle.smap_system.specs.declared.stop.Stop.TheVariants as stops;

    ghost from_gives = { λ _ s. s ≡ stops.Memory };

    fn from(_error: AllocError) -> Stop {
        Stop::Memory
    }
}

impl<T: Drop> From<AllocFailed<T>> for Stop {
    ghost use Rattle.std.specs.Prelude.{◌≡◌};
    ghost use Rattle.smap_system.specs.declared.stop.Stop.TheVariants as stops;

    ghost from_gives = { λ _ s. s ≡ stops.Memory };

    fn from(_failed: AllocFailed<T>) -> Stop {
        Stop::Memory
    }
}
