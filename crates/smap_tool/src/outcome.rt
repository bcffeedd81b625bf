//! The outcome of a run, and its exit status.
ghost use Rattle.std.specs.Prelude.{◌≡◌};
ghost use Rattle.smap_tool.specs.Status.{status_of};

use smap_mappings::Memory;
use thiserror::Error;

/// The outcome of a run that wrote its whole answer.
#[derive(Clone, Copy, Debug, PartialEq, Eq)]
pub enum Outcome {
    /// The input was accepted.
    Done,
    /// The input has a fault, and its error line was written.
    Refused,
}

/// Why a run was given up.
#[derive(Clone, Copy, Debug, PartialEq, Eq, Error)]
pub enum RunFault {
    /// The input, or a map of a bundle, has more than 268,435,456 bytes.
    #[error("input too long")]
    TooLong,
    /// A read failed, or too many reads didn't reach the end.
    #[error("read failed")]
    Read,
    /// A write or the flush failed.
    #[error("write failed")]
    Write,
    /// Out of memory.
    #[error("out of memory")]
    Memory,
}

impl From<Memory> for RunFault {
    ghost use Rattle.std.specs.Prelude.{◌≡◌};
    ghost use Rattle.smap_tool.specs.declared.outcome.RunFault.TheVariants as run;

    ghost from_gives = { λ _ fault. fault ≡ run.Memory };

    fn from(_memory: Memory) -> RunFault {
        RunFault::Memory
    }
}

/// The exit status of the program after a run: 0 for `Done`, 1 for `Refused`, 3 for `TooLong`, `Read` and
/// `Write`, and 4 for `Memory`. (A wrong command line has status 2.)
pub fn status(answer: &Result<Outcome, RunFault>) -> u8
    ensures { result ≡ status_of answer.now }
{
    match answer {
        Ok(Outcome::Done) => 0,
        Ok(Outcome::Refused) => 1,
        Err(RunFault::TooLong | RunFault::Read | RunFault::Write) => 3,
        Err(RunFault::Memory) => 4,
    }
}
