//! What is done with a map.
ghost use Rattle.std.specs.Prelude.{◌≡◌};
ghost use Rattle.smap_maps_run.specs.Deciding as spec;

use crate::forms::Form;
use smap_command_line::maps::Rewrite;

/// What is done with each map.
#[derive(Clone, Copy, PartialEq, Eq)]
pub(crate) enum Work {
    /// It is read.
    Check { json: bool },
    /// It is compared with a form of it, and rewritten where that is wanted.
    Compare { form: Form, rewrite: Rewrite },
    /// It is repaired, and rewritten where that is wanted.
    Repair { write: bool },
}

/// What is done with a map that would change.
#[derive(Clone, Copy, PartialEq, Eq)]
pub(crate) enum Deed {
    /// It is named.
    Tell,
    /// It is shown what would change.
    Show,
    /// It is left as it is, since it would lose a member.
    Keep,
    /// It is rewritten.
    Write,
}

/// What is done with a map that would change, and that would lose a member or not.
pub(crate) fn decided(rewrite: Rewrite, loses: bool) -> Deed
    ensures { result ≡ spec.decided rewrite loses }
{
    match rewrite {
        Rewrite::Tell { .. } => Deed::Tell,
        Rewrite::Diff => Deed::Show,
        Rewrite::Write { drop, .. } => {
            if loses && !drop {
                Deed::Keep
            } else {
                Deed::Write
            }
        }
    }
}

impl Work {
    /// Whether a line of JSON is written for each map.
    pub(crate) fn wants_json(self) -> bool
        ensures { result ≡ spec.wants_json self }
    {
        match self {
            Work::Check { json } => json,
            Work::Compare { rewrite, .. } => match rewrite {
                Rewrite::Tell { json } | Rewrite::Write { json, .. } => json,
                Rewrite::Diff => false,
            },
            Work::Repair { .. } => false,
        }
    }

    /// Whether its command can rewrite maps.
    pub(crate) fn rewrites(self) -> bool
        ensures { result ≡ spec.rewrites self }
    {
        !matches!(self, Work::Check { .. })
    }
}
