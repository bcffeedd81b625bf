//! The status of a run.
ghost use Rattle.std.specs.Prelude.{◌≡◌, ◌≢◌};
ghost use Rattle.smap_view_run.specs.Status as spec;

/// What was found wrong in a run that did all that it was asked, or all that could be done.
#[derive(Clone, Copy, PartialEq, Eq)]
pub(crate) struct Verdict {
    /// Whether a map was refused, or a script of a folder left out.
    pub(crate) refused: bool,
    /// Whether one was left out because a file can't be read.
    pub(crate) unread: bool,
    /// Whether sources have more bytes than they may have.
    pub(crate) over_budget: bool,
}

impl Verdict {
    /// Nothing wrong yet.
    pub(crate) fn new() -> Verdict
        ensures { result ≡ spec.nothing_wrong }
    {
        Verdict {
            refused: false,
            unread: false,
            over_budget: false,
        }
    }

    /// Notes that a script of a folder is left out, of which a run alone would end with this status. No run
    /// that leaves one out ends as if all was well.
    pub(crate) fn with_left_out(self, status: u8) -> Verdict
        ensures noted { result ≡ spec.with_left_out status self }
        ensures told { spec.status result ≢ 0 }
    {
        if status == 3 {
            Verdict {
                unread: true,
                ..self
            }
        } else {
            Verdict {
                refused: true,
                ..self
            }
        }
    }

    /// The exit status.
    pub(crate) fn status(self) -> u8
        ensures { result ≡ spec.status self }
    {
        if self.unread {
            3
        } else if self.refused || self.over_budget {
            1
        } else {
            0
        }
    }
}
