//! The map whose path is most like a script's.
ghost use Rattle.std.specs.Prelude.{◌≡◌, ◌+◌, ◌<◌, ℕ, List, [], get_or, length, map};
ghost use Rattle.smap_link.specs.Likeness as spec;
ghost use Rattle.smap_link.specs.Likeness.{IsMostAlike, IsMostAlikeFrom};
ghost use Rattle.smap_link.specs.Tails.{IsAgreement};

use crate::tails::{Agreement, agreement_of};

/// Which of some paths is most like the path of a script.
#[derive(Clone, Copy, Debug, PartialEq, Eq)]
pub enum Likeness {
    /// None ends as the script's path does, in at least one whole segment.
    Unlike,
    /// This one does, in more bytes than each other, or in as many with fewer segments left over.
    Like(usize),
    /// These two do, with as many segments left over, and none more, so that it isn't clear which is meant.
    Unclear(usize, usize),
}

/// The one that is most alike so far, and how much of it is.
#[derive(Clone, Copy)]
pub(crate) struct Best {
    pub(crate) agreement: Agreement,
    pub(crate) found: Likeness,
}

fn is_more(a: Agreement, b: Agreement) -> bool
    ensures { result ≡ spec.is_more a b }
{
    b.size < a.size || (a.size == b.size && a.left < b.left)
}

/// What is most alike once this path is among them, which comes before the others.
pub(crate) fn better(best: Best, i: usize, own: Agreement) -> Best
    ensures { (path : List ℕ) (names : List (List ℕ)) → i < length names
        → IsAgreement path (get_or names i []) own
        → IsMostAlikeFrom path names (i + 1) best.agreement best.found
        → IsMostAlikeFrom path names i result.agreement result.found }
{
    if own.size == 0 || is_more(best.agreement, own) {
        return best;
    }
    if is_more(own, best.agreement) {
        return Best {
            agreement: own,
            found: Likeness::Like(i),
        };
    }
    match best.found {
        Likeness::Like(later) | Likeness::Unclear(later, _) => Best {
            agreement: own,
            found: Likeness::Unclear(i, later),
        },
        Likeness::Unlike => best,
    }
}

/// Which of these paths is most like the path of a script: the one that has the longest end in common with
/// it, by whole segments, and of several such the one with the fewest segments before that end.
pub fn most_alike(path: &[u8], names: &[&[u8]]) -> Likeness
    ensures { IsMostAlike path.now (map (λ n. n.now) names.now) result }
{
    let mut best = Best {
        agreement: Agreement { size: 0, left: 0 },
        found: Likeness::Unlike,
    };
    let mut i = names.len();
    'paths: while i > 0 {
        i -= 1;
        best = better(best, i, agreement_of(path, names[i]));
    }
    best.found
}
