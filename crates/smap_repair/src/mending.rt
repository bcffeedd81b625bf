//! A text while it is mended, from its front to its end: what is done of it, and what is left. Each repair is
//! asked of the list before it is made.
ghost use Rattle.std.specs.Prelude.{◌≡◌, ◌++◌, ◌≤◌, length, ℕ, List, IfOk, IfSome};
ghost use Rattle.smap_repair.specs.Leading.{Leads};

use crate::listed::is_listed;
use crate::repair::{Change, Repair};
use smap_record::Path;
use std::alloc::{AllocError, Global};

/// A text that is mended to some place.
#[derive(Drop)]
struct Mending<'t> {
    /// The mended text up to that place.
    done: Vec<u8>,
    /// The rest of the text as it was.
    left: &'t [u8],
    /// The repairs that were made.
    repairs: Vec<Repair>,
}

/// A text with the repairs that were made of it.
#[derive(Drop)]
pub(crate) struct Mended {
    pub(crate) text: Vec<u8>,
    pub(crate) repairs: Vec<Repair>,
}

/// A repair that is to be made: what becomes what, and where, in bytes of the text as it was.
#[derive(Drop)]
pub(crate) struct Edit {
    pub(crate) start: usize,
    pub(crate) change: Change,
    pub(crate) section: Path,
    pub(crate) before: String,
    pub(crate) after: String,
}

impl<'t> Mending<'t> {
    /// The same text, mended to a place that is this many bytes further on.
    fn passed(self, count: usize) -> Result<Mending<'t>, AllocError>
        requires { count ≤ length self.left.now }
        ensures text { IfOk result (λ m. m.done.items ++ m.left.now
            ≡ self.entry.done.items ++ self.entry.left.now) }
        ensures repairs { IfOk result (λ m. m.repairs ≡ self.entry.repairs) }
    {
        let Mending {
            mut done,
            left,
            repairs,
        } = self;
        done.extend_from_slice(&left[..count])?;
        Ok(Mending {
            done,
            left: &left[count..],
            repairs,
        })
    }

    /// The text with this repair made at this place; none if the text is another there, or the repair isn't
    /// listed.
    fn replaced(self, alloc: Global, edit: Edit) -> Result<Option<Mending<'t>>, AllocError>
        ensures { IfOk result (λ o. IfSome o (λ m. (old : List ℕ)
            → Leads self.entry.repairs.items old (self.entry.done.items ++ self.entry.left.now)
            → Leads m.repairs.items old (m.done.items ++ m.left.now))) }
    {
        let Mending {
            mut done,
            left,
            mut repairs,
        } = self;
        let Some(behind) = left.strip_prefix(edit.before.as_bytes()) else {
            return Ok(None);
        };
        if !is_listed(alloc, &edit, &done, behind)? {
            return Ok(None);
        }
        let Edit {
            change,
            section,
            before,
            after,
            ..
        } = edit;
        let start = done.len();
        done.extend_from_slice(after.as_bytes())?;
        repairs.push(Repair {
            change,
            section,
            start,
            before,
            after,
        })?;
        Ok(Some(Mending {
            done,
            left: behind,
            repairs,
        }))
    }
}

/// The text further on with this repair made at its place, of which the rest of the whole text is left; none
/// if it can't be made there.
fn with_edit<'t>(
    alloc: Global,
    mending: Mending<'t>,
    length: usize,
    edit: Edit,
) -> Result<Option<Mending<'t>>, AllocError>
    ensures { IfOk result (λ o. IfSome o (λ m. (old : List ℕ)
        → Leads mending.entry.repairs.items old (mending.entry.done.items ++ mending.entry.left.now)
        → Leads m.repairs.items old (m.done.items ++ m.left.now))) }
{
    // `left` is at the end of the whole text.
    let at = length.saturating_sub(mending.left.len());
    let Some(count) = edit.start.checked_sub(at) else {
        return Ok(None);
    };
    if count > mending.left.len() {
        return Ok(None);
    }
    mending.passed(count)?.replaced(alloc, edit)
}

/// The text with these repairs made, which are in the order of their places, after those that led to it; none
/// if one of them can't be made.
pub(crate) fn with_edits(
    alloc: Global,
    text: &[u8],
    repairs: Vec<Repair>,
    edits: Vec<Edit>,
) -> Result<Option<Mended>, AllocError>
    ensures { IfOk result (λ o. IfSome o (λ m. (old : List ℕ)
        → Leads repairs.items old text.now → Leads m.repairs.items old m.text.items)) }
{
    let mut mending = Mending {
        done: Vec::new(alloc),
        left: text,
        repairs,
    };
    for edit in edits {
        match with_edit(alloc, mending, text.len(), edit)? {
            Some(next) => mending = next,
            None => return Ok(None),
        }
    }
    let Mending {
        mut done,
        left,
        repairs,
    } = mending;
    done.extend_from_slice(left)?;
    Ok(Some(Mended {
        text: done,
        repairs,
    }))
}
