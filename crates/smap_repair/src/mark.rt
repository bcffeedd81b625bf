//! A byte order mark before a text.
ghost use Rattle.std.specs.Prelude.{◌≡◌, true, IfOk};
ghost use Rattle.smap_repair.specs.Leading.{Leads};
ghost use Rattle.smap_repair.specs.Members.{AreOfText};
ghost use Rattle.smap_repair.specs.Unmarking.{IsRemoval, IsUnmarked, is_marked};

use crate::mending::Mended;
use crate::repair::{Change, Repair};
use smap_record::Path;
use std::alloc::{AllocError, Global};

/// The byte order mark.
const MARK: &str = "\u{feff}";

/// The repair that removes the mark.
fn removal(alloc: Global) -> Result<Repair, AllocError>
    ensures { IfOk result IsRemoval }
{
    Ok(Repair {
        change: Change::ByteOrderMark,
        section: Path::outside(),
        start: 0,
        before: String::from_str(alloc, MARK)?,
        after: String::new(alloc),
    })
}

/// The text without a mark at its front.
pub(crate) fn without_mark(alloc: Global, text: &[u8]) -> Result<Mended, AllocError>
    ensures leads { IfOk result (λ m. Leads m.repairs.items text.now m.text.items) }
    ensures of_text { IfOk result (λ m. AreOfText m.repairs.items) }
    ensures removed { IfOk result
        (λ m. is_marked text.now ≡ true → IsUnmarked text.now m.text.items m.repairs.items) }
{
    let Some(rest) = text.strip_prefix(MARK.as_bytes()) else {
        return Ok(Mended {
            text: Vec::from_slice(alloc, text)?,
            repairs: Vec::new(alloc),
        });
    };
    let mut repairs = Vec::new(alloc);
    repairs.push(removal(alloc)?)?;
    Ok(Mended {
        text: Vec::from_slice(alloc, rest)?,
        repairs,
    })
}
