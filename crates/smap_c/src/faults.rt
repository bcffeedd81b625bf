//! Faults, as C sees them.
ghost use Rattle.std.specs.Prelude.{◌≡◌, length};
ghost use Rattle.smap_record.specs.Kinds.{fault_name};
ghost use Rattle.smap_c_answers.specs.Strings.{copied};
ghost use Rattle.smap_c.specs.Faults.{padded_path, padded_text};
ghost use Rattle.smap_c.specs.Faults.{reported_with, IsWhole, ReportsFault};

use smap_c_answers::{MEMORY, REFUSED, copy_out, fault_text};
use smap_record::{Fault, Path, fault_name};
use std::alloc::Global;

/// As many bytes as the words of any fault take, which are at most 260, and zeros after them.
const ROOM: usize = 264;

/// The first fault of a map or of a mappings text. The place is that of its segment, where it has one, else
/// 0; `depth` is how many numbers of `section` count; the text is followed by zeros.
#[repr(C)]
#[derive(Clone, Copy)]
pub struct SmapFault {
    pub kind: u32,
    pub line: u32,
    pub segment: u32,
    pub has_place: bool,
    pub number: usize,
    pub depth: usize,
    pub section: [usize; 8],
    pub text_len: usize,
    pub text: [u8; ROOM],
}

/// The words, followed by zeros.
fn padded(words: &[u8]) -> [u8; ROOM]
    ensures { result ≡ padded_text words.now }
{
    let mut text = [0; ROOM];
    copy_out(words, &mut text);
    text
}

/// The numbers of a path, followed by zeros.
fn padded_path(path: &Path) -> [usize; 8]
    ensures { result ≡ padded_path path.now }
{
    let mut section = [0; 8];
    copy_out(path.numbers(), &mut section);
    section
}

/// The fault with its words.
fn reported_with(fault: &Fault, words: &[u8]) -> SmapFault
    ensures { result ≡ reported_with words.now fault.now }
{
    let (kind, number) = fault.kind.code_and_number();
    let (line, segment) = match fault.place {
        Some(place) => (place.line, place.segment),
        None => (0, 0),
    };
    SmapFault {
        kind,
        line,
        segment,
        has_place: fault.place.is_some(),
        number,
        depth: fault.section.numbers().len(),
        section: padded_path(&fault.section),
        text_len: words.len(),
        text: padded(words),
    }
}

/// Reports a fault, and answers that it is one; or that memory ran out.
pub(crate) fn report_fault(alloc: Global, fault: &Fault, out: &mut SmapFault) -> u32
    ensures reported { ReportsFault fault.now out.old out.new result }
    ensures whole { IsWhole out.new result }
{
    match fault_text(alloc, fault) {
        Ok(words) => {
            *out = reported_with(fault, words.as_bytes());
            REFUSED
        }
        Err(_) => MEMORY,
    }
}

/// Copies the name of a kind, and answers how long it is.
#[unsafe(no_mangle)]
pub extern "C" fn smap_fault_name(kind: u32, out: &mut [u8]) -> usize
    ensures len { result ≡ length (fault_name kind) }
    ensures copied { out.new ≡ copied (fault_name kind) out.old }
{
    copy_out(fault_name(kind).as_bytes(), out)
}
