//! `URL:LINE:COLUMN`, as a trace has it.
ghost use Rattle.std.specs.Prelude.{◌≡◌, ◌++◌, OnErr, OnOk};
ghost use Rattle.std.specs.Io.{StartsWith};
ghost use Rattle.smap_frames.specs.Frame as spec;

use itoa::Buffer;
use std::alloc::AllocError;

/// Appends a position. If memory runs out, a prefix of it is appended.
pub fn push_position(out: &mut Vec<u8>, url: &str, line: u64, column: u64) -> Result<(), AllocError>
    ensures ok { OnOk result (out.new.items ≡ out.old.items ++ spec.position_text url.now line column) }
    ensures err { OnErr result (StartsWith out.new.items out.old.items) }
{
    out.extend_from_slice(url.as_bytes())?;
    out.extend_from_slice(b":")?;
    out.extend_from_slice(Buffer::new().format(line).as_bytes())?;
    out.extend_from_slice(b":")?;
    out.extend_from_slice(Buffer::new().format(column).as_bytes())
}
