//! The numbers of what a script names for its map, and of what a file is.
ghost use Rattle.std.specs.Prelude.{◌≡◌};
ghost use Rattle.smap_link.specs.Kinds.{says_nothing as is_unsaid};
ghost use Rattle.smap_c_answers.specs.FileKinds.{number_of_kind};
ghost use Rattle.smap_c_answers.specs.Named as spec;

use smap_link::{FileKind, says_nothing};
use smap_map_choice::{Named, NamedFault};

/// The number of why a URL gives neither a map nor a file.
fn number_of_fault(fault: NamedFault) -> u32
    ensures { result ≡ spec.number_of_fault fault }
{
    match fault {
        NamedFault::Garbled => 4,
        NamedFault::NoName => 5,
        NamedFault::NotUrl => 6,
        NamedFault::Leaves => 7,
    }
}

/// The number of what a script with this name, and this text or end of it, names.
pub fn number_of(named: &Named, name: &[u8], text: &[u8]) -> u32
    ensures { result ≡ spec.number_of (is_unsaid name.now text.now) named.now }
{
    match named {
        Named::Nothing if says_nothing(name, text) => 0,
        Named::Nothing => 1,
        Named::Inline(_) => 2,
        Named::File(_) => 3,
        Named::Wrong(fault) => number_of_fault(*fault),
    }
}

/// The number of what a file is by the end of its name.
pub fn number_of_kind(kind: FileKind) -> u32
    ensures { result ≡ number_of_kind kind }
{
    match kind {
        FileKind::Other => 0,
        FileKind::Script => 1,
        FileKind::StyleSheet => 2,
        FileKind::Map => 3,
    }
}
