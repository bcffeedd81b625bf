//! The member that a fault is about.
ghost use Rattle.std.specs.Prelude.{◌≡◌, option_map};
ghost use Rattle.serde_json.specs.View.{view};
ghost use Rattle.smap_fault_places.specs.Faults as spec;

use crate::{Key, Step};
use serde_json::Value;
use smap_record::Kind;

/// Whether the fault is one of a section and not of the map in it, or is that the map isn't an object.
pub(crate) fn is_of_section(kind: Kind) -> bool
    ensures { result ≡ spec.is_of_section kind }
{
    matches!(
        kind,
        Kind::NotObject
            | Kind::Offset
            | Kind::SectionMap
            | Kind::Nested
            | Kind::Order
            | Kind::Overlap
    )
}

/// The list of ignored sources that is read of a map, by its name.
fn list_key(map: Option<&Value>) -> Key
    ensures { result ≡ spec.list_key (option_map (λ v. view v.now) map.entry) }
{
    match map.and_then(|map| map.get("ignoreList")) {
        Some(list) if !list.is_null() => Key::IgnoreList,
        _ => Key::OlderIgnoreList,
    }
}

/// The member that a fault of this kind is about, in the map or section, if it is about one.
pub(crate) fn key_of(map: Option<&Value>, kind: Kind) -> Option<Key>
    ensures { result ≡ spec.key_of (option_map (λ v. view v.now) map.entry) kind }
{
    match kind {
        Kind::Prefix | Kind::Json | Kind::NotObject | Kind::TooMany => None,
        Kind::Version => Some(Key::Version),
        Kind::File => Some(Key::File),
        Kind::SourceRoot => Some(Key::SourceRoot),
        Kind::Sources | Kind::SourceUrl(_) | Kind::UnstableUrl(_) => Some(Key::Sources),
        Kind::SourcesContent => Some(Key::SourcesContent),
        Kind::Names => Some(Key::Names),
        Kind::IgnoreList => Some(list_key(map)),
        Kind::Sections => Some(Key::Sections),
        Kind::Offset | Kind::Order | Kind::Overlap => Some(Key::Offset),
        Kind::SectionMap | Kind::Nested => Some(Key::Map),
        // The other faults are that there are no mappings, or sections beside them, and those of segments.
        _ => Some(Key::Mappings),
    }
}

/// The step from that member to what the fault is about, if there is one.
pub(crate) fn step_of(kind: Kind) -> Option<Step>
    ensures { result ≡ spec.step_of kind }
{
    match kind {
        Kind::Nested => Some(Step::Member(Key::Sections)),
        Kind::SourceUrl(index) | Kind::UnstableUrl(index) => Some(Step::Entry(index)),
        _ => None,
    }
}
