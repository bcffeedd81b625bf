//! The script of a map, where none is named.
use smap_system::parted;

/// A name, unless it is the map's own.
fn usable<'a>(map: &str, name: &'a str) -> &'a str {
    if name == map { "" } else { name }
}

/// What the script next to a map with this name is called: first as the last part of the map's member `file`,
/// and then as the map without `.map`; empty where that says nothing. So a map can't name a file elsewhere.
pub fn script_names<'a>(map: &'a str, file: Option<&'a str>) -> (&'a str, &'a str) {
    let (_, named) = parted(file.unwrap_or(""));
    let without = map.strip_suffix(".map").unwrap_or(map);
    (usable(map, named), usable(map, without))
}
