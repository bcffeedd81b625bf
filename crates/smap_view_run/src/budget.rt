//! How many bytes sources may have.
use crate::files::read_named;
use crate::job::Other;
use serde_json::Value;
use smap_record::SourceMap;
use smap_system::{Disk, Host, Stop};
use smap_view_page::{Sizes, growth_named, most_after, old_bytes_of};
use std::alloc::Global;

/// How many bytes sources may have, and have so far.
#[derive(Drop)]
struct Allowance {
    /// The sources are those whose URL holds this; all of a script where it is empty.
    name: String,
    most: u64,
    bytes: u64,
}

/// All that is allowed.
#[derive(Drop)]
pub(crate) struct Budget {
    allowances: Vec<Allowance>,
}

fn fail_budget<E: Eprint + AllocGlobal, D: Disk>(host: &Host<'_, E, D>, path: &str) -> Stop {
    host.fail_with(
        2,
        path,
        "expected a JSON object of names and numbers of bytes",
    )
}

/// What a JSON value allows.
fn allowances<E: Eprint + AllocGlobal, D: Disk>(
    host: &Host<'_, E, D>,
    path: &str,
    value: &Value,
) -> Result<Vec<Allowance>, Stop> {
    let alloc = host.alloc();
    let Some(members) = value.as_object() else {
        return Err(fail_budget(host, path));
    };
    let mut allowances = Vec::new(alloc);
    for (name, most) in members {
        let Some(most) = most.as_u64() else {
            return Err(fail_budget(host, path));
        };
        allowances.push(Allowance {
            name: String::from_str(alloc, name.as_str())?,
            most,
            bytes: 0,
        })?;
    }
    Ok(allowances)
}

/// The most bytes that a growth over the other build allows.
fn most_grown<E: Eprint + AllocGlobal, D: Disk>(
    host: &Host<'_, E, D>,
    text: &str,
    other: Option<&Other<'_>>,
) -> Result<u64, Stop> {
    let Some(growth) = growth_named(text) else {
        let what = "--budget: expected a file, or a growth such as +5% or +10KB";
        return Err(host.fail_with(2, what, text));
    };
    match other {
        Some(other) => Ok(most_after(growth, old_bytes_of(&other.parts))),
        None => Err(host.fail(2, "--budget: a growth needs --compare OLD")),
    }
}

impl Budget {
    /// What a growth allows, or a file: a text that begins with `+` is a growth.
    pub(crate) fn of<E: Eprint + AllocGlobal, D: Disk>(
        host: &Host<'_, E, D>,
        text: &str,
        other: Option<&Other<'_>>,
    ) -> Result<Budget, Stop> {
        if !text.starts_with('+') {
            return Budget::read(host, text);
        }
        let most = most_grown(host, text, other)?;
        let mut allowances = Vec::new(host.alloc());
        allowances.push(Allowance {
            name: String::new(host.alloc()),
            most,
            bytes: 0,
        })?;
        Ok(Budget { allowances })
    }

    /// Nothing is limited.
    pub(crate) fn none(alloc: Global) -> Budget {
        Budget {
            allowances: Vec::new(alloc),
        }
    }

    /// What a file allows.
    fn read<E: Eprint + AllocGlobal, D: Disk>(
        host: &Host<'_, E, D>,
        path: &str,
    ) -> Result<Budget, Stop> {
        let alloc = host.alloc();
        let bytes = read_named(host, path)?;
        let value = match Value::from_slice(alloc, &bytes) {
            Ok(value) => value,
            Err(error) if error.is_memory() => return Err(Stop::Memory),
            Err(_) => return Err(fail_budget(host, path)),
        };
        let allowances = allowances(host, path, &value)?;
        Ok(Budget { allowances })
    }

    /// Counts a source.
    fn add(&mut self, url: &str, bytes: u64) {
        for allowance in &mut self.allowances {
            let name = allowance.name.as_str();
            if !name.is_empty() && url.contains(name) {
                allowance.bytes = allowance.bytes.saturating_add(bytes);
            }
        }
    }

    /// Counts a whole script.
    fn add_script(&mut self, bytes: u64) {
        for allowance in &mut self.allowances {
            if allowance.name.is_empty() {
                allowance.bytes = allowance.bytes.saturating_add(bytes);
            }
        }
    }

    /// Counts a script of so many bytes and its sources.
    pub(crate) fn count(&mut self, map: &SourceMap, sizes: &Sizes, all: u64) {
        self.add_script(all);
        for i in 0..map.source_count() {
            if let (Some(url), Some(bytes)) = (map.source(i).url, sizes.bytes.get(i)) {
                self.add(url, *bytes);
            }
        }
    }

    /// Says what is above its limit, and answers whether something is.
    pub(crate) fn tell<E: Eprint + AllocGlobal, D: Disk>(
        &self,
        host: &Host<'_, E, D>,
    ) -> Result<bool, Stop> {
        let alloc = host.alloc();
        let mut over = false;
        for allowance in &self.allowances {
            let (bytes, most) = (allowance.bytes, allowance.most);
            if bytes <= most {
                continue;
            }
            over = true;
            let name = match allowance.name.as_str() {
                "" => "the whole script",
                name => name,
            };
            let text = format!(in alloc; "over budget: {name}: {bytes} bytes of {most}")?;
            host.say(text.as_str());
        }
        Ok(over)
    }
}
