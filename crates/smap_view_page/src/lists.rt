//! Lists of a map as JSON.
ghost use Rattle.std.specs.Prelude.{◌≡◌, IfOk, option_copied};
ghost use Rattle.serde_json.specs.Data.{string};
ghost use Rattle.serde_json.specs.View.{view};
ghost use Rattle.smap_record.specs.Record.{record_of};
ghost use Rattle.smap_view_page.specs.Trees as spec;

use serde_json::Value;
use smap_record::SourceMap;
use std::alloc::{AllocError, Global};

/// The lists of a map.
#[derive(Drop)]
pub(crate) struct Lists {
    /// The numbers of the ignored sources.
    pub(crate) ignored: Value,
    /// The names, as the map lists them.
    pub(crate) names: Value,
    /// The URLs of the sources.
    pub(crate) sources: Value,
    /// The contents of the sources.
    pub(crate) contents: Value,
}

fn or_null(alloc: Global, text: Option<&str>) -> Result<Value, AllocError>
    ensures { IfOk result (λ v. view v ≡ spec.or_null (option_copied text.entry)) }
{
    match text {
        Some(text) => Ok(Value::String(String::from_str(alloc, text)?)),
        None => Ok(Value::Null),
    }
}

fn names(alloc: Global, map: &SourceMap) -> Result<Value, AllocError>
    ensures { IfOk result (λ v. view v ≡ spec.array_of string map.now.listing.names) }
{
    let mut values = Vec::with_capacity(alloc, map.name_count())?;
    for i in 0..map.name_count() {
        values.push(or_null(alloc, Some(map.name(i)))?)?;
    }
    Ok(Value::Array(values))
}

fn urls(alloc: Global, map: &SourceMap) -> Result<Value, AllocError>
    ensures { IfOk result (λ v. view v
        ≡ spec.array_of (λ e. spec.or_null e.url) (record_of map.now).sources) }
{
    let mut values = Vec::with_capacity(alloc, map.source_count())?;
    for i in 0..map.source_count() {
        values.push(or_null(alloc, map.source(i).url)?)?;
    }
    Ok(Value::Array(values))
}

fn contents(alloc: Global, map: &SourceMap) -> Result<Value, AllocError>
    ensures { IfOk result (λ v. view v
        ≡ spec.array_of (λ e. spec.or_null e.content) (record_of map.now).sources) }
{
    let mut values = Vec::with_capacity(alloc, map.source_count())?;
    for i in 0..map.source_count() {
        values.push(or_null(alloc, map.source(i).content)?)?;
    }
    Ok(Value::Array(values))
}

fn ignored(alloc: Global, map: &SourceMap) -> Result<Value, AllocError>
    ensures { IfOk result (λ v. view v
        ≡ spec.array_of spec.whole_number (spec.ignored (record_of map.now).sources)) }
{
    let mut values = Vec::new(alloc);
    for i in 0..map.source_count() {
        if map.source(i).ignored {
            values.push(Value::from(i))?;
        }
    }
    Ok(Value::Array(values))
}

/// Numbers.
pub(crate) fn numbers(alloc: Global, numbers: &[u64]) -> Result<Value, AllocError>
    ensures { IfOk result (λ v. view v ≡ spec.array_of spec.whole_number numbers.now) }
{
    let mut values = Vec::with_capacity(alloc, numbers.len())?;
    for number in numbers {
        values.push(Value::from(*number))?;
    }
    Ok(Value::Array(values))
}

pub(crate) fn lists_of(alloc: Global, map: &SourceMap) -> Result<Lists, AllocError>
    ensures ignored { IfOk result (λ l. view l.ignored
        ≡ spec.array_of spec.whole_number (spec.ignored (record_of map.now).sources)) }
    ensures names { IfOk result (λ l. view l.names ≡ spec.array_of string map.now.listing.names) }
    ensures sources { IfOk result (λ l. view l.sources
        ≡ spec.array_of (λ e. spec.or_null e.url) (record_of map.now).sources) }
    ensures contents { IfOk result (λ l. view l.contents
        ≡ spec.array_of (λ e. spec.or_null e.content) (record_of map.now).sources) }
{
    Ok(Lists {
        ignored: ignored(alloc, map)?,
        names: names(alloc, map)?,
        sources: urls(alloc, map)?,
        contents: contents(alloc, map)?,
    })
}
