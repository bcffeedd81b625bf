//! Maps that are built: sources, names and mappings are added to a builder, which becomes a map.
ghost use Rattle.std.specs.Prelude.{◌≡◌, IfOk, IsTrue, None, Some, map as mapped};
ghost use Rattle.smap_compose.specs.Building.{content_due, ignored_due, name_due, source_due};
ghost use Rattle.smap_c_answers.specs.Spelling.{token_of};
ghost use Rattle.smap_c.specs.Building.{Adds, AddsEach, AddsUnless, Begins, Changes, ChangesBy, Finishes};
ghost use Rattle.smap_c.specs.Building.{HoldsBuilt, IsDone, OpensBuilder, TellsBy};
ghost use Rattle.smap_c.specs.Building.{answer_code, code_of, file_due, first_refused, is_taken};
ghost use Rattle.smap_c.specs.Building.{text_if, told_number};
ghost use Rattle.smap_c.specs.Handles.{held_builder, held_map, is_builder};

use crate::handles::{Held, SmapBuilder, SmapMap};
use crate::maps::{Shared, SmapLimits, limits_of};
use crate::opened::Opened;
use smap_c_answers::{
    CLOSED, LIMITS, MEMORY, MappingNumbers, NOT_URL, NOT_UTF8, OK, RANGE, TOO_MANY, is_mapping,
    token_of,
};
use smap_compose::{BuildError, Builder};
use smap_mappings::Memory;
use smap_record::{Base, BaseFault};
use std::alloc::Global;
use std::{mem, str};

/// A builder that has nothing yet, or the code that says why there is none.
fn begun(alloc: Global, base: &[u8], limits: &SmapLimits) -> Result<Builder, u32>
    ensures { Begins base.now limits.now result }
{
    let Some(limits) = limits_of(limits) else {
        return Err(LIMITS);
    };
    let Ok(text) = str::from_utf8(base) else {
        return Err(NOT_URL);
    };
    match Base::new(alloc, text) {
        Ok(base) => Ok(Builder::new(alloc, base, limits)),
        Err(BaseFault::NotUrl) => Err(NOT_URL),
        Err(BaseFault::Memory) => Err(MEMORY),
    }
}

/// A builder, to be held.
fn held(alloc: Global, builder: Builder) -> Result<Box<Held>, Memory>
    ensures value { IfOk result (λ b. held_builder (Some b.value) ≡ Some builder) }
    ensures kind { IfOk result (λ b. IsTrue (is_builder b.value)) }
{
    match Box::new(alloc, builder) {
        Ok(builder) => Held::Builder(builder).boxed(alloc),
        Err(_) => Err(Memory),
    }
}

/// Opens a builder.
#[unsafe(no_mangle)]
pub extern "C" fn smap_builder_open(
    alloc: Global,
    builder: &mut SmapBuilder,
    base: &[u8],
    limits: &SmapLimits,
) -> u32
    ensures { OpensBuilder base.now limits.now (held_builder builder.old.owner.value)
        (held_builder builder.new.owner.value) result }
{
    match begun(alloc, base, limits) {
        Ok(begun) => match held(alloc, begun) {
            Ok(held) => {
                *builder = SmapBuilder::of(held);
                OK
            }
            Err(_) => MEMORY,
        },
        Err(code) => code,
    }
}

/// Closes a builder, and frees what it owns. A closed one stays so.
#[unsafe(no_mangle)]
pub extern "C" fn smap_builder_close(alloc: Global, builder: &mut SmapBuilder)
    ensures { builder.new.owner.value ≡ None }
{
    *builder = SmapBuilder::closed(alloc);
}

/// What is done with the builder that is held.
fn act_on<O, F: FnOnce(&mut Builder, &mut O) -> u32>(held: &mut Held, out: &mut O, act: F) -> u32
    requires held { IsTrue (is_builder held.old) }
    requires callable { F.IsAlwaysCallable act }
    ensures kind { IsTrue (is_builder held.new) }
    ensures done { IsDone F.FnOnce act (held_builder (Some held.old)) (held_builder (Some held.new))
        out.old out.new result }
{
    match held {
        Held::Builder(builder) => act(builder, out),
        Held::Map(_) | Held::Bytes(_) | Held::Scripts(_) => unreachable!(),
    }
}

/// What is done with an open builder: the code of the answer, or that it is closed.
fn with_builder<O, F: FnOnce(&mut Builder, &mut O) -> u32>(
    alloc: Global,
    builder: &mut SmapBuilder,
    out: &mut O,
    act: F,
) -> u32
    requires { F.IsAlwaysCallable act }
    ensures { IsDone F.FnOnce act (held_builder builder.old.owner.value)
        (held_builder builder.new.owner.value) out.old out.new result }
{
    let Some(mut held) = mem::replace(builder, SmapBuilder::closed(alloc)).into_box() else {
        return CLOSED;
    };
    let code = act_on(&mut held, out, act);
    *builder = SmapBuilder::of(held);
    code
}

fn code_of(error: BuildError) -> u32
    ensures { result ≡ code_of error }
{
    match error {
        BuildError::SourceUrl => NOT_URL,
        BuildError::TooMany => TOO_MANY,
        BuildError::Source | BuildError::Mapping(_) => RANGE,
        BuildError::Memory => MEMORY,
    }
}

/// The code of what a change came to.
fn done(answer: Result<(), BuildError>) -> u32
    ensures { result ≡ answer_code answer }
{
    match answer {
        Ok(()) => OK,
        Err(error) => code_of(error),
    }
}

/// Tells a number, and answers the code of what it came to.
fn tell(answer: Result<u32, BuildError>, number: &mut u32) -> u32
    ensures code { result ≡ answer_code answer }
    ensures number { number.new ≡ told_number answer number.old }
{
    match answer {
        Ok(it) => {
            *number = it;
            OK
        }
        Err(error) => code_of(error),
    }
}

/// Gives the generated file a name, or none.
#[unsafe(no_mangle)]
pub extern "C" fn smap_builder_file(
    alloc: Global,
    builder: &mut SmapBuilder,
    has_file: bool,
    file: &[u8],
) -> u32
    ensures { ChangesBy (text_if has_file file.now) (file_due (text_if has_file file.now))
        (held_builder builder.old.owner.value) (held_builder builder.new.owner.value) result }
{
    if !has_file {
        return with_builder(alloc, builder, &mut (), |it, _| {
            done(it.set_file(alloc, None))
        });
    }
    let Ok(file) = str::from_utf8(file) else {
        return NOT_UTF8;
    };
    with_builder(alloc, builder, &mut (), |it, _| {
        done(it.set_file(alloc, Some(file)))
    })
}

/// The number of the source with a URL, or of that without one, which is listed if it isn't yet.
#[unsafe(no_mangle)]
pub extern "C" fn smap_builder_source(
    alloc: Global,
    builder: &mut SmapBuilder,
    has_url: bool,
    url: &[u8],
    number: &mut u32,
) -> u32
    ensures { TellsBy (text_if has_url url.now) (λ m. source_due m (text_if has_url url.now))
        (held_builder builder.old.owner.value) (held_builder builder.new.owner.value)
        number.old number.new result }
{
    if !has_url {
        return with_builder(alloc, builder, number, |it, number| {
            tell(it.source(alloc, None), number)
        });
    }
    let Ok(url) = str::from_utf8(url) else {
        return NOT_UTF8;
    };
    with_builder(alloc, builder, number, |it, number| {
        tell(it.source(alloc, Some(url)), number)
    })
}

/// Gives a source its content, or none.
#[unsafe(no_mangle)]
pub extern "C" fn smap_builder_content(
    alloc: Global,
    builder: &mut SmapBuilder,
    source: u32,
    has_content: bool,
    content: &[u8],
) -> u32
    ensures { ChangesBy (text_if has_content content.now)
        (λ m. content_due m source (text_if has_content content.now))
        (held_builder builder.old.owner.value) (held_builder builder.new.owner.value) result }
{
    if !has_content {
        return with_builder(alloc, builder, &mut (), |it, _| {
            done(it.set_content(alloc, source, None))
        });
    }
    let Ok(content) = str::from_utf8(content) else {
        return NOT_UTF8;
    };
    with_builder(alloc, builder, &mut (), |it, _| {
        done(it.set_content(alloc, source, Some(content)))
    })
}

/// Says whether a source is ignored.
#[unsafe(no_mangle)]
pub extern "C" fn smap_builder_ignore(
    alloc: Global,
    builder: &mut SmapBuilder,
    source: u32,
    is_ignored: bool,
) -> u32
    ensures { Changes (λ m. ignored_due m source is_ignored)
        (held_builder builder.old.owner.value) (held_builder builder.new.owner.value) result }
{
    with_builder(alloc, builder, &mut (), |it, _| {
        done(it.set_ignored(source, is_ignored))
    })
}

/// The number of a name, which is listed if it isn't yet.
#[unsafe(no_mangle)]
pub extern "C" fn smap_builder_name(
    alloc: Global,
    builder: &mut SmapBuilder,
    name: &[u8],
    number: &mut u32,
) -> u32
    ensures { TellsBy (Some name.now) (λ m. name_due m name.now)
        (held_builder builder.old.owner.value) (held_builder builder.new.owner.value)
        number.old number.new result }
{
    let Ok(name) = str::from_utf8(name) else {
        return NOT_UTF8;
    };
    with_builder(alloc, builder, number, |it, number| {
        tell(it.name(alloc, name), number)
    })
}

/// Whether these are the numbers of a mapping that the builder takes.
fn is_taken(builder: &Builder, numbers: &MappingNumbers) -> bool
    ensures { result ≡ is_taken builder.now numbers.now }
{
    is_mapping(numbers) && builder.fault_of(token_of(numbers)).is_none()
}

/// The index of the first mapping that the builder doesn't take.
fn first_refused(builder: &Builder, mappings: &[MappingNumbers]) -> Option<usize>
    ensures { result ≡ first_refused builder.now mappings.now }
{
    mappings
        .iter()
        .position(|numbers| !is_taken(builder, numbers))
}

/// Adds mappings that the builder takes, so that only memory can run out.
fn add_each(builder: &mut Builder, mappings: &[MappingNumbers]) -> u32
    ensures { AddsEach (mapped token_of mappings.now) builder.old (Some builder.new) result }
{
    for i in 0..mappings.len() {
        if builder.add(token_of(&mappings[i])).is_err() {
            return MEMORY;
        }
    }
    OK
}

/// Adds mappings, or finds the first that is refused.
fn add_all(builder: &mut Builder, mappings: &[MappingNumbers], wrong: &mut usize) -> u32
    ensures { AddsUnless (first_refused builder.old mappings.now) (mapped token_of mappings.now) builder.old
        (Some builder.new) wrong.old wrong.new result }
{
    match first_refused(builder, mappings) {
        Some(i) => {
            *wrong = i;
            RANGE
        }
        None => add_each(builder, mappings),
    }
}

/// Adds mappings, in any order; or the index of the first that is refused.
#[unsafe(no_mangle)]
pub extern "C" fn smap_builder_add(
    alloc: Global,
    builder: &mut SmapBuilder,
    mappings: &[MappingNumbers],
    wrong: &mut usize,
) -> u32
    ensures { Adds mappings.now (held_builder builder.old.owner.value)
        (held_builder builder.new.owner.value) wrong.old wrong.new result }
{
    with_builder(alloc, builder, wrong, |it, wrong| {
        add_all(it, mappings, wrong)
    })
}

/// The map of a builder, with its base.
fn built(alloc: Global, builder: Builder) -> Result<Opened, Memory>
    ensures { IfOk result (λ o. HoldsBuilt builder (Some o)) }
{
    let Ok((base, map)) = builder.finish_with_base(alloc) else {
        return Err(Memory);
    };
    Opened::new(alloc, base, map, None)
}

/// Opens the handle on the map of a builder.
fn put_built(alloc: Global, builder: Builder, out: &mut SmapMap) -> u32
    ensures { Finishes (Some builder) (held_map out.old.owner.value) (held_map out.new.owner.value) result }
{
    let Ok(opened) = built(alloc, builder) else {
        return MEMORY;
    };
    match Shared::new(alloc, opened) {
        Ok(held) => {
            *out = SmapMap::of(held);
            OK
        }
        Err(_) => MEMORY,
    }
}

/// Closes a builder, and opens its map.
#[unsafe(no_mangle)]
pub extern "C" fn smap_builder_finish(
    alloc: Global,
    builder: &mut SmapBuilder,
    out: &mut SmapMap,
) -> u32
    ensures finished { Finishes (held_builder builder.old.owner.value)
        (held_map out.old.owner.value) (held_map out.new.owner.value) result }
    ensures closed { builder.new.owner.value ≡ None }
{
    match mem::replace(builder, SmapBuilder::closed(alloc)).into_box() {
        None => CLOSED,
        Some(held) => put_built(alloc, Box::into_inner(held).into_builder(), out),
    }
}
