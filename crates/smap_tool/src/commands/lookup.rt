//! The command `lookup`: find the original position of a generated position.
ghost use Rattle.std.specs.Prelude.{◌≡◌, ◌+◌, ◌-◌, ◌^◌, ◌<◌, ◌++◌, None, false, IfOk, OnOk, true};
ghost use Rattle.std.specs.Prelude.{option_copied, option_map, string_bytes};
ghost use Rattle.serde_json.specs.Data.{string};
ghost use Rattle.serde_json.specs.Written.{compact_text};
ghost use Rattle.smap_io.specs.Calls.{MakesAtMost, StopsInTime};
ghost use Rattle.smap_io.specs.Device.{device_failures, has_ended, is_over};
ghost use Rattle.smap_io.specs.Limits.{longest_input};
ghost use Rattle.smap_io.specs.Streams.{streams};
ghost use Rattle.smap_record.specs.Views.{mapping_of_view, origin_of_view};
ghost use Rattle.smap_tool.specs.Run.{WritesOutputAgainst, Runs};
ghost use Rattle.smap_tool.specs.Commands.{lookup_output, lookup_text, mapping_text, name_text};
ghost use Rattle.smap_tool.specs.Commands.{origin_text, url_text};
ghost use Rattle.url.specs.Parser.{parse_url};
ghost use Rattle.clap.specs.Words.{app_of};
ghost use Rattle.clap.specs.declared.builder.command.Command.TheViews.{out-Command as fields_of};
ghost use Rattle.smap_tool.specs.Commands as arguments;

use crate::map_run::{MapCommand, run_on_map};
use crate::numbers::push_number;
use crate::outcome::{Outcome, RunFault};
use crate::words::{on_base, position_argument};
use clap::Command;
use serde_json::Value;
use smap_io::Device;
use smap_mappings::Memory;
use smap_record::{Base, OriginalView, SourceMap, TokenView};
use smap_trace::lookup;
use std::alloc::{AllocError, Global};
use std::io::{Read, Write};

/// The arguments of the command.
pub(crate) fn lookup_command<'a>(alloc: Global) -> Result<Command<'a>, AllocError>
    ensures shape { IfOk result (λ c. app_of c ≡ arguments.lookup) }
    ensures local { IfOk result (λ c. (fields_of c).has_globals ≡ false) }
{
    let command = on_base(
        alloc,
        "lookup",
        "Find the original position of a generated position",
    )?;
    let command = command.arg(position_argument(alloc, "LINE", "Generated line, counted from 0"))?;
    command.arg(position_argument(alloc, "COLUMN", "Generated column, counted from 0"))
}

/// A source's URL, or `null` where it has none.
fn url_text(url: Option<&str>) -> &str
    ensures { result.now ≡ url_text (option_copied url.entry) }
{
    match url {
        Some(url) => url,
        None => "null",
    }
}

/// A name as a JSON string.
fn json_text(alloc: Global, name: &str) -> Result<String, Memory>
    ensures { IfOk result (λ text. string_bytes text ≡ compact_text (string name.now)) }
{
    let value = Value::try_from_str(alloc, name)?;
    value.to_string(alloc)
}

/// Appends a space and the name as a JSON string, if there is a name.
fn push_name(alloc: Global, text: &mut Vec<u8>, name: Option<&str>) -> Result<(), Memory>
    ensures { OnOk result (text.new.items ≡ text.old.items ++ name_text (option_copied name.entry)) }
{
    let Some(name) = name else {
        return Ok(());
    };
    text.extend_from_slice(b" ")?;
    text.extend_from_slice(json_text(alloc, name)?.as_bytes())
}

/// Appends the original of a mapping.
fn push_origin(
    alloc: Global,
    text: &mut Vec<u8>,
    original: Option<OriginalView<'_>>,
) -> Result<(), Memory>
    ensures { OnOk result (text.new.items
        ≡ text.old.items ++ origin_text (option_map origin_of_view original.entry)) }
{
    let Some(original) = original else {
        return text.extend_from_slice(b"unmapped");
    };
    text.extend_from_slice(url_text(original.source.url).as_bytes())?;
    push_number(text, ":", original.line)?;
    push_number(text, ":", original.column)?;
    push_name(alloc, text, original.name)
}

/// Appends a mapping's own position, and its original.
#[tactic(auto, unfolding(crate::specs::Commands::mapping_text))]
fn push_mapping(
    alloc: Global,
    text: &mut Vec<u8>,
    token: Option<TokenView<'_>>,
) -> Result<(), Memory>
    ensures { OnOk result (text.new.items
        ≡ text.old.items ++ mapping_text (option_map mapping_of_view token.entry)) }
{
    let Some(token) = token else {
        return text.extend_from_slice(b"none");
    };
    push_number(text, "", token.line)?;
    push_number(text, ":", token.column)?;
    text.extend_from_slice(b" ")?;
    push_origin(alloc, text, token.original)
}

/// The line for the mapping that a position has.
fn lookup_text(alloc: Global, map: &SourceMap, line: u32, column: u32) -> Result<Vec<u8>, Memory>
    ensures { IfOk result (λ text. text.items ≡ lookup_text line column map.now) }
{
    let (found, _) = lookup(map, line, column);
    let mut text = Vec::new(alloc);
    push_mapping(alloc, &mut text, found)?;
    text.push(b'\n')?;
    Ok(text)
}

/// The position that is asked for.
#[derive(Clone, Copy)]
struct Lookup {
    line: u32,
    column: u32,
}

impl MapCommand for Lookup {
    ghost output = { λ s _ m. lookup_text s.line s.column m };

    fn text(&self, alloc: Global, _base: &Base, map: &SourceMap) -> Result<Vec<u8>, Memory> {
        lookup_text(alloc, map, self.line, self.column)
    }
}

/// Reads a map, and writes one line for a generated position, whose line and column count from 0: `none`
/// where it has no mapping, `l:c unmapped` where its mapping has no original, and else
/// `l:c URL:line:column`, followed by a space and the name as a JSON string where there is a name. `l:c` is
/// the mapping's own position, and a source without a URL is `null`. The line of the map's first fault is
/// written instead if it has one (then the answer is `Refused`).
///
/// A base that isn't an absolute URL is refused before anything is read.
///
/// # Errors
///
/// Those of [`run`](crate::run).
pub fn run_lookup<R: Read, W: Write>(
    alloc: Global,
    base: &str,
    line: u32,
    column: u32,
    reader: &mut Device<R>,
    writer: &mut Device<W>,
) -> Result<Outcome, RunFault>
    requires reader { device_failures reader.old < 2 ^ 64 - 1 }
    requires writer { device_failures writer.old < 2 ^ 64 - 1 }
    requires not_ended { has_ended reader.old ≡ false }

    // What was written is what the definition gives for what was read against the base. Read and Write come
    // with a failure of their device, and no other answer does.
    ensures answers { Runs (WritesOutputAgainst (parse_url None base.now) (lookup_output line column))
        (streams R.remaining reader.old reader.new W.contents writer.old writer.new) result }

    // At most one read is made for each byte that an input may have, and one more.
    ensures calls { MakesAtMost (longest_input + 1) reader.old reader.new }

    // No read comes after the end or a failure. The output is flushed once, and no write comes after that or
    // after a failure.
    ensures reads_in_time { StopsInTime reader.old reader.new }
    ensures writes_in_time { StopsInTime writer.old writer.new }
    ensures flushed { OnOk result (is_over writer.new ≡ true) }
{
    run_on_map(alloc, &Lookup { line, column }, base, reader, writer)
}
