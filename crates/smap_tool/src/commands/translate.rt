//! The command `translate`: translate the stack trace of a bundle to source positions.
ghost use Rattle.std.specs.Prelude.{◌≡◌, ◌-◌, ◌*◌, ◌^◌, ◌<◌, ◌++◌, ◌∷◌, [], false, IfOk, OnOk, true};
ghost use Rattle.smap_io.specs.Calls.{MakesAtMost, StopsInTime};
ghost use Rattle.smap_io.specs.Device.{device_failures, has_ended, is_over};
ghost use Rattle.smap_io.specs.Limits.{most_calls};
ghost use Rattle.smap_io.specs.Streams.{streams};
ghost use Rattle.smap_tool.specs.Translate as spec;
ghost use Rattle.smap_tool.specs.Translate.{RunsTrace, RunsTranslate, WritesAsked, WritesFates};
ghost use Rattle.smap_tool.specs.Translate.{WritesRefusal, fates_asked, fates_in_frames};
ghost use Rattle.smap_tool.specs.BundleLine.{bundle_line};
ghost use Rattle.clap.specs.Words.{app_of};
ghost use Rattle.clap.specs.declared.builder.command.Command.TheViews.{out-Command as fields_of};
ghost use Rattle.smap_tool.specs.Commands as arguments;

use crate::bundle_line::bundle_refusal;
use crate::outcome::{Outcome, RunFault};
use crate::output::write_answer;
use crate::words::with_flag;
use crate::{Bundle, BundleFault, Refusal, read_bundle};
use clap::Command;
use smap_io::Device;
use smap_trace::{Counts, MatchMode, TraceError, translate_in, translate_named_in};
use std::alloc::{AllocError, Global};
use std::io::{Read, Write};

/// The arguments of the command.
pub(crate) fn translate_command<'a>(alloc: Global) -> Result<Command<'a>, AllocError>
    ensures shape { IfOk result (λ c. app_of c ≡ arguments.translate) }
    ensures local { IfOk result (λ c. (fields_of c).has_globals ≡ false) }
{
    let about = "Translate a stack trace to source positions";
    let command = Command::new(alloc, "translate").about(about);
    let command = with_flag(
        alloc,
        command,
        "anywhere",
        "Translate positions anywhere in a line, not only in frames",
    )?;
    let command = with_flag(
        alloc,
        command,
        "ignore-query",
        "Ignore a query or a fragment behind a script's URL",
    )?;
    let command = with_flag(
        alloc,
        command,
        "hide-ignored",
        "Leave out frames in ignored sources",
    )?;
    with_flag(
        alloc,
        command,
        "names",
        "Give frames the names of functions, where these are sure",
    )
}

/// Writes the line of a bundle's first fault.
fn refuse<W: Write>(
    alloc: Global,
    refusal: &Refusal,
    writer: &mut Device<W>,
) -> Result<Outcome, RunFault>
    requires { device_failures writer.old < 2 ^ 64 - 1 }
    ensures writes { WritesRefusal W.contents writer.old writer.new (bundle_line refusal.now ++ 10 ∷ [])
        result }
    ensures in_time { StopsInTime writer.old writer.new }
    ensures flushed { OnOk result (is_over writer.new ≡ true) }
{
    let Ok(text) = bundle_refusal(alloc, refusal) else {
        return Err(RunFault::Memory);
    };
    write_answer(writer, text.as_slice(), Outcome::Refused)
}

/// What the run answers.
fn answer_of(told: Result<Counts, TraceError>) -> Result<Outcome, RunFault>
    ensures { result ≡ spec.answer_of told }
{
    match told {
        Ok(_) => Ok(Outcome::Done),
        Err(TraceError::Read) => Err(RunFault::Read),
        Err(TraceError::Write) => Err(RunFault::Write),
        Err(TraceError::Memory) => Err(RunFault::Memory),
    }
}

/// Translates the trace, up to the end of the input.
fn translate_trace<R: Read, W: Write>(
    alloc: Global,
    mode: MatchMode,
    hide: bool,
    names: bool,
    bundle: &Bundle,
    reader: &mut Device<R>,
    writer: &mut Device<W>,
) -> Result<Outcome, RunFault>
    requires reader { device_failures reader.old < 2 ^ 64 - 1 }
    requires writer { device_failures writer.old < 2 ^ 64 - 1 }
    requires not_ended { has_ended reader.old ≡ false }
    ensures translates { RunsTrace (WritesAsked names mode hide bundle.now)
        (streams R.remaining reader.old reader.new W.contents writer.old writer.new) result }
    ensures calls { MakesAtMost most_calls reader.old reader.new }
    ensures reads_in_time { StopsInTime reader.old reader.new }
    ensures writes_in_time { StopsInTime writer.old writer.new }
    ensures flushed { OnOk result (is_over writer.new ≡ true) }
{
    let scripts = bundle.scripts();
    if names {
        return answer_of(translate_named_in(alloc, reader, scripts, mode, hide, writer));
    }
    answer_of(translate_in(alloc, reader, scripts, mode, hide, writer))
}

/// Reads a bundle, and writes the translation of its trace, line by line as it comes, or the line of the
/// bundle's first fault with a line feed (then the answer is `Refused`). With `hide`, frames in ignored
/// sources are left out. Positions are found in frames whose URL is that of a script.
///
/// Nothing after the line `trace` is read before the translation begins, and nothing is written before that
/// except the line of a fault. A fault is answered without reading on: as soon as its line was read, or for
/// a map as many bytes as its header announces and one more.
///
/// # Errors
///
/// Those of [`run`](crate::run). `TooLong` is for a single map: the entries together and the trace have no
/// limit. The entries are read by at most 4,294,967,296 calls, and so is the trace; more are answered as
/// `Read`. Where the bytes after the line `trace` were reached, what was written of their translation is
/// what [`smap_trace::translate`] promises, and else nothing was written; after `Write` it may also be a
/// prefix of the line of the fault.
pub fn run_translate<R: Read, W: Write>(
    alloc: Global,
    hide: bool,
    reader: &mut Device<R>,
    writer: &mut Device<W>,
) -> Result<Outcome, RunFault>
    requires reader { device_failures reader.old < 2 ^ 64 - 1 }
    requires writer { device_failures writer.old < 2 ^ 64 - 1 }
    requires not_ended { has_ended reader.old ≡ false }

    // What was written is the translation of the bundle's trace, or the line of its first fault; nothing
    // was read past what shows this fault. Read and Write come with a failure of their device, and no other
    // answer does.
    ensures answers { RunsTranslate (WritesFates (fates_in_frames hide))
        (streams R.remaining reader.old reader.new W.contents writer.old writer.new) result }

    // The bundle's entries are read by at most 4,294,967,296 calls, and so is the trace.
    ensures calls { MakesAtMost (2 * most_calls) reader.old reader.new }

    // No read comes after the end or a failure. The output is flushed once, and no write comes after that or
    // after a failure.
    ensures reads_in_time { StopsInTime reader.old reader.new }
    ensures writes_in_time { StopsInTime writer.old writer.new }
    ensures flushed { OnOk result (is_over writer.new ≡ true) }
{
    run_translate_by(alloc, MatchMode::FRAMES, hide, reader, writer)
}

/// Reads a bundle, and writes the translation of its trace, as [`run_translate`] does, where positions are
/// found in another way as well.
///
/// # Errors
///
/// Those of [`run_translate`], with what was written then.
pub fn run_translate_by<R: Read, W: Write>(
    alloc: Global,
    mode: MatchMode,
    hide: bool,
    reader: &mut Device<R>,
    writer: &mut Device<W>,
) -> Result<Outcome, RunFault>
    requires reader { device_failures reader.old < 2 ^ 64 - 1 }
    requires writer { device_failures writer.old < 2 ^ 64 - 1 }
    requires not_ended { has_ended reader.old ≡ false }

    // What was written is the translation of the bundle's trace, or the line of its first fault; nothing
    // was read past what shows this fault. Read and Write come with a failure of their device, and no other
    // answer does.
    ensures answers { RunsTranslate (WritesFates (fates_asked mode hide))
        (streams R.remaining reader.old reader.new W.contents writer.old writer.new) result }

    // The bundle's entries are read by at most 4,294,967,296 calls, and so is the trace.
    ensures calls { MakesAtMost (2 * most_calls) reader.old reader.new }

    // No read comes after the end or a failure. The output is flushed once, and no write comes after that or
    // after a failure.
    ensures reads_in_time { StopsInTime reader.old reader.new }
    ensures writes_in_time { StopsInTime writer.old writer.new }
    ensures flushed { OnOk result (is_over writer.new ≡ true) }
{
    run_translate_asked(alloc, mode, hide, false, reader, writer)
}

/// The same, where frames may get the names of functions.
pub(crate) fn run_translate_asked<R: Read, W: Write>(
    alloc: Global,
    mode: MatchMode,
    hide: bool,
    names: bool,
    reader: &mut Device<R>,
    writer: &mut Device<W>,
) -> Result<Outcome, RunFault>
    requires reader { device_failures reader.old < 2 ^ 64 - 1 }
    requires writer { device_failures writer.old < 2 ^ 64 - 1 }
    requires not_ended { has_ended reader.old ≡ false }
    ensures answers { RunsTranslate (WritesAsked names mode hide)
        (streams R.remaining reader.old reader.new W.contents writer.old writer.new) result }
    ensures calls { MakesAtMost (2 * most_calls) reader.old reader.new }
    ensures reads_in_time { StopsInTime reader.old reader.new }
    ensures writes_in_time { StopsInTime writer.old writer.new }
    ensures flushed { OnOk result (is_over writer.new ≡ true) }
{
    match read_bundle(alloc, reader) {
        Ok(bundle) => translate_trace(alloc, mode, hide, names, &bundle, reader, writer),
        Err(BundleFault::Refused(refusal)) => refuse(alloc, &refusal, writer),
        Err(BundleFault::TooLong) => Err(RunFault::TooLong),
        Err(BundleFault::Read) => Err(RunFault::Read),
        Err(BundleFault::Memory) => Err(RunFault::Memory),
    }
}
