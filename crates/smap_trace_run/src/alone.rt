//! Frames that name no script, where one map alone is given: its script is meant.
ghost use Rattle.std.specs.Prelude.{◌≡◌, IfOk, Some, option_map};
ghost use Rattle.smap_io.specs.Lines.{feed_of, without_line_feed};
ghost use Rattle.smap_trace_run.specs.Alone as spec;
ghost use Rattle.smap_trace_run.specs.Alone.{as_read, lines_with, text_in};

use smap_io::{EachLine, take_last, take_piece};
use smap_map_files::Wanted;
use smap_trace::named_frame;
use std::alloc::{AllocError, Global};

/// The script that is meant in frames that name none, if one map is given in all, and by its file.
pub(crate) fn script_alone<'a>(wanted: &'a Wanted<'_>) -> Option<&'a [u8]>
    ensures { option_map (λ s. s.now) result ≡ spec.script_alone wanted.now }
{
    let scripts = &wanted.positions.scripts;
    if wanted.places.len() + wanted.files.len() != 1 || scripts.len() != 1 {
        return None;
    }
    match scripts.first() {
        Some(script) => Some(script.as_slice()),
        None => None,
    }
}

/// The line without its line feed, and the line feed if it has one.
fn cut_feed<'a>(line: &'a [u8]) -> (&'a [u8], &'a [u8])
    ensures text { result.0.now ≡ without_line_feed line.now }
    ensures feed { result.1.now ≡ feed_of line.now }
{
    if line.ends_with(b"\n") {
        (&line[..line.len() - 1], b"\n")
    } else {
        (line, &[])
    }
}

/// What gives frames that name no script the name of this one.
#[derive(Drop)]
struct Naming<'a> {
    alloc: Global,
    script: &'a [u8],
}

impl EachLine<Vec<u8>> for Naming<'_> {
    ghost takes = { λ s. spec.TakesLine s.script.now };

    fn take(&self, so_far: &mut Vec<u8>, line: &[u8]) -> Result<(), AllocError> {
        let (text, feed) = cut_feed(line);
        match named_frame(self.alloc, self.script, text)? {
            Some(named) => {
                so_far.extend_from_slice(&named)?;
                so_far.extend_from_slice(feed)
            }
            None => so_far.extend_from_slice(line),
        }
    }
}

/// The lines, and frames that name no script with the name of this one.
fn name_lines(alloc: Global, script: &[u8], lines: &[u8]) -> Result<Vec<u8>, AllocError>
    ensures { IfOk result (λ named. named.items ≡ lines_with (Some script.now) lines.now) }
{
    let naming = Naming { alloc, script };
    let mut named = Vec::new(alloc);
    let mut rest = Vec::new(alloc);
    take_piece(&naming, &mut named, &mut rest, lines)?;
    take_last(&naming, &mut named, &rest)?;
    Ok(named)
}

/// Lines of a log as they are read for names.
#[derive(Drop)]
pub(crate) enum LinesRead<'a> {
    AsTheyAre(&'a [u8]),
    /// Where a script is meant in frames that name none, these have its name.
    WithNames(Vec<u8>),
}

impl<'a> LinesRead<'a> {
    /// Of these lines.
    pub(crate) fn of(
        alloc: Global,
        wanted: &Wanted<'_>,
        lines: &'a [u8],
    ) -> Result<LinesRead<'a>, AllocError>
        ensures { IfOk result (λ read. text_in read ≡ as_read wanted.now lines.now) }
    {
        match script_alone(wanted) {
            Some(script) => Ok(LinesRead::WithNames(name_lines(alloc, script, lines)?)),
            None => Ok(LinesRead::AsTheyAre(lines)),
        }
    }

    pub(crate) fn text(&self) -> &[u8]
        ensures { result.now ≡ text_in self.now }
    {
        match self {
            LinesRead::AsTheyAre(lines) => lines,
            LinesRead::WithNames(text) => text.as_slice(),
        }
    }
}
