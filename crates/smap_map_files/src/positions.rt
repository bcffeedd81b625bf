//! Positions: words that stand for the lines of a log.
ghost use Rattle.std.specs.Prelude.{◌≡◌, ◌++◌, ◌∷◌, [], IfOk, OnOk, flat_map, option_map};
ghost use Rattle.std.specs.Char.{is_ascii_digit};
ghost use Rattle.std.specs.List.{list_all, list_any};
ghost use Rattle.smap_map_files.specs.Positions as spec;
ghost use Rattle.smap_map_files.specs.Positions.{AreClear};

use crate::wanted::{Positions, Wanted};
use smap_system::{Disk, Host, Stop};
use std::alloc::{AllocError, Global};

/// What stands before the last colon, and what stands behind it.
fn around_colon(text: &str) -> Option<(&str, &str)>
    ensures { option_map (λ p. (p.0.now, p.1.now)) result ≡ spec.around_colon text.now }
{
    text.rsplit_once(':')
}

fn are_digits(text: &[u8]) -> bool
    ensures { result ≡ list_all is_ascii_digit text.now }
{
    text.iter().all(|b| b.is_ascii_digit())
}

fn is_whole(text: &str) -> bool
    ensures { result ≡ spec.is_whole text.now }
{
    !text.is_empty() && are_digits(text.as_bytes())
}

/// Whether this is `LINE:COLUMN`, which names no script.
fn is_place(word: &str) -> bool
    ensures { result ≡ spec.is_place word.now }
{
    match around_colon(word) {
        Some((line, column)) => is_whole(line) && is_whole(column),
        None => false,
    }
}

/// Whether this is `NAME:LINE`.
fn is_line(text: &str) -> bool
    ensures { result ≡ spec.is_line text.now }
{
    match around_colon(text) {
        Some((name, line)) => !name.is_empty() && is_whole(line),
        None => false,
    }
}

/// Whether a word is `NAME:LINE:COLUMN` or `LINE:COLUMN`.
pub(crate) fn is_position(word: &str) -> bool
    ensures { result ≡ spec.is_position word.now }
{
    if is_place(word) {
        return true;
    }
    match around_colon(word) {
        Some((line, column)) => is_line(line) && is_whole(column),
        None => false,
    }
}

/// Adds a text and a line feed.
fn push_text(text: &[u8], log: &mut Vec<u8>) -> Result<(), AllocError>
    ensures { OnOk result (log.new.items ≡ log.old.items ++ (text.now ++ 10 ∷ [])) }
{
    log.extend_from_slice(text)?;
    log.push(b'\n')?;
    Ok(())
}

/// Adds the line of a position.
fn push_line(script: &[u8], word: &str, log: &mut Vec<u8>) -> Result<(), AllocError>
    ensures { OnOk result (log.new.items ≡ log.old.items ++ spec.line_of script.now word.now) }
{
    if is_place(word) {
        log.extend_from_slice(script)?;
        log.push(b':')?;
        return push_text(word.as_bytes(), log);
    }
    push_text(word.as_bytes(), log)
}

/// The lines of positions, in their order.
fn lines_of(alloc: Global, script: &[u8], words: &[&str]) -> Result<Vec<u8>, AllocError>
    ensures { IfOk result
        (λ lines. lines.items ≡ flat_map (λ w. spec.line_of script.now w.now) words.now) }
{
    let mut lines = Vec::new(alloc);
    for word in words {
        push_line(script, word, &mut lines)?;
    }
    Ok(lines)
}

/// The script that is meant where none is named: the first whose map is given by its file.
fn script_in<'a>(positions: &'a Positions<'_>) -> &'a [u8]
    ensures { result.now ≡ spec.script_in positions.now }
{
    match positions.scripts.first() {
        Some(script) => script.as_slice(),
        None => b"",
    }
}

/// The positions as a log.
pub fn log_of(alloc: Global, positions: &Positions<'_>) -> Result<Vec<u8>, AllocError>
    ensures { IfOk result (λ log. log.items ≡ spec.log_in positions.now) }
{
    lines_of(alloc, script_in(positions), &positions.words)
}

/// Whether positions and logs are given.
fn are_mixed(wanted: &Wanted<'_>) -> bool
    ensures { result ≡ spec.are_mixed wanted.now }
{
    wanted.has_positions() && !wanted.logs.is_empty()
}

/// Whether one of these names no script.
fn has_place(words: &[&str]) -> bool
    ensures { result ≡ list_any (λ w. spec.is_place w.now) words.now }
{
    words.iter().any(|word| is_place(word))
}

/// Whether a position names no script, and none or several maps are given by their files.
fn lacks_script(positions: &Positions<'_>) -> bool
    ensures { result ≡ spec.lacks_script positions.now }
{
    has_place(&positions.words) && positions.scripts.len() != 1
}

/// Refuses positions together with logs, and such as name no script where it isn't clear which is meant.
pub fn check_positions<E: Eprint + AllocGlobal, D: Disk>(
    host: &Host<'_, E, D>,
    wanted: &Wanted<'_>,
) -> Result<(), Stop>
    ensures { OnOk result (AreClear wanted.now) }
{
    if are_mixed(wanted) {
        return Err(host.fail(2, "positions can't be given together with logs"));
    }
    if lacks_script(&wanted.positions) {
        return Err(host.fail(
            2,
            "LINE:COLUMN alone needs one map that is given by its file, as in smap-trace app.js.map 1:20",
        ));
    }
    Ok(())
}
