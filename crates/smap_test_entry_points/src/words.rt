//! The call on the arguments of a command line.

use crate::answers::{Answer, said};
use smap_mappings::Memory;
use smap_tool::{Task, WordsFault, task_of};
use std::alloc::Global;
use std::str;

/// The lines of a text.
fn lines(alloc: Global, text: &str) -> Result<Vec<&str>, Memory> {
    let mut lines = Vec::new(alloc);
    for line in text.lines() {
        lines.push(line)?;
    }
    Ok(lines)
}

/// The text of a task.
fn shown(alloc: Global, task: Task<'_>) -> Answer {
    let shown = format!(in alloc; "{task:?}")?;
    Ok(shown.into_bytes())
}

/// The answer where there is no task.
fn refused(alloc: Global, fault: WordsFault) -> Answer {
    match fault {
        WordsFault::Words(_) => said(alloc, b"refused"),
        WordsFault::Memory => Err(Memory),
    }
}

/// The task of these arguments.
fn task_of_words(alloc: Global, words: &[&str]) -> Answer {
    match task_of(alloc, words) {
        Ok(task) => shown(alloc, task),
        Err(fault) => refused(alloc, fault),
    }
}

/// The task of the arguments that are the lines of a text.
pub(crate) fn task(alloc: Global, text: &[u8]) -> Answer {
    let Ok(text) = str::from_utf8(text) else {
        return said(alloc, b"no text");
    };
    let words = lines(alloc, text)?;
    task_of_words(alloc, words.as_slice())
}
