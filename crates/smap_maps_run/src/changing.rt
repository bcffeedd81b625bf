//! What a command line asks of scripts, in the words of `smap_script_comments`.
use smap_command_line::maps::MapsWords;
use smap_script_comments::{ScriptTask, ScriptsAsked};
use std::alloc::{AllocError, Global};

/// What `comment` does with each script.
pub(crate) fn comment_task<'a>(asked: &MapsWords<'a>) -> ScriptTask<'a> {
    match asked.options.text("set") {
        Some(url) => ScriptTask::Set(url),
        None => ScriptTask::Remove,
    }
}

/// What is asked of a run over scripts.
pub(crate) fn scripts_asked<'a>(
    alloc: Global,
    asked: &MapsWords<'a>,
    task: ScriptTask<'a>,
) -> Result<ScriptsAsked<'a>, AllocError> {
    Ok(ScriptsAsked {
        paths: Vec::from_slice(alloc, &asked.paths)?,
        task,
        write: asked.options.has("write"),
    })
}
