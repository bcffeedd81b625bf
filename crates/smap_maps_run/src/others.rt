//! The commands that don't look at maps one after another.
use crate::changing::{comment_task, scripts_asked};
use crate::composing::compose;
use crate::differing::diff;
use crate::extracting::extract;
use crate::linting::lint_asked;
use crate::sourcing::source;
use smap_command_line::MapsCommand;
use smap_command_line::maps::MapsWords;
use smap_lint_run::lint;
use smap_script_comments::{ScriptTask, edit_scripts};
use smap_system::{Disk, Host, Stop, Watched};
use std::io::Write;

/// Says why the maps of a build don't work.
fn lint_build<E: Eprint + AllocGlobal, D: Disk, W: Write>(
    host: &Host<'_, E, D>,
    asked: &MapsWords<'_>,
    writer: &mut Watched<W>,
) -> Result<u8, Stop> {
    let asked = lint_asked(host.alloc(), asked)?;
    lint(host, &asked, writer)?;
    Ok(0)
}

/// Does this with each script.
fn change_scripts<'a, E: Eprint + AllocGlobal, D: Disk, W: Write>(
    host: &Host<'_, E, D>,
    asked: &MapsWords<'a>,
    task: ScriptTask<'a>,
    writer: &mut Watched<W>,
) -> Result<u8, Stop> {
    let asked = scripts_asked(host.alloc(), asked, task)?;
    edit_scripts(host, &asked, writer)
}

/// Does what a command says that doesn't look at maps one after another. Answers the status of a run that
/// came to its end.
pub(crate) fn do_other<E: Eprint + AllocGlobal, D: Disk, W: Write>(
    host: &Host<'_, E, D>,
    asked: &MapsWords<'_>,
    writer: &mut Watched<W>,
) -> Result<u8, Stop> {
    match asked.command {
        MapsCommand::Compose => compose(host, asked, writer),
        MapsCommand::Diff => diff(host, asked, writer),
        MapsCommand::Extract => extract(host, asked, writer),
        MapsCommand::Comment => change_scripts(host, asked, comment_task(asked), writer),
        MapsCommand::Inline => change_scripts(host, asked, ScriptTask::Inline, writer),
        MapsCommand::Outline => change_scripts(host, asked, ScriptTask::Outline, writer),
        MapsCommand::Contents | MapsCommand::Rename => source(host, asked, writer),
        MapsCommand::DebugId => change_scripts(host, asked, ScriptTask::Identify, writer),
        _ => lint_build(host, asked, writer),
    }
}
