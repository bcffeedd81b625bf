//! The runs, made twice in one process.

use crate::answers::{Answer, said};
use crate::maps::BASE;
use smap_io::Device;
use smap_mappings::Memory;
use smap_tool::{RunFault, Task, run};
use smap_trace::MatchMode;
use std::alloc::Global;

/// The run with this name.
pub(crate) fn task_named(name: &str) -> Option<Task<'static>> {
    let base = BASE;
    match name {
        "run_respell" => Some(Task::Respell),
        "run_check" => Some(Task::Check { base }),
        "run_tidy" => Some(Task::Tidy {
            base,
            relative: false,
        }),
        "run_tidy_relative" => Some(Task::Tidy {
            base,
            relative: true,
        }),
        "run_flatten" => Some(Task::Flatten { base }),
        "run_lookup" => Some(Task::Lookup {
            base,
            line: 0,
            column: 5,
        }),
        "run_scripts" => Some(Task::Scripts),
        "run_translate" => Some(Task::Translate {
            mode: MatchMode::FRAMES,
            hide: false,
            names: false,
        }),
        _ => None,
    }
}

/// What the run writes of a text. Its writer has room for that from the beginning, since a writer that gets
/// no memory fails.
pub(crate) fn ran(alloc: Global, task: Task<'_>, text: &[u8]) -> Answer {
    let mut reader = Device::new(text);
    let mut writer = Device::new(Vec::with_capacity(alloc, 4096)?);
    match run(alloc, task, &mut reader, &mut writer) {
        Ok(_) => Ok(writer.into_inner()),
        Err(RunFault::Memory) => Err(Memory),
        Err(_) => said(alloc, b"a device failed"),
    }
}
