//! The functions of sources, as far as frames needed them.
ghost use Rattle.std.specs.Prelude.{◌≡◌, IfOk, IfSome, OnOk, [], option_copied};
ghost use Rattle.smap_record.specs.Views.{origin_of_view};
ghost use Rattle.smap_trace.specs.Known.{KnowsLess, KnowsMore, KnowsOf, of_source};
ghost use Rattle.smap_trace.specs.Names.{IsOfOrigin};

use indexmap::IndexMap;
use smap_functions::{SourceFunctions, language_of};
use smap_record::OriginalView;
use std::alloc::{AllocError, Global};
use std::marker::Model;

/// How many lines, starts and ends of functions are kept of all sources, before those that are kept go.
const MOST_KEPT: usize = 4_194_304;

/// The functions of the sources of one script's map, by their numbers; none of those that have none.
#[derive(Drop)]
struct ScriptSources {
    sources: IndexMap<usize, Option<SourceFunctions>>,
}

/// The functions of sources, as far as frames needed them, by the URLs of scripts: one for each set of maps,
/// in which a script keeps its map. A contract sees what is known of a source, by a script and a number.
#[derive(Drop)]
pub struct KnownFunctions {
    scripts: IndexMap<Vec<u8>, ScriptSources>,
    kept: usize,
}

impl Model for KnownFunctions {
    ghost use Rattle.smap_trace.specs.Known.{Known, known_in};

    ghost Value = { Known };

    ghost view = { λ k. known_in k.scripts.entries };
}

/// The functions of a source, if it has a text in a language that has them.
fn functions_of(
    alloc: Global,
    original: &OriginalView<'_>,
) -> Result<Option<SourceFunctions>, AllocError>
    ensures { IfOk result (λ o. IfSome o (IsOfOrigin (origin_of_view original.now))) }
{
    let (Some(url), Some(content)) = (original.source.url, original.source.content) else {
        return Ok(None);
    };
    match language_of(url.as_bytes()) {
        Some(language) => SourceFunctions::read(alloc, content.as_bytes(), language),
        None => Ok(None),
    }
}

impl KnownFunctions {
    /// None.
    pub fn new(alloc: Global) -> KnownFunctions
        ensures { result ≡ [] }
    {
        KnownFunctions {
            scripts: IndexMap::new(alloc),
            kept: 0,
        }
    }

    /// Those of this source of the map of the script with this URL.
    pub(crate) fn of(&self, script: &[u8], number: usize) -> Option<&SourceFunctions>
        ensures { option_copied result ≡ of_source self.now script.now number }
    {
        match self.scripts.get(script) {
            Some(known) => match known.sources.get(&number) {
                Some(source) => source.as_ref(),
                None => None,
            },
            None => None,
        }
    }

    /// Whether it is known of a source what functions it has.
    fn has(&self, script: &[u8], number: usize) -> bool {
        match self.scripts.get(script) {
            Some(known) => known.sources.get(&number).is_some(),
            None => false,
        }
    }

    /// Makes room for so much more, by forgetting all if it is too much.
    fn make_room(&mut self, len: usize)
        ensures { KnowsLess self.old self.new }
    {
        if self.kept.saturating_add(len) > MOST_KEPT {
            self.scripts.clear();
            self.kept = 0;
        }
        self.kept = self.kept.saturating_add(len);
    }

    /// Reads those of the source of an original, unless they are known.
    pub(crate) fn read(
        &mut self,
        alloc: Global,
        script: &[u8],
        original: &OriginalView<'_>,
    ) -> Result<(), AllocError>
        ensures { OnOk result (KnowsOf self.old self.new script.now original.now.source_number
            (origin_of_view original.now)) }
    {
        if self.has(script, original.source_number) {
            return Ok(());
        }
        let source = functions_of(alloc, original)?;
        let len = match &source {
            Some(functions) => functions.len(),
            None => 0,
        };
        self.make_room(len);
        self.put(alloc, script, original.source_number, source)
    }

    fn put(
        &mut self,
        alloc: Global,
        script: &[u8],
        number: usize,
        source: Option<SourceFunctions>,
    ) -> Result<(), AllocError>
        ensures { OnOk result (KnowsMore self.old self.new script.now number source) }
    {
        if let Some(known) = self.scripts.get_mut(script) {
            known.sources.insert(number, source)?;
            return Ok(());
        }
        let mut known = ScriptSources {
            sources: IndexMap::new(alloc),
        };
        known.sources.insert(number, source)?;
        self.scripts.insert(Vec::from_slice(alloc, script)?, known)?;
        Ok(())
    }
}
