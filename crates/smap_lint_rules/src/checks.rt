//! The rules, each with its name, the level that it has unless another is set, and what it finds.
ghost use Rattle.std.specs.Prelude.{◌≡◌, ◌<◌, bytes_eq, slice_get};
ghost use Rattle.std.specs.List.{position};
ghost use Rattle.smap_lint_rules.specs.Checks as spec;

use smap_report::{Level, Rule};

/// What is looked for, in the order of [`RULES`].
#[derive(Clone, Copy, PartialEq, Eq)]
pub enum Check {
    MissingMap,
    UnusedMap,
    TwoMaps,
    SharedMap,
    BrokenComment,
    CommentMissingFile,
    CommentLeavesFolder,
    RefusedMap,
    OtherFile,
    GeneratedPastEnd,
    OriginalPastEnd,
    MissingSource,
    StaleContent,
    OpenChain,
    MachinePath,
    AbsoluteRoot,
    DebugId,
    FewMapped,
    RepeatedSource,
    UnusedName,
}

/// The rules, by the numbers that findings have. Errors are what makes a map useless to whoever opens it;
/// what only may be meant otherwise is a warning, and what costs nothing but bytes a note.
pub const RULES: [Rule; 20] = [
    Rule {
        name: "missing-map",
        level: Level::Warning,
        summary: "A script has no map: it names none, and none is next to it.",
    },
    Rule {
        name: "unused-map",
        level: Level::Warning,
        summary: "A map is next to no file of its name, and no script names it.",
    },
    Rule {
        name: "two-maps",
        level: Level::Warning,
        summary: "A script names one map, and another one is next to it.",
    },
    Rule {
        name: "shared-map",
        level: Level::Warning,
        summary: "Two scripts have the same map, which fits one of them at most.",
    },
    Rule {
        name: "broken-comment",
        level: Level::Error,
        summary: "A script names for its map what is no URL, or a data: URL that can't be decoded.",
    },
    Rule {
        name: "comment-missing-file",
        level: Level::Error,
        summary: "A script names a map that isn't there.",
    },
    Rule {
        name: "comment-leaves-folder",
        level: Level::Warning,
        summary: "A script names a map that is no file of the folder, so that it can't be checked.",
    },
    Rule {
        name: "refused-map",
        level: Level::Error,
        summary: "A map isn't a valid source map.",
    },
    Rule {
        name: "other-file",
        level: Level::Warning,
        summary: "The member `file` of a map names another script than the one that has the map.",
    },
    Rule {
        name: "generated-past-end",
        level: Level::Error,
        summary: "Mappings begin past the end of the script, or of its lines: the map is of another build.",
    },
    Rule {
        name: "original-past-end",
        level: Level::Warning,
        summary: "Mappings lead past the end of a source's content, or of its lines.",
    },
    Rule {
        name: "missing-source",
        level: Level::Warning,
        summary: "A map has no content of a source, and the source's file isn't there.",
    },
    Rule {
        name: "stale-content",
        level: Level::Warning,
        summary: "The content of a source differs from the source's file.",
    },
    Rule {
        name: "open-chain",
        level: Level::Warning,
        summary: "A source is itself a script that names a map: positions lead to generated text.",
    },
    Rule {
        name: "machine-path",
        level: Level::Warning,
        summary: "A map names its sources by paths of the machine that built it.",
    },
    Rule {
        name: "absolute-root",
        level: Level::Warning,
        summary: "The member `sourceRoot` of a map is an absolute path.",
    },
    Rule {
        name: "debug-id",
        level: Level::Error,
        summary: "A script and its map have different debug ids.",
    },
    Rule {
        name: "few-mapped",
        level: Level::Error,
        summary: "Less of a script has an original than --min-mapped asks for.",
    },
    Rule {
        name: "repeated-source",
        level: Level::Note,
        summary: "A map lists a source more than once.",
    },
    Rule {
        name: "unused-name",
        level: Level::Note,
        summary: "A map lists names that no mapping has.",
    },
];

impl Check {
    /// The number of the rule in [`RULES`].
    pub fn number(self) -> usize
        ensures within { result < 20 }
        ensures own { slice_get spec.checks result ≡ Some self }
    {
        self as usize
    }
}

/// The number of the first of these rules that has this name.
fn number_in(rules: &[Rule], word: &str) -> Option<usize>
    ensures { result ≡ position (λ rule. bytes_eq rule.name.now word.now) rules.now }
{
    rules.iter().position(|rule| rule.name == word)
}

/// The number of the rule with this name.
pub fn rule_named(word: &str) -> Option<usize>
    ensures { result ≡ spec.named word.now }
{
    number_in(&RULES, word)
}
