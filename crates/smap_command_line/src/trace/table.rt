//! The options of `smap-trace`.
use crate::rows::{FLAG, OptionOf, OptionRow, URL_BYTES, Value};

/// The options, in the order in which the help lists them and values are looked at.
pub const OPTIONS: [OptionRow; 16] = [
    OptionOf {
        name: "frames-only",
        help: "Translate only lines that are stack frames, with nothing around them",
        details: "Without it positions are found anywhere in a line: after a time, in JSON, in colours.",
        ..FLAG
    },
    OptionOf {
        name: "anywhere",
        help: "Find positions anywhere in a line, as without --frames-only",
        details: "It outweighs --frames-only.",
        ..FLAG
    },
    OptionOf {
        name: "hide-ignored",
        help: "Leave out frames in ignored sources (libraries, mostly)",
        ..FLAG
    },
    OptionOf {
        name: "skip-broken",
        help: "Leave out maps that smap refuses, naming each; the status is 0 then",
        ..FLAG
    },
    OptionOf {
        name: "strict",
        help: "Stop where smap refuses a map. Of logs that are files nothing is translated then",
        details: "It outweighs --skip-broken.",
        ..FLAG
    },
    OptionOf {
        name: "no-chain",
        help: "Stop at the first source, also where that has a map of its own",
        details: "Without it, a source that names a map, in its text or its file, is looked up in that map, \
                  and so on, as smap-maps compose does.",
        ..FLAG
    },
    OptionOf {
        name: "check-all",
        help: "Check every map, those too whose scripts the log doesn't name",
        details: "They are checked before anything else.",
        ..FLAG
    },
    OptionOf {
        name: "list",
        help: "List the scripts that the log names: how often, and whether each has a map",
        details: "The most frequent come first. This shows why nothing was translated, and standard \
                  error says which option may help. It needs no maps.",
        ..FLAG
    },
    OptionOf {
        name: "explain",
        value: Value::Text,
        value_name: "POSITION",
        help: "Say step by step why POSITION, or the line of a log, becomes that of a source, or stays",
        details: "The last line is the position in the source, or the reason and the command that comes \
                  next; the status is 0 or 1. No log is read.",
        ..FLAG
    },
    OptionOf {
        name: "names",
        help: "Write the names of functions in frames, where the source's text in the map says them surely",
        details: "Other names stay. docs/LOGS.md says what is sure.",
        ..FLAG
    },
    OptionOf {
        name: "context",
        value: Value::Number(4_294_967_295),
        value_name: "N",
        expected: "a number of lines",
        help: "Show N lines of the source around each position, where the map has its text",
        details: "They are shown below each line that is translated, N before and N after a position.",
        ..FLAG
    },
    URL_BYTES,
    OptionOf {
        name: "source-prefix",
        value: Value::Pair,
        value_name: "FROM=TO",
        expected: "FROM=TO",
        repeats: true,
        help: "Write TO for FROM at the start of a source's URL. Of several the first that fits counts",
        ..FLAG
    },
    OptionOf {
        name: "output",
        long: false,
        short: Some('o'),
        value: Value::File,
        value_name: "FILE",
        expected: "the name of a file",
        help: "Write to FILE, which changes only when all is written",
        details: "It is written in the same folder, as .smap-N, and takes the name when all is \
                  written; until then, and after an error, FILE is as it was. It has to be one that \
                  may be written, and keeps its permissions. A link still leads to it; one of another \
                  user than root isn't followed. No pipe or device may be named.",
        ..FLAG
    },
    OptionOf {
        name: "quiet",
        short: Some('q'),
        help: "Say nothing at the end of what was not translated",
        ..FLAG
    },
    OptionOf {
        name: "verbose",
        short: Some('v'),
        help: "Say which maps are opened, and for which names in the log",
        ..FLAG
    },
];
