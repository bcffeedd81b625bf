//! The options of `smap-maps`.
use crate::rows::{
    ALL_COMMANDS, Commands, FLAG, NO_COMMANDS, OptionOf, OptionRow, URL_BYTES, Value,
};

/// The options, in the order in which the help lists them and they are looked at.
pub const OPTIONS: [OptionRow; 23] = [
    OptionOf {
        name: "base",
        value: Value::Text,
        value_name: "URL",
        commands: Commands {
            check: true,
            tidy: true,
            flatten: true,
            repair: true,
            diff: true,
            ..NO_COMMANDS
        },
        help: "A map's URL is URL/ and its path below the folder, instead of the file: URL of the file",
        details: "Of a file that is given it is URL/ and its name. URL has neither a query nor a \
                  fragment. The sources of a map are resolved against its URL, and flatten writes them \
                  so.",
        ..FLAG
    },
    OptionOf {
        name: "absolute",
        commands: Commands {
            tidy: true,
            ..NO_COMMANDS
        },
        help: "Write source URLs as they are",
        ..FLAG
    },
    OptionOf {
        name: "relative",
        commands: Commands {
            tidy: true,
            ..NO_COMMANDS
        },
        help: "Write source URLs relative to the map's where that round-trips, which is the default",
        details: "So what is written is the same on every machine.",
        ..FLAG
    },
    OptionOf {
        name: "write",
        commands: Commands {
            tidy: true,
            flatten: true,
            repair: true,
            compose: true,
            comment: true,
            inline: true,
            outline: true,
            contents: true,
            rename: true,
            debug_id: true,
            ..NO_COMMANDS
        },
        help: "Rewrite the files that would change, unless a map would lose a member",
        details: "They are named. A refused map is left alone, and so is one that would lose a member, \
                  which is named on standard error. The new map is written to another file in the same \
                  folder, which is then renamed: at any time the map is whole, old or new. A map that \
                  another program writes meanwhile is left as that wrote it. Permissions stay, and the \
                  owner where the system allows that; a link stays a link, and one of another user \
                  than root isn't followed. A run that a signal ends may leave that other file behind, \
                  which is .smap-1, or the first number after it that is free.",
        ..FLAG
    },
    OptionOf {
        name: "drop",
        commands: Commands {
            tidy: true,
            flatten: true,
            compose: true,
            contents: true,
            ..NO_COMMANDS
        },
        help: "Rewrite those too that lose a member, such as debugId, naming each; take contents out",
        details: "A content becomes null, and with the last one the list goes.",
        ..FLAG
    },
    OptionOf {
        name: "add",
        commands: Commands {
            contents: true,
            ..NO_COMMANDS
        },
        help: "Put the files of sources into sourcesContent",
        details: "They are below the map's folder, or where a source relative to the map says, in UTF-8, \
                  and no link leads to them. A source that has a content keeps it.",
        ..FLAG
    },
    OptionOf {
        name: "only",
        value: Value::Text,
        value_name: "PATTERN",
        repeats: true,
        commands: Commands {
            contents: true,
            ..NO_COMMANDS
        },
        help: "Leave all other sources as they are",
        details: "A pattern is a source as the map writes it, with * for any characters.",
        ..FLAG
    },
    OptionOf {
        name: "except",
        value: Value::Text,
        value_name: "PATTERN",
        repeats: true,
        commands: Commands {
            contents: true,
            ..NO_COMMANDS
        },
        help: "Leave these sources as they are",
        ..FLAG
    },
    OptionOf {
        name: "source-prefix",
        value: Value::Pair,
        value_name: "FROM=TO",
        expected: "FROM=TO",
        repeats: true,
        commands: Commands {
            rename: true,
            ..NO_COMMANDS
        },
        help: "Write TO for FROM where a source begins with it",
        details: "Of several the first that fits counts.",
        ..FLAG
    },
    OptionOf {
        name: "strip-common",
        commands: Commands {
            rename: true,
            ..NO_COMMANDS
        },
        help: "Leave out the folder that all sources of a map are in",
        ..FLAG
    },
    OptionOf {
        name: "diff",
        commands: Commands {
            tidy: true,
            flatten: true,
            compose: true,
            ..NO_COMMANDS
        },
        help: "Show which members would change",
        details: "There is a line for each member of the map that would be another: how large it is \
                  before and after, and of sources and names which ones are merged, gone or new.",
        ..FLAG
    },
    OptionOf {
        name: "json",
        commands: Commands {
            check: true,
            tidy: true,
            flatten: true,
            compose: true,
            ..NO_COMMANDS
        },
        help: "Write a line of JSON for each map",
        details: "It has the members path, status, fault, place, line, column, range and, but for \
                  check, drops. Nothing else is written but errors of the command line and what compose \
                  says of sources. The line, the column and the range of bytes are those of the fault \
                  in the text of the map.",
        ..FLAG
    },
    OptionOf {
        name: "format",
        value: Value::Format,
        value_name: "FORMAT",
        expected: "text, gnu, github, sarif, junit, json or markdown",
        commands: Commands {
            lint: true,
            diff: true,
            ..NO_COMMANDS
        },
        help: "Write findings as text, gnu, github, sarif, junit, json; differences as text, json, markdown",
        ..FLAG
    },
    OptionOf {
        name: "rule",
        value: Value::Level,
        value_name: "NAME=LEVEL",
        expected: "NAME=LEVEL, where LEVEL is off, note, warning or error",
        repeats: true,
        commands: Commands {
            lint: true,
            ..NO_COMMANDS
        },
        help: "Set how much a rule counts: off, note, warning or error",
        ..FLAG
    },
    OptionOf {
        name: "min-mapped",
        value: Value::Number(100),
        value_name: "N",
        expected: "a number from 0 to 100",
        commands: Commands {
            lint: true,
            ..NO_COMMANDS
        },
        help: "The least part of a script, in percent, that has to be mapped",
        ..FLAG
    },
    OptionOf {
        name: "set",
        value: Value::Text,
        value_name: "URL",
        commands: Commands {
            comment: true,
            ..NO_COMMANDS
        },
        help: "Set the comment of each script that names its map to URL",
        ..FLAG
    },
    OptionOf {
        name: "remove",
        commands: Commands {
            comment: true,
            ..NO_COMMANDS
        },
        help: "Remove the comments of scripts that name their maps",
        ..FLAG
    },
    OptionOf {
        name: "output",
        short: Some('o'),
        value: Value::File,
        value_name: "DIR",
        expected: "the name of a folder",
        commands: Commands {
            extract: true,
            ..NO_COMMANDS
        },
        help: "Write the files of sources into DIR",
        ..FLAG
    },
    OptionOf {
        name: "thin",
        commands: Commands {
            compose: true,
            ..NO_COMMANDS
        },
        help: "Leave out mappings that change no position's original",
        ..FLAG
    },
    OptionOf {
        name: "used",
        commands: Commands {
            compose: true,
            ..NO_COMMANDS
        },
        help: "Leave out sources that no mapping has",
        ..FLAG
    },
    OptionOf {
        name: "beside",
        commands: Commands {
            compose: true,
            ..NO_COMMANDS
        },
        help: "A source that names no map has the NAME.map next to it",
        ..FLAG
    },
    OptionOf {
        name: "map",
        value: Value::Pair,
        value_name: "URL=FILE",
        expected: "URL=FILE",
        repeats: true,
        commands: Commands {
            compose: true,
            ..NO_COMMANDS
        },
        help: "The source with this URL has the map in FILE, whatever it names",
        details: "URL is whole, or what stands behind that of the folder. It is the base of that map's \
                  sources.",
        ..FLAG
    },
    OptionOf {
        commands: ALL_COMMANDS,
        ..URL_BYTES
    },
];
