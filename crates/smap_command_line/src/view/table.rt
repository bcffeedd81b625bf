//! The options of `smap-view`.
use crate::rows::{FLAG, OptionOf, OptionRow, URL_BYTES, Value};

/// The options, in the order in which the help lists them and values are looked at.
pub const OPTIONS: [OptionRow; 6] = [
    OptionOf {
        name: "base",
        value: Value::Text,
        value_name: "URL",
        help: "The map's URL is URL/ and its name, or its path below FOLDER, instead of its file: URL",
        details: "The page then shows URL in place of a path of this machine. URL has neither a query \
                  nor a fragment. The sources of the map are resolved against its URL.",
        ..FLAG
    },
    URL_BYTES,
    OptionOf {
        name: "output",
        long: false,
        short: Some('o'),
        value: Value::File,
        value_name: "FILE",
        expected: "the name of a file",
        help: "Write the page to FILE, which changes only when all is written",
        ..FLAG
    },
    OptionOf {
        name: "compare",
        value: Value::File,
        value_name: "OLD",
        expected: "a map, script or folder",
        help: "Show what grew and what shrank since OLD, the map, script or folder of another build",
        details: "A source is compared with the one of the same URL, for which OLD is taken to be where \
                  MAP, SCRIPT or FOLDER is. The page then has areas by growth and a table of it, and \
                  --sizes the bytes in OLD, those now and the growth of each source and folder, in all \
                  scripts together, with the most growth first.",
        ..FLAG
    },
    OptionOf {
        name: "sizes",
        value: Value::Sizes,
        value_name: "FORMAT",
        expected: "table, tsv or json",
        help: "Write no page, but the bytes and mappings of each source: table, tsv or json",
        details: "As table they are for people; as tsv there is a line for each source with the \
                  script, bytes, mappings and the source, with tabs between them; as json, a line with \
                  an object for each script.",
        ..FLAG
    },
    OptionOf {
        name: "budget",
        value: Value::File,
        value_name: "FILE",
        expected: "the name of a file, or a growth",
        help: "Write no page; fail where sources have more bytes than FILE, or OLD and +5% or +10KB, allows",
        details: "FILE holds a JSON object. Each of its names is part of URLs of sources, and its number \
                  is the most bytes that all of these may have together, in all scripts that are \
                  looked at. The empty name stands for the whole scripts. With --compare a text that begins \
                  with + is a growth in place of FILE: so much more than OLD the whole scripts may have, in \
                  hundredths (%), bytes, KB of 1,000 or MB of 1,000,000. The status is 1 then, and \
                  without --sizes nothing else is written.",
        ..FLAG
    },
];
