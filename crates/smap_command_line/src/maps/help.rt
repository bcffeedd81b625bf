//! The text of `--help`.

/// What `--help` prints. It is printed on standard error where no command is given.
pub const HELP: &str = "\
Usage: smap-maps check [--base URL] [--json] PATH...
       smap-maps tidy [--base URL] [--absolute] [--json] [--write [--drop] | --diff] PATH...
       smap-maps flatten [--base URL] [--json] [--write [--drop] | --diff] PATH...
       smap-maps lint [--format FORMAT] [--rule NAME=LEVEL]... [--min-mapped N] FOLDER...
       smap-maps repair [--base URL] [--write] PATH...
       smap-maps compose [--thin] [--used] [--json] [--write [--drop] | --diff] PATH...
       smap-maps extract -o DIR PATH...
       smap-maps comment (--set URL | --remove) [--write] SCRIPT...
       smap-maps inline|outline|debug-id [--write] SCRIPT...
       smap-maps contents (--add | --drop) [--only PATTERN]... [--except PATTERN]... [--write] PATH...
       smap-maps rename (--source-prefix FROM=TO... | --strip-common) [--write] PATH...
       smap-maps diff [--base URL] [--format text|json|markdown] OLD NEW

Works on source maps: files, and each *.map in folders and below them; some commands on scripts.

  check       Name each map that smap refuses, with its fault
  tidy        Name each map that isn't in canonical form
  flatten     Name each map that isn't a flat map as smap writes it
  lint        Say why maps don't work: of each script and each map of a build, what is wrong
  repair      Name each refused map that a few bytes spoil, with what would mend it
  compose     Join each map with the maps of its sources, at every depth
  extract     Write the contents of sources that maps hold as files
  comment     Set or remove the comment by which a script names its map
  inline      Put the map of a script into its comment
  outline     Put the map within a script into a file next to it
  contents    Put the contents of sources into maps, or take them out
  rename      Give the sources of maps other beginnings
  debug-id    Give each script and its map one debug id, by which crash reports find the map
  diff        Say whether two maps, or the maps of two folders, mean the same, and what differs

  --base URL      A map's URL is URL/ and its path below the folder, instead of the file: URL of the file
                  (check, tidy, flatten, repair, diff)
  --absolute      Write source URLs as they are (tidy)
  --relative      Write source URLs relative to the map's where that round-trips, which is the default (tidy)
  --write         Rewrite the files that would change, unless a map would lose a member (tidy, flatten,
                  repair, compose, comment, inline, outline, contents, rename, debug-id)
  --drop          Rewrite those too that lose a member, such as debugId, naming each; take contents out (tidy,
                  flatten, compose, contents)
  --add           Put the files of sources into sourcesContent (contents)
  --only PATTERN  Leave all other sources as they are (contents)
  --except PATTERN
                  Leave these sources as they are (contents)
  --source-prefix FROM=TO
                  Write TO for FROM where a source begins with it (rename)
  --strip-common  Leave out the folder that all sources of a map are in (rename)
  --diff          Show which members would change (tidy, flatten, compose)
  --json          Write a line of JSON for each map (check, tidy, flatten, compose)
  --format FORMAT
                  Write findings as text, gnu, github, sarif, junit, json; differences as text, json, markdown
                  (lint, diff)
  --rule NAME=LEVEL
                  Set how much a rule counts: off, note, warning or error (lint)
  --min-mapped N  The least part of a script, in percent, that has to be mapped (lint)
  --set URL       Set the comment of each script that names its map to URL (comment)
  --remove        Remove the comments of scripts that name their maps (comment)
  -o, --output DIR
                  Write the files of sources into DIR (extract)
  --thin          Leave out mappings that change no position's original (compose)
  --used          Leave out sources that no mapping has (compose)
  --beside        A source that names no map has the NAME.map next to it (compose)
  --map URL=FILE  The source with this URL has the map in FILE, whatever it names (compose)
  --url-bytes N   Refuse a map if the URLs of its sources take more than N bytes (default 67108864)
  -V, --version   Print the version
  -h, --help      Print help

Status: 0 done: no map would change, or --write has rewritten those that would; 1 a map is refused, would
change or lose a member, lint finds an error, or diff a difference; 2 the command line is wrong; 3 a file
can't be read or written; 4 out of memory; 141 nobody reads the output any more.
";
