//! The text of `--help`.

/// What `--help` prints. It is printed on standard error where nothing is asked for.
pub const HELP: &str = "\
Usage: smap-trace [OPTION]... URL=FILE[=BASE]... <crash.log
       smap-trace [OPTION]... URL/=FOLDER/... <crash.log
       smap-trace [OPTION]... FOLDER|FILE.map... [LOG]...|POSITION...
       smap-trace --list [OPTION]... [URL=FILE[=BASE]]... [URL/=FOLDER/]... <crash.log

Rewrites the stack traces in a log: positions in scripts become positions in their sources.

  URL=FILE[=BASE]  FILE is the source map of the script that the log calls URL, or the script, if it names
                   its map. BASE is the URL of the map, against which its sources are resolved: URL.map by
                   default, as a file: URL if the log has an absolute path
  URL/=FOLDER/     Each NAME.map in FOLDER, or below it, is the map of URL/NAME. Where there is none, the
                   script NAME may name its map
  FOLDER           Each script of the log takes the map, of those in FOLDER or below it, whose name agrees
                   with its own in most whole segments from the end
  FILE.map         A map, as if a folder held it alone
  LOG              A log, in place of standard input
  POSITION         URL:LINE:COLUMN, or LINE:COLUMN with one map that is given by its file: in place of a log

  --frames-only   Translate only lines that are stack frames, with nothing around them
  --anywhere      Find positions anywhere in a line, as without --frames-only
  --hide-ignored  Leave out frames in ignored sources (libraries, mostly)
  --skip-broken   Leave out maps that smap refuses, naming each; the status is 0 then
  --strict        Stop where smap refuses a map. Of logs that are files nothing is translated then
  --no-chain      Stop at the first source, also where that has a map of its own
  --check-all     Check every map, those too whose scripts the log doesn't name
  --list          List the scripts that the log names: how often, and whether each has a map
  --explain POSITION
                  Say step by step why POSITION, or the line of a log, becomes that of a source, or stays
  --names         Write the names of functions in frames, where the source's text in the map says them surely
  --context N     Show N lines of the source around each position, where the map has its text
  --url-bytes N   Refuse a map if the URLs of its sources take more than N bytes (default 67108864)
  --source-prefix FROM=TO
                  Write TO for FROM at the start of a source's URL. Of several the first that fits counts
  -o FILE         Write to FILE, which changes only when all is written
  -q, --quiet     Say nothing at the end of what was not translated
  -v, --verbose   Say which maps are opened, and for which names in the log
  -V, --version   Print the version
  -h, --help      Print help

Only the maps of scripts that the log names are opened. Lines are written as soon as they are read, so a log
can be followed:

  tail -f app.log | smap-trace https://example.org/=dist/

Status: 0 done; 1 a map is refused, without --skip-broken, and the frames of its script stay as they are;
2 the command line is wrong, or names a map that can't be read; 3 the log or a file can't be read, or the
output can't be written; 4 out of memory; 141 nobody reads the output any more.
";
