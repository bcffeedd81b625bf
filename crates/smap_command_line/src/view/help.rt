//! The text of `--help`.

/// What `--help` prints. It is printed on standard error where no argument is given.
pub const HELP: &str = "\
Usage: smap-view [--base URL] [--url-bytes N] [--compare OLD] [-o FILE] MAP|SCRIPT|FOLDER [SCRIPT] >page.html
       smap-view [--base URL] [--url-bytes N] [--compare OLD] --sizes FORMAT [--budget FILE]
                 MAP|SCRIPT|FOLDER [SCRIPT]

Writes an HTML page to look at a source map: the script beside its sources with each mapping coloured, and how
many bytes of the script come from which source. The page holds all that it shows, and requests nothing.

  MAP         The source map
  SCRIPT      The script, or another text that MAP belongs to. By default a file beside MAP: the one that is
              called as the map's `file`, or as MAP without .map. Given alone, a script (*.js, *.mjs, *.cjs or
              *.css) is followed to its map: the one that it names or holds, or the one called SCRIPT.map
  FOLDER      All scripts in it and below that have a map, in one page with a list of them

  --base URL      The map's URL is URL/ and its name, or its path below FOLDER, instead of its file: URL
  --url-bytes N   Refuse a map if the URLs of its sources take more than N bytes (default 67108864)
  -o FILE         Write the page to FILE, which changes only when all is written
  --compare OLD   Show what grew and what shrank since OLD, the map, script or folder of another build
  --sizes FORMAT  Write no page, but the bytes and mappings of each source: table, tsv or json
  --budget FILE   Write no page; fail where sources have more bytes than FILE, or OLD and +5% or +10KB, allows
  -V, --version   Print the version
  -h, --help      Print help

If the map is refused, the page has the error and the part of the map where it is. Of a folder a script that
can't be shown is named and left out.

Status: 0 done; 1 a map is refused, a script of a folder left out, or there are more bytes than the budget
allows; 2 the command line is wrong, or there is no script or no map; 3 a file can't be read, or the output
can't be written; 4 out of memory; 141 nobody reads the output any more.
";
