//! Laws about the command line, whatever its arguments, and about the outputs of runs, for every input.
ghost use Rattle.std.specs.Prelude.{◌≡◌, true};
ghost use Rattle.clap.specs.Words.{is_simple_and_free};
ghost use Rattle.smap_tool.specs.Commands as line;
ghost use Rattle.smap_tool.specs.Laws.{OutputStays, RespellDecides};
ghost use Rattle.smap_tool.specs.SameTranslation.{SameTranslation};

/// The command line is of the kind for which `clap`'s specification says what any arguments give.
pub fn command_line_is_simple()
    ensures { is_simple_and_free line.smap ≡ true }
{}

/// Of two mappings strings that `respell` accepts, the outputs are equal exactly if the tokens are; and its
/// output is accepted again, with the same tokens and the same output.
pub fn respell_decides_equality()
    ensures decides { RespellDecides }
    ensures stays { OutputStays }
{}

/// Every trace is translated alike if the maps of its scripts are replaced by those read from their
/// canonical bytes, in either form.
pub fn same_translation()
    ensures { SameTranslation }
{}
