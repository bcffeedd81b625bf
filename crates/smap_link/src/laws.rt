//! What holds of the definitions: public functions with empty bodies, whose clauses are the laws.
ghost use Rattle.std.specs.Prelude.{◌≡◌, ◌<◌, ℕ, List};
ghost use Rattle.std.specs.List.{All};
ghost use Rattle.percent_encoding.specs.Percent.{percent_decode};
ghost use Rattle.smap_link.specs.Alike.{PathsAreAlike};
ghost use Rattle.smap_link.specs.Laws.{NamesReturn};
ghost use Rattle.smap_link.specs.Urls as spec;

/// Decoding an encoded path gives the path. So no two names below a folder have one URL.
pub fn decodes_back()
    ensures { (path : List ℕ) → All (λ b. b < 256) path → percent_decode (spec.encoded path) ≡ path }
{}

/// The name that a script has below a folder is found again in the script's URL.
pub fn names_return()
    ensures { NamesReturn }
{}

/// A path and its file: URL are alike.
pub fn paths_are_alike()
    ensures { PathsAreAlike }
{}
