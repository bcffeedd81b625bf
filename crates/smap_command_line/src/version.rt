//! The number of the release. Between releases what is installed or packed has its commit in place of
//! `unknown`, put there by `tools/version`.

/// The number of the release.
pub const NUMBER: &str = "0.3.0-dev";

/// What `--version` prints.
pub const VERSION: &str = "smap 0.3.0-dev (commit unknown)\n";
