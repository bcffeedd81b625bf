//! The version of the library.
ghost use Rattle.std.specs.Prelude.{◌≡◌};
ghost use Rattle.smap_c.specs.Version.{version_number};

/// The version 0.3.0: two decimal digits each for the minor and the patch version.
pub const VERSION: u32 = 300;

/// The version of the library.
#[unsafe(no_mangle)]
pub extern "C" fn smap_version() -> u32
    ensures { result ≡ version_number 0 3 0 }
{
    VERSION
}
