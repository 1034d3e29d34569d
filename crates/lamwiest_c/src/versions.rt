//! The version of this library.

ghost use Rattle.std.specs.Prelude.{◌≡◌};
ghost use Rattle.lamwiest_c.specs.declared.versions.TheConstants.{VERSION};

/// Version 0.2.5: a million times the first number, a thousand times the second, and the third.
const VERSION: u32 = 2005;

/// Returns the version of the library that a program is linked with. The one that it was compiled with is `LW_VERSION`.
#[unsafe(no_mangle)]
pub extern "C" fn lw_version() -> u32
    ensures { result ≡ VERSION }
{
    VERSION
}
