// The version of the library.
ghost use Rattle.std.specs.Prelude.{◌≡◌};
ghost use Rattle.interface.specs.Version.{library_version, version_number};

const MAJOR: u32 = 3;

const MINOR: u32 = 1;

const PATCH: u32 = 1;

// The version as one number, for a caller that compares it with the version that it was compiled for.
pub fn hromulice_version() -> u32
    ensures { result ≡ version_number library_version }
{
    MAJOR * 65536 + MINOR * 256 + PATCH
}
