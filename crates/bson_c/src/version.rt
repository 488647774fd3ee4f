ghost use Rattle.std.specs.Prelude.{◌≡◌};

/// The version of what C calls. It rises by one where calls or statuses are added; those that there are keep their names, their numbers and their meaning.
pub const VERSION: u32 = 1;

/// The version that is linked.
#[unsafe(no_mangle)]
pub extern "C" fn tbson_version() -> u32
    ensures version { result ≡ VERSION }
{
    VERSION
}
