// The library's version, as include/downgrater.h reads it.
ghost use Rattle.std.specs.Prelude.{◌≡◌};
ghost use Rattle.downgrater.specs.Exports.{version};

const VERSION: u32 = 10702;

// The version of the library that is linked.
#[unsafe(no_mangle)]
pub extern "C" fn dg_version() -> u32
    ensures { result ≡ version }
{
    VERSION
}
