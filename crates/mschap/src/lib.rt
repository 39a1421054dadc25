// MS-CHAP for C: each exported function has its own name there, and host/include/mschap.h declares
// it.
#![tactic(auto)]

mod ciphers;
mod conversations;
mod files;
mod lists;
mod opening;
mod packet_parts;
mod passwords;
mod peers;
mod records;
mod steps;

ghost use Rattle.std.specs.Prelude.{◌≡◌};
ghost use Rattle.mschap.specs.Sizes.{interface_version};

// 0.9.0: major, minor and patch, a byte each.
const INTERFACE_VERSION: u32 = 2304;

// The version of the interface.
#[unsafe(no_mangle)]
pub extern "C" fn mschap_version() -> u32
    ensures { result ≡ interface_version }
{
    INTERFACE_VERSION
}
