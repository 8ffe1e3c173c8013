ghost use Rattle.std.specs.Prelude.{◌≡◌, ◌+◌, ◌*◌};

/// The version of the library: the three numbers of the Rust crate's and that of the port's stage,
/// a byte each, the first as the highest (`HIDREPORT_VERSION`).
#[unsafe(no_mangle)]
pub extern "C" fn hidreport_version() -> u32
    ensures { result ≡ 6 * 65536 + 10 }
{
    0x0006_000a
}
