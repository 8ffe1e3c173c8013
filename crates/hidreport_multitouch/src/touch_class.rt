//! How hid-multitouch takes a device.

/// How hid-multitouch takes a device that it knows by its descriptor alone.
#[derive(Clone, Copy, Debug, PartialEq, Eq)]
pub enum TouchClass {
    /// By Contact Identifiers: each report id has its input device, and other applications than
    /// some are ignored.
    Plain,

    /// As one made for Windows 8: each application has its input device.
    Windows8,
}

impl TouchClass {
    ghost use Rattle.std.specs.Prelude.{◌≡◌};
    ghost use Rattle.hidreport_multitouch.specs.Touching.{is_windows_8, takes_application};

    /// Whether it is that of a device made for Windows 8.
    pub fn is_windows_8(self) -> bool
        ensures { result ≡ is_windows_8 self }
    {
        matches!(self, TouchClass::Windows8)
    }

    /// Whether usages in an application, by its usage, have codes.
    pub fn takes_application(self, application: u32) -> bool
        ensures { result ≡ takes_application self application }
    {
        match application {
            0x0001_0006 | 0x0001_000c | 0x0001_000e | 0x0001_0080 => true,
            0x000c_0001 | 0x000d_0002 | 0x000d_0004 | 0x000d_0005 => true,
            _ => self.is_windows_8(),
        }
    }
}
