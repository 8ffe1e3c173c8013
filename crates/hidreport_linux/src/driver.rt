//! Drivers that take a device for what its descriptor says.

/// A driver that takes a device from hid-generic for what its descriptor says.
#[derive(Clone, Copy, Debug, PartialEq, Eq)]
pub enum Driver {
    /// hid-multitouch, for a Contact Identifier in an input item with data.
    Multitouch,

    /// hid-sensor-hub, for an application or physical collection of the page Sensors.
    SensorHub,
}

impl Driver {
    ghost use Rattle.std.specs.Prelude.{◌≡◌};
    ghost use Rattle.hidreport_linux.specs.Types.{driver_name};

    /// The driver's name.
    pub fn name(self) -> &'static str
        ensures { result.now ≡ driver_name self }
    {
        match self {
            Driver::Multitouch => "hid-multitouch",
            Driver::SensorHub => "hid-sensor-hub",
        }
    }
}
