//! `hid fields --linux`: each field with the event codes that Linux gives its usages.
use crate::linux_shown::Shown;
use crate::linux_usages::check_usages;
use anyhow::Result;
use hid_input::input::descriptor_named;
use hid_input::linux_read::{read_by_linux, tell_mended};
use hid_input::settings::Settings;
use hid_input::world::World;
use hid_output::ending::Ending;
use hidreport_linux::{Doubt, Driver, LinuxDevice};

/// Shows the reports of a descriptor with their fields, and what Linux gives each.
pub fn show_linux<R: World>(rt: &R, settings: &Settings, file: &str) -> Result<Ending> {
    let given = descriptor_named(rt, settings, file)?;
    let read = read_by_linux(rt.alloc(), settings, given.descriptor())?;
    show_device(rt, settings, file, &read)?;
    Ok(Ending::Done)
}

/// Shows a device, and what is to be said of how Linux reads it.
fn show_device<R: World>(
    rt: &R,
    settings: &Settings,
    file: &str,
    read: &LinuxDevice,
) -> Result<()> {
    if settings.has_notes() {
        tell_mended(rt, file, read)?;
    }
    show_read(rt, settings, read)?;
    if settings.has_notes() {
        tell(rt, read.reading().doubt(), read.reading().driver())?;
    }
    Ok(())
}

/// Shows the reports of a device.
fn show_read<R: AllocGlobal + Print>(
    rt: &R,
    settings: &Settings,
    read: &LinuxDevice,
) -> Result<()> {
    let descriptor = read.outline().lay_out(rt.alloc())?;
    let fields = read.reading().fields(rt.alloc())?;
    check_usages(settings, &fields)?;
    let mut shown = Shown::of(rt.alloc(), settings, read)?;
    shown.show(rt, read, &descriptor, &fields)
}

/// Says why no codes are known, and of a driver that takes the device what isn't known of it.
fn tell<R: Eprint>(rt: &R, doubt: Option<Doubt>, driver: Option<Driver>) -> Result<()> {
    if let Some(doubt) = doubt {
        let (offset, reason) = (doubt.offset, doubt.reason.text());
        eprintln!(rt; "hid: the codes aren't known for offset {offset}: {reason}")?;
    }
    match driver {
        Some(Driver::Multitouch) => eprintln!(rt;
            "hid: hid-multitouch takes such a device: its ids, and the contacts it says it has, may \
             change the codes"
        )?,
        Some(Driver::SensorHub) => {
            eprintln!(rt;
                "hid: hid-sensor-hub takes such a device, and leaves codes to hid-input"
            )?;
        }
        None => {}
    }
    Ok(())
}
