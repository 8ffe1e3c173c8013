//! The table of usage pages.
// Written by checks/tree/usage_tables.sh from data/usages.txt: edit that.

#[rattlefmt::skip]
pub(crate) static PAGE_NUMBERS: [u32; 35] = [
    0x01, 0x02, 0x03, 0x04, 0x05, 0x06, 0x07, 0x08, 0x09, 0x0a, 0x0b, 0x0c,
    0x0d, 0x0e, 0x0f, 0x10, 0x11, 0x12, 0x14, 0x20, 0x40, 0x41, 0x59, 0x80,
    0x81, 0x82, 0x84, 0x85, 0x8c, 0x8d, 0x8e, 0x90, 0x91, 0x92, 0xf1d0,
];

#[rattlefmt::skip]
pub(crate) static PAGE_ENDS: [u16; 36] = [
    0, 15, 34, 45, 59, 72, 95, 110, 113, 119, 126, 142, 150, 160, 167, 188, 195, 198, 219,
    236, 243, 261, 276, 301, 308, 326, 347, 352, 366, 381, 387, 409, 423, 429, 442, 455,
];

#[rattlefmt::skip]
pub(crate) static PAGE_PLACES: [u16; 35] = [
    32, 18, 28, 27, 21, 8, 31, 11, 12, 17, 34, 4, 33, 0, 5, 13, 6, 7, 22, 30, 20, 23, 24, 9,
    14, 26, 29, 19, 1, 16, 3, 10, 15, 25, 2,
];

#[rattlefmt::skip]
pub(crate) static PAGE_TEXT: &str = "\
Generic DesktopSimulation ControlsVR ControlsSport ControlsGame ControlsGeneric Device Con\
trolsKeyboard/KeypadLEDButtonOrdinalTelephony DeviceConsumerDigitizersHapticsPhysical Inpu\
t DeviceUnicodeSoCEye and Head TrackersAuxiliary DisplaySensorsMedical InstrumentBraille D\
isplayLighting And IlluminationMonitorMonitor EnumeratedVESA Virtual ControlsPowerBattery\x20\
SystemBarcode ScannerScalesMagnetic Stripe ReaderCamera ControlArcadeGaming DeviceFIDO All\
iance";
