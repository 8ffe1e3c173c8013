//! What is said of a line that no form has: itself, and the form that it is likest.

/// What a line has that is likely of a form, and which form that is.
static MARKS: [(&str, &str); 11] = [
    ("TUD_", "TinyUSB's macros"),
    ("HID_", "macros of TinyUSB or Zephyr"),
    ("Usage Page (", "what hid compile reads"),
    ("Collection (", "what hid compile reads"),
    ("Item(", "lsusb's text"),
    ("bytes", "Python source"),
    ("char ", "C source"),
    ("int8", "C source"),
    ("byte", "source"),
    ("{", "source or JSON"),
    ("0x", "hex text or source"),
];

/// How many bytes of a line are shown.
const SHOWN: usize = 60;

/// Which form a line is likest, where it is like one.
pub fn likest(line: &str) -> Option<&'static str> {
    let row = MARKS.iter().find(|row| line.contains(row.0))?;
    Some(row.1)
}

/// The front of a line, where it is long.
pub fn shortened(line: &str) -> &str {
    let line = line.trim();
    for end in [SHOWN, SHOWN - 1, SHOWN - 2, SHOWN - 3] {
        if let Some(front) = line.get(..end) {
            return front;
        }
    }
    line
}
