//! Keys of a keyboard by the words that people have for them, as `Ctrl+A`.
use anyhow::{Result, bail};
use hid_nearest::{Nearest, ROOM};
use std::alloc::{AllocError, Global};

/// Keys by their words and their usages on the page Keyboard/Keypad (HID Usage Tables, Section 10).
/// The first word of a usage is that which is shown.
static KEYS: [(&str, u16); 66] = [
    ("Ctrl", 0xe0),
    ("Control", 0xe0),
    ("Shift", 0xe1),
    ("Alt", 0xe2),
    ("Option", 0xe2),
    ("GUI", 0xe3),
    ("Win", 0xe3),
    ("Super", 0xe3),
    ("Meta", 0xe3),
    ("Cmd", 0xe3),
    ("RightCtrl", 0xe4),
    ("RightShift", 0xe5),
    ("RightAlt", 0xe6),
    ("AltGr", 0xe6),
    ("RightGUI", 0xe7),
    ("Enter", 0x28),
    ("Return", 0x28),
    ("Escape", 0x29),
    ("Esc", 0x29),
    ("Backspace", 0x2a),
    ("Tab", 0x2b),
    ("Space", 0x2c),
    ("Minus", 0x2d),
    ("-", 0x2d),
    ("Equal", 0x2e),
    ("=", 0x2e),
    ("[", 0x2f),
    ("]", 0x30),
    ("\\", 0x31),
    (";", 0x33),
    ("'", 0x34),
    ("`", 0x35),
    (",", 0x36),
    (".", 0x37),
    ("/", 0x38),
    ("CapsLock", 0x39),
    ("F1", 0x3a),
    ("F2", 0x3b),
    ("F3", 0x3c),
    ("F4", 0x3d),
    ("F5", 0x3e),
    ("F6", 0x3f),
    ("F7", 0x40),
    ("F8", 0x41),
    ("F9", 0x42),
    ("F10", 0x43),
    ("F11", 0x44),
    ("F12", 0x45),
    ("PrintScreen", 0x46),
    ("ScrollLock", 0x47),
    ("Pause", 0x48),
    ("Insert", 0x49),
    ("Home", 0x4a),
    ("PageUp", 0x4b),
    ("Delete", 0x4c),
    ("Del", 0x4c),
    ("End", 0x4d),
    ("PageDown", 0x4e),
    ("Right", 0x4f),
    ("Left", 0x50),
    ("Down", 0x51),
    ("Up", 0x52),
    ("NumLock", 0x53),
    ("Menu", 0x65),
    ("Application", 0x65),
    ("0", 0x27),
];

/// A key that is down.
#[derive(Drop)]
pub struct Pressed<'a> {
    /// What it is called.
    pub key: &'a str,
    /// The word of `hid set` that presses it, by its usage.
    pub word: String,
}

/// The keys of a text that has them with `+` between them, each once.
pub fn pressed_keys<'a>(alloc: Global, keys: Option<&'a str>) -> Result<Vec<Pressed<'a>>> {
    let mut pressed: Vec<Pressed> = Vec::new(alloc);
    let Some(keys) = keys else {
        return Ok(pressed);
    };
    for key in keys.split("+") {
        let Some(id) = key_named(key.trim()) else {
            let refusal = no_key(alloc, key)?;
            bail!("{refusal}");
        };
        let word = format!(in alloc; "0007{id:04x}=1")?;
        if !pressed
            .iter()
            .any(|known| known.word.as_str() == word.as_str())
        {
            pressed.push(Pressed { key, word })?;
        }
    }
    Ok(pressed)
}

/// The usage of a key: a letter, a digit from 1 to 9, or a word of the table, in any case.
fn key_named(word: &str) -> Option<u16> {
    if let [letter] = word.as_bytes() {
        let small = letter.to_ascii_lowercase();
        if small.is_ascii_lowercase() {
            return Some(u16::from(small.saturating_sub(b'a')).saturating_add(0x04));
        }
        if matches!(small, b'1'..=b'9') {
            return Some(u16::from(small.saturating_sub(b'1')).saturating_add(0x1e));
        }
    }
    let row = KEYS.iter().find(|row| row.0.eq_ignore_ascii_case(word))?;
    Some(row.1)
}

/// What is said of a word that is no key: those that are nearest.
fn no_key(alloc: Global, word: &str) -> Result<String, AllocError> {
    let mut nearest = Nearest::new(alloc, word)?;
    for row in KEYS.iter() {
        nearest.add(String::from_str(alloc, row.0)?)?;
    }
    let mut refusal = format!(in alloc; "--press {word}: no such key")?;
    nearest.add_to(&mut refusal, ROOM)?;
    Ok(refusal)
}
