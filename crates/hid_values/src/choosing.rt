//! The device of the machine that a person chooses.
use anyhow::{Result, bail};
use hid_input::settings::Settings;
use hid_input::world::World;
use hid_output::escaped;
use hid_sources::{MOST_NODES, machine_device};
use std::alloc::{AllocError, Global};
use std::io::Read;

/// How many letters of an answer are looked at.
const LETTERS: usize = 16;

/// Lists the devices on standard error and asks there for the number of one; its node.
///
/// # Errors
///
/// - there is no device, or the answer is no number of one.
pub fn chosen_node<R: World>(rt: &R, settings: &Settings) -> Result<String> {
    let numbers = listed(rt, settings)?;
    if numbers.is_empty() {
        bail!("the machine has no HID device");
    }
    eprint!(rt; "hid: the number of a device: ")?;
    let answer = answer_in(rt)?;
    node_of(rt.alloc(), &numbers, answer.trim())
}

/// Lists the devices, and answers their numbers.
fn listed<R: World>(rt: &R, settings: &Settings) -> Result<Vec<usize>> {
    let mut numbers = Vec::new(rt.alloc());
    for number in 0..MOST_NODES {
        if list_device(rt, settings, number)? {
            numbers.push(number)?;
        }
    }
    Ok(numbers)
}

/// Lists the device of a number, and answers whether there is one.
fn list_device<R: World>(rt: &R, settings: &Settings, number: usize) -> Result<bool> {
    let Ok(Some(device)) = machine_device(rt, settings.sysfs, number) else {
        return Ok(false);
    };
    let name = escaped(rt.alloc(), device.name.as_str())?;
    eprintln!(rt; "{number}: {name}")?;
    Ok(true)
}

/// The node that an answer names by one of these numbers.
fn node_of(alloc: Global, numbers: &[usize], answer: &str) -> Result<String> {
    match answer.parse::<usize>() {
        Ok(number) if numbers.contains(&number) => { Ok(format!(in alloc; "/dev/hidraw{number}")?) }
        _ => {
            let answer = escaped(alloc, answer)?;
            bail!("'{answer}' is none of the numbers")
        }
    }
}

/// The first letters of the first line of the standard input.
fn answer_in<R: World>(rt: &R) -> Result<String> {
    let mut reader = rt.reader();
    let mut answer = String::new(rt.alloc());
    let mut byte = [0u8; 1];
    for _ in 0..LETTERS {
        if reader.read(&mut byte)? == 0 || byte[0] == b'\n' {
            break;
        }
        push_byte(&mut answer, byte[0])?;
    }
    Ok(answer)
}

/// Appends a letter of ASCII, or a mark for a byte that is none.
fn push_byte(text: &mut String, byte: u8) -> Result<(), AllocError> {
    text.push(if byte.is_ascii() {
        char::from(byte)
    } else {
        '?'
    })
}
