//! The nodes of a device's input devices, as Linux tells of them in sysfs.
use anyhow::{Context, Result};
use std::rt::Files;
use std::{fs, io};

/// The nodes of the input devices of the device in a folder, in order.
pub fn input_nodes<R: AllocGlobal + Files + Clone + Drop>(
    rt: &R,
    folder: &str,
) -> Result<Vec<String>> {
    let folder = format!(in rt.alloc(); "{folder}/input")?;
    let mut nodes = Vec::new(rt.alloc());
    for device in names_in(rt, folder.as_str())? {
        let path = format!(in rt.alloc(); "{folder}/{device}")?;
        for name in names_in(rt, path.as_str())? {
            if name.as_str().starts_with("event") {
                nodes.push(name)?;
            }
        }
    }
    nodes.sort_by_key(|node| number_of(node))?;
    Ok(nodes)
}

/// The number of an event node, behind all others where it has none.
fn number_of(node: &String) -> usize {
    let digits = node.as_str().strip_prefix("event").unwrap_or("");
    digits.parse::<usize>().unwrap_or(usize::MAX)
}

/// The names in a folder; none where there is no such folder.
fn names_in<R: AllocGlobal + Files + Clone + Drop>(rt: &R, folder: &str) -> Result<Vec<String>> {
    let mut names = Vec::new(rt.alloc());
    let entries = match fs::read_dir(rt, folder) {
        Ok(entries) => entries,
        Err(error) if error.kind() == io::ErrorKind::NotFound => return Ok(names),
        Err(error) => return Err(error).context(format_args!("{folder}")),
    };
    for entry in entries {
        let entry = entry?;
        names.push(String::from_str(rt.alloc(), entry.file_name())?)?;
    }
    Ok(names)
}
