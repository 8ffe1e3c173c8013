//! Members of objects by name; a refusal has the name.
use anyhow::{Result, bail, ensure};
use serde_json::Value;

/// The whole number that a member is, between these.
pub fn number_of(object: &Value, name: &str, least: i64, most: i64) -> Result<i64> {
    let Some(value) = object.get(name) else {
        bail!("{name} is missing");
    };
    number_in(value, name, least, most)
}

/// The whole number that a value is, between these.
pub fn number_in(value: &Value, name: &str, least: i64, most: i64) -> Result<i64> {
    let Some(number) = value.as_i64() else {
        bail!("{name} is no whole number");
    };
    ensure!(
        (least..=most).contains(&number),
        "{name} is {number}, and not {least} to {most}"
    );
    Ok(number)
}

/// Whether a member is true.
pub fn flag_of(object: &Value, name: &str) -> Result<bool> {
    match object.get(name) {
        Some(Value::Bool(flag)) => Ok(*flag),
        Some(_other) => bail!("{name} is neither true nor false"),
        None => bail!("{name} is missing"),
    }
}

/// Refuses a value that isn't an object, and a member that is none of these.
pub fn check_members(object: &Value, names: &[&str]) -> Result<()> {
    let Value::Object(members) = object else {
        bail!("is no object");
    };
    for (name, _value) in members.iter() {
        let name = name.as_str();
        ensure!(
            names.iter().any(|own| *own == name),
            "{name} is no member that is known"
        );
    }
    Ok(())
}

/// Refuses an object whose member isn't a list.
pub fn check_list(object: &Value, name: &str) -> Result<()> {
    match object.get(name) {
        Some(Value::Array(_)) => Ok(()),
        Some(_other) => bail!("{name} is no list"),
        None => bail!("{name} is missing"),
    }
}
