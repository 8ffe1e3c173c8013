//! Macros and names in their tables.

/// The macro that stands in a table.
pub fn name_in(table: &[(u8, &'static str)], header: u8) -> Option<&'static str> {
    for (own, name) in table {
        if *own == header {
            return Some(*name);
        }
    }
    None
}

/// The first byte of the macro with this name in a table.
pub fn header_in(table: &[(u8, &'static str)], name: &str) -> Option<u8> {
    let row = table.iter().find(|row| row.1 == name)?;
    Some(row.0)
}

/// The number with this name in a table.
pub fn number_in(table: &[(u32, &'static str)], name: &str) -> Option<u32> {
    let row = table.iter().find(|row| row.1 == name)?;
    Some(row.0)
}
