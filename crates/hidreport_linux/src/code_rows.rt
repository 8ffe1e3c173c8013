//! The usages that have one code wherever they lie.
ghost use Rattle.std.specs.Prelude.{◌≡◌};
ghost use Rattle.hidreport_linux.specs.Rows.{row_in, wanted_in};

use crate::code_table::CODE_ROWS;
use crate::event_code::{EventCode, EventType};
use crate::wanted::{Role, Wanted};

/// A usage with its code.
#[derive(Clone, Copy)]
pub(crate) struct CodeRow {
    /// The usage's number, with the page in the upper half.
    pub(crate) usage: u32,

    /// The type of the code.
    pub(crate) event_type: EventType,

    /// The number of the code.
    pub(crate) number: u16,

    /// Whether several usages may have it.
    pub(crate) is_shared: bool,
}

/// What a usage asks for by the table, if it is there.
pub(crate) fn listed(usage: u32) -> Option<Wanted>
    ensures { result ≡ wanted_in CODE_ROWS usage }
{
    match row_in(&CODE_ROWS, usage) {
        Some(row) => Some(Wanted {
            code: EventCode {
                event_type: row.event_type,
                number: row.number,
            },
            is_shared: row.is_shared,
            role: Role::Plain,
        }),
        None => None,
    }
}

/// The row of a usage, if there is one.
fn row_in(rows: &[CodeRow], usage: u32) -> Option<CodeRow>
    ensures { result ≡ row_in rows.now usage }
{
    for row in rows {
        if row.usage == usage {
            return Some(*row);
        }
    }
    None
}
