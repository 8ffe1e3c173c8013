//! Where a usage lies.
ghost use Rattle.std.specs.Prelude.{◌≡◌, ◌==◌, if◌then◌else◌};
ghost use Rattle.hidreport.specs.Spelling.{kind_number};
ghost use Rattle.hidreport_linux.specs.Places.{has_macros, innermost, is_of_macros, usage_of};

use hidreport::{Direction, FieldAttributes, Group, GroupCollection};

/// What hid-input asks of an item's usages beside their numbers.
///
/// Usages of collections are numbers with the page in the upper half; 0 is none.
#[derive(Clone, Copy, Debug, PartialEq, Eq)]
pub struct Place {
    /// Which way the report goes.
    pub direction: Direction,

    /// Whether the item is constant.
    pub is_constant: bool,

    /// Whether values are changes.
    pub is_relative: bool,

    /// Whether each element has one bit.
    pub is_bit: bool,

    /// The usage of the innermost collection that is an application.
    pub application: u32,

    /// The usage of the innermost collection that is physical.
    pub physical: u32,

    /// The usage of the innermost collection that is logical.
    pub logical: u32,

    /// Whether the innermost collection is a named array of programmable buttons.
    pub has_macros: bool,
}

impl Place {
    ghost use Rattle.std.specs.Prelude.{◌≡◌};
    ghost use Rattle.hidreport_linux.specs.Places.{place_of};

    /// That of the usages of an item.
    pub fn of(direction: Direction, group: &Group) -> Place
        ensures { result ≡ place_of direction group.now }
    {
        Place {
            direction,
            is_constant: group.is_constant(),
            is_relative: group.is_relative(),
            is_bit: group.element_width() == 1,
            application: innermost(group, APPLICATION),
            physical: innermost(group, PHYSICAL),
            logical: innermost(group, LOGICAL),
            has_macros: has_macros(group),
        }
    }
}

/// The numbers of the kinds of collections.
const PHYSICAL: u8 = 0;

const APPLICATION: u8 = 1;

const LOGICAL: u8 = 2;

const NAMED_ARRAY: u8 = 4;

/// The usage of a named array of programmable buttons.
const PROGRAMMABLE_BUTTONS: u32 = 0x000c_0003;

/// The usage of the innermost collection of a kind, 0 where there is none.
fn innermost(group: &Group, kind: u8) -> u32
    ensures { result ≡ innermost kind group.now.shared.collections }
{
    let mut found = 0;
    for index in 0..group.collection_count() {
        if let Some(collection) = group.collection(index) {
            found = usage_or(found, &collection, kind);
        }
    }
    found
}

/// The usage of a collection of a kind, else what was found before.
fn usage_or(before: u32, collection: &GroupCollection, kind: u8) -> u32
    ensures { result ≡ (if kind_number collection.now.kind == kind
        then usage_of collection.now else before) }
{
    if kind_of(collection) == kind {
        usage_of(collection)
    } else {
        before
    }
}

/// The number of a collection's kind.
fn kind_of(collection: &GroupCollection) -> u8
    ensures { result ≡ kind_number collection.now.kind }
{
    u8::from(&collection.collection_type())
}

/// The first usage of a collection, 0 where there is none.
fn usage_of(collection: &GroupCollection) -> u32
    ensures { result ≡ usage_of collection.now }
{
    match collection.usage(0) {
        Some(usage) => u32::from(usage),
        None => 0,
    }
}

/// Whether the innermost collection is a named array of programmable buttons.
fn has_macros(group: &Group) -> bool
    ensures { result ≡ has_macros group.now.shared.collections }
{
    match group.collection(group.collection_count().saturating_sub(1)) {
        Some(collection) => is_of_macros(&collection),
        None => false,
    }
}

/// Whether a collection is a named array of programmable buttons.
fn is_of_macros(collection: &GroupCollection) -> bool
    ensures { result ≡ is_of_macros collection.now }
{
    kind_of(collection) == NAMED_ARRAY && usage_of(collection) == PROGRAMMABLE_BUTTONS
}
