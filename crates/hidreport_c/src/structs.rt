//! The structs of the header, in its order: all that C is handed, as plain numbers.

/// How a descriptor is read (`struct hidreport_options`).
#[repr(C)]
#[derive(Clone, Copy)]
pub struct HidreportOptions {
    /// The most that may be listed, as `ReportDescriptor::try_from_with` counts; with a limit a
    /// descriptor has at most 65,536 bytes. The greatest size is no limit, of bytes neither.
    pub limit: usize,
    /// What a Push keeps for its Pop (Section 6.2.2.7): 0 global and local items, 1 global items
    /// alone. Another number is refused with 6.
    pub push: u32,
    /// By which rule usages are found (Section 6.2.2.8): 0 by the letter of the standard, 1 as
    /// hosts read them. Another number is refused with 6.
    pub usages: u32,
}

/// How many there are, or why there are none (`struct hidreport_answer`).
#[repr(C)]
#[derive(Clone, Copy)]
pub struct HidreportAnswer {
    /// How many there are, whether there was room for them or not; 0 where they are refused.
    pub count: usize,
    /// Where the refused item stands: the bytes before it; 0 for a refusal without an offset.
    pub offset: usize,
    /// 0, or the number of the refusal.
    pub status: u32,
}

/// The usages of a field (`struct hidreport_usages`): page and id as one number, the page in the
/// upper 16 bits.
#[repr(C)]
#[derive(Clone, Copy)]
pub struct HidreportUsages {
    /// How many there are: one of a variable field, none of padding.
    pub count: usize,
    /// The first, 0 where there is none.
    pub first: u32,
    /// The last, 0 where there is none.
    pub last: u32,
    /// Whether a minimum and a maximum gave them.
    pub is_range: bool,
}

/// The bounds and the unit of a field (`struct hidreport_measures`). A number whose flag is off is
/// 0.
#[repr(C)]
#[derive(Clone, Copy)]
pub struct HidreportMeasures {
    /// The least value; values are signed where it is below 0.
    pub logical_minimum: i32,
    /// The greatest value.
    pub logical_maximum: i32,
    /// What the least value stands for.
    pub physical_minimum: i32,
    /// What the greatest value stands for.
    pub physical_maximum: i32,
    /// The unit of the physical bounds.
    pub unit: u32,
    /// The power of ten of the unit.
    pub unit_exponent: i32,
    /// Whether there is a physical minimum.
    pub has_physical_minimum: bool,
    /// Whether there is a physical maximum.
    pub has_physical_maximum: bool,
    /// Whether there is a unit.
    pub has_unit: bool,
    /// Whether there is an exponent.
    pub has_unit_exponent: bool,
}

/// The collections that a field lies in (`struct hidreport_collections`).
#[repr(C)]
#[derive(Clone, Copy)]
pub struct HidreportCollections {
    /// How many there are; padding lies in none.
    pub count: usize,
    /// The number of the innermost one, 0 where there is none.
    pub innermost: u32,
}

/// The flags of a field's item (`struct hidreport_flags`), all off for padding.
#[repr(C)]
#[derive(Clone, Copy)]
pub struct HidreportFlags {
    /// A value is a change since the last report.
    pub is_relative: bool,
    /// A value past one bound goes on at the other.
    pub wraps: bool,
    /// Values aren't linear in what was measured.
    pub is_nonlinear: bool,
    /// The control doesn't come back to a state when it is let go.
    pub has_no_preferred_state: bool,
    /// The control has a state in which it sends no meaningful data.
    pub has_null_state: bool,
    /// The field is a stream of bytes.
    pub is_buffered_bytes: bool,
    /// The device may change the value without the host; off in an input report.
    pub is_volatile: bool,
}

/// A field as C has it (`struct hidreport_field`): all its parts are plain numbers.
#[repr(C)]
#[derive(Clone, Copy)]
pub struct HidreportField {
    /// The field's number in the descriptor.
    pub number: u32,
    /// 0 a variable field, 1 an array, 2 padding.
    pub kind: u32,
    /// The first of the field's bits in its report.
    pub first_bit: usize,
    /// The bit behind the last.
    pub end_bit: usize,
    /// How many values it has: 1, those of an array, or none of padding.
    pub value_count: usize,
    /// Its usages.
    pub usages: HidreportUsages,
    /// Its bounds and its unit.
    pub measures: HidreportMeasures,
    /// The collections that it lies in.
    pub collections: HidreportCollections,
    /// The flags of its item.
    pub flags: HidreportFlags,
    /// Whether only a report that begins with `report_id` is read.
    pub has_report_id: bool,
    /// That id, 0 where there is none.
    pub report_id: u8,
}

/// The fields that one main item makes, side by side (`struct hidreport_group`).
#[repr(C)]
#[derive(Clone, Copy)]
pub struct HidreportGroup {
    /// 0 variable fields, 1 an array, 2 padding.
    pub kind: u32,
    /// The first of their bits in their report.
    pub first_bit: usize,
    /// How many bits an element has.
    pub element_width: usize,
    /// How many elements there are.
    pub element_count: usize,
    /// How many fields: each element of variable fields is one, and else all are.
    pub field_count: usize,
    /// The usage of the first field, its page in the upper 16 bits; 0 where there is none.
    pub usage: u32,
    /// Their bounds and their unit.
    pub measures: HidreportMeasures,
    /// The collections that they lie in.
    pub collections: HidreportCollections,
    /// The flags of the item.
    pub flags: HidreportFlags,
    /// Whether their report begins with `report_id`.
    pub has_report_id: bool,
    /// That id, 0 where there is none.
    pub report_id: u8,
}

/// Values of fields side by side in a report, all of one width and sign (`struct hidreport_run`).
#[repr(C)]
#[derive(Clone, Copy)]
pub struct HidreportRun {
    /// The first of their bits in their report.
    pub first_bit: usize,
    /// How many bits a value has.
    pub element_width: usize,
    /// How many values there are.
    pub value_count: usize,
    /// Whether values can be below 0.
    pub is_signed: bool,
    /// Whether only a report that begins with `report_id` is read.
    pub has_report_id: bool,
    /// That id, 0 where there is none.
    pub report_id: u8,
}

/// A report of a direction as C has it (`struct hidreport_report`).
#[repr(C)]
#[derive(Clone, Copy)]
pub struct HidreportReport {
    /// Its length in bits, the byte of its id counted.
    pub size_in_bits: usize,
    /// The same in bytes, rounded up: what a buffer for it has to hold.
    pub size_in_bytes: usize,
    /// How many fields it has, padding counted.
    pub field_count: usize,
    /// Whether it begins with an id.
    pub has_id: bool,
    /// That id, 0 where there is none.
    pub id: u8,
}

/// A collection that a field lies in (`struct hidreport_collection`).
#[repr(C)]
#[derive(Clone, Copy)]
pub struct HidreportCollection {
    /// Its number, counted over the descriptor.
    pub number: u32,
    /// The number of its kind (Section 6.2.2.6): 0 physical, 1 application, 2 logical and so on.
    pub kind: u32,
    /// How many usages it has, mostly one.
    pub usage_count: usize,
    /// The first of them, its page in the upper 16 bits; 0 where there is none.
    pub usage: u32,
}

/// A value of a field, or why there is none (`struct hidreport_value`).
#[repr(C)]
#[derive(Clone, Copy)]
pub struct HidreportValue {
    /// The number, 0 where it is refused.
    pub number: i64,
    /// 0, or the number of the refusal.
    pub status: u32,
}

/// The usage that a value stands for (`struct hidreport_usage`).
#[repr(C)]
#[derive(Clone, Copy)]
pub struct HidreportUsage {
    /// The usage, its page in the upper 16 bits; 0 where the value stands for none.
    pub usage: u32,
    /// Whether the value stands for one.
    pub is_meant: bool,
}

/// A usage page (`struct hidreport_page`).
#[repr(C)]
#[derive(Clone, Copy)]
pub struct HidreportPage {
    /// Its number, 0 where there is none.
    pub page: u16,
    /// Whether there is one.
    pub is_there: bool,
}

/// A value of an array, if there is one (`struct hidreport_choice`).
#[repr(C)]
#[derive(Clone, Copy)]
pub struct HidreportChoice {
    /// The value; 0 where there is none.
    pub value: i64,
    /// Whether there is one.
    pub is_there: bool,
}

/// A number that isn't whole, exactly, if there is one (`struct hidreport_fraction`).
#[repr(C)]
#[derive(Clone, Copy)]
pub struct HidreportFraction {
    /// The number above the line; 0 where there is none.
    pub numerator: i64,
    /// The number below it, which is above 0; 0 where there is none.
    pub denominator: i64,
    /// Whether there is one.
    pub is_there: bool,
}

/// Whether two descriptors are alike, or why one of them isn't read (`struct hidreport_likeness`).
#[repr(C)]
#[derive(Clone, Copy)]
pub struct HidreportLikeness {
    /// Where the refused item stands: the bytes before it; 0 for a refusal without an offset.
    pub offset: usize,
    /// 0, or the number of the refusal.
    pub status: u32,
    /// Whether it is of the other descriptor; off where the first is refused.
    pub is_of_other: bool,
    /// Whether they are alike; off where one is refused.
    pub is_alike: bool,
}

/// Where an item of a descriptor stands, and how many bytes it has (`struct hidreport_item`).
#[repr(C)]
#[derive(Clone, Copy)]
pub struct HidreportItem {
    /// The bytes before it.
    pub offset: usize,
    /// Its own bytes, the header among them.
    pub size: usize,
}

/// A place of a descriptor where something else stands after its repair (`struct
/// hidreport_change`).
#[repr(C)]
#[derive(Clone, Copy)]
pub struct HidreportChange {
    /// The bytes of the descriptor before it.
    pub offset: usize,
    /// How many bytes stood there, an item and all of it.
    pub stood: usize,
    /// How many stand there now, an item, or none where it was left out.
    pub stands: usize,
    /// Why: 0 an item that needs a data byte had none, 1 a main item of an unknown tag is left out,
    /// 2 so is a local item of one, 3 a data item without a usage is padding, 4 a maximum was meant
    /// unsigned, 5 an item was cut short.
    pub reason: u32,
}
