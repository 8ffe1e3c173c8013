//! What JSON doesn't tell of an item, and how it is written then.
use crate::report_item::ReportItem;
use crate::units::RESERVED;

/// What JSON doesn't tell.
#[derive(Clone, Copy, PartialEq)]
pub enum Doubt {
    /// Which reserved system a unit has.
    System,

    /// How a power of ten was written that is no nibble.
    Exponent,

    /// Whether single usages stood before a range, or behind it.
    Order,

    /// In how many bytes a maximum stood that is below its minimum.
    Bounds,

    /// Which of several items that are alike a collection has.
    Place,
}

impl Doubt {
    /// What is said of it.
    pub fn text(self) -> &'static str {
        match self {
            Doubt::System => "which reserved system its unit has isn't told: written as 5",
            Doubt::Exponent => "its unitExponent is no nibble: written in two bytes",
            Doubt::Order =>
                "whether its usages stood before its range isn't told: written before it",
            Doubt::Bounds => {
                "a maximum is below its minimum, in how many bytes isn't told: written as wide as \
                 reportSize"
            }
            Doubt::Place => "more than one item could be that of a child: the first is taken",
        }
    }

    /// Whether an item has it.
    pub fn is_of(self, item: &ReportItem) -> bool {
        match self {
            Doubt::System => item.unit() & 15 == RESERVED,
            Doubt::Exponent => item.exponent() > 0xff,
            Doubt::Order => !item.usages.is_empty() && !item.bounds.is_empty(),
            Doubt::Bounds => !item.is_constant() && item.has_low_maximum(),
            Doubt::Place => false,
        }
    }
}

/// What may be of an item.
pub static OF_ITEMS: [Doubt; 4] = [Doubt::System, Doubt::Exponent, Doubt::Order, Doubt::Bounds];
