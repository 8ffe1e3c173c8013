//! Report descriptors, their fields in groups, each with the place of its item.
ghost use Rattle.std.specs.Prelude.{◌≡◌, [], IfOk};
ghost use Rattle.hidreport_lists.specs.Answer.{AnswersBy};
ghost use Rattle.hidreport.specs.ItemPlaces.{place_of, places_in};
ghost use Rattle.hidreport.specs.Outline.{outline_as};

use crate::outline::Outline;
use crate::parse_options::ParseOptions;
use crate::parser::{Beside, Walked, walk};
use crate::report::group::Group;
use crate::report::item_place::{GroupPlace, ItemPlace};
use hidreport_lists::ParserError;
use std::alloc::Global;
use std::marker::Model;

/// An outline, and where the items stand that make its groups (Section 6.2.2).
#[derive(Drop)]
pub struct PlacedOutline {
    outline: Outline,
    places: Vec<GroupPlace>,
}

impl Model for PlacedOutline {
    ghost use Rattle.hidreport.specs.ItemPlaces.{Ascend, PlacedRecord};

    ghost Value = { PlacedRecord };

    ghost view = { λ p. record { outline = p.outline; places = p.places.items } };

    ghost invariant = { λ p. Ascend 0 p.places.items };
}

impl PlacedOutline {
    /// One without reports; takes no memory.
    pub fn empty(alloc: Global) -> PlacedOutline
        ensures { result ≡ record {
          outline = record { input = []; output = []; feature = [] };
          places = [];
        } }
    {
        PlacedOutline {
            outline: Outline::empty(alloc),
            places: Vec::new(alloc),
        }
    }

    /// Parses the bytes of a report descriptor by options, as `Outline::try_from_with` does, and keeps
    /// where the item of each group stands.
    ///
    /// # Errors
    ///
    /// - What `Outline::try_from_with` refuses.
    ///
    /// # Examples
    ///
    /// ```rust
    /// use hidreport::{ParseOptions, PlacedOutline};
    ///
    /// let bytes = b"\x05\x01\x15\x81\x25\x7f\x75\x08\x95\x02\x09\x30\x09\x31\x81\x02";
    /// let placed = PlacedOutline::try_from_with(alloc, bytes, ParseOptions::bounded())?;
    /// let report = placed.outline().input_reports().first().ok_or("no report")?;
    /// let group = report.groups().first().ok_or("no group")?;
    /// let place = placed.item(group).ok_or("no item")?;
    /// assert_eq!(rt; (place.index, place.offset), (7, 14));
    /// ```
    pub fn try_from_with(
        alloc: Global,
        bytes: &[u8],
        options: ParseOptions,
    ) -> Result<PlacedOutline, ParserError>
        ensures exact { AnswersBy (λ placed. placed.outline) result (outline_as options bytes.now) }
        ensures places { IfOk result (λ placed. placed.places ≡ places_in options bytes.now) }
    {
        if let Some(offset) = options.past_longest(bytes.len()) {
            return Err(ParserError::BudgetExceeded { offset });
        }
        let beside = Beside {
            lists_fields: false,
            keeps_places: true,
        };
        let Walked { reports, places } = walk(alloc, bytes, options, beside)?;
        let outline = Outline::of(reports);
        Ok(PlacedOutline { outline, places })
    }

    /// The outline.
    pub fn outline(&self) -> &Outline
        ensures { result.now ≡ self.now.outline }
    {
        &self.outline
    }

    /// Where the item stands that makes a group of the outline.
    ///
    /// The group is known by the number of its first field; it is `None` where no group has that.
    pub fn item(&self, group: &Group) -> Option<ItemPlace>
        ensures { result ≡ place_of self.now.places group.now.beginning.number }
    {
        let number = group.first_number();
        let found = self
            .places
            .binary_search_by_key(&number, |place| place.number);
        match found {
            Ok(index) => Some(self.places[index].place),
            Err(_) => None,
        }
    }
}
