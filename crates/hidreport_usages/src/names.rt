//! How a row of a table of names is found, by its number or by its name.
ghost use Rattle.std.specs.Prelude.{◌≡◌, ◌<◌, ℕ, List, length, map, option_map, MatchOption, None};
ghost use Rattle.std.specs.Ordering.{is_lt};
ghost use Rattle.hidreport_usages.specs.Packed.{Rises};
ghost use Rattle.hidreport_usages.specs.Rows.{name_in, order, row_at, IsFirstNamed, IsNameOrder, IsPlaceOf, IsRank};

use std::cmp::Ordering;

/// A table of names, in the order of its numbers and in that of its names.
pub(crate) trait NameTable {
    ghost use Rattle.hidreport_usages.specs.Rows.{Row};

    /// The rows, in the order of their numbers.
    ghost rows: { List Row };

    /// The numbers.
    fn numbers() -> &'static [u32]
        ensures all { result.now ≡ map (λ row. row.0) rows }
        ensures rising { Rises result.now };

    /// The name at a place.
    fn name_at(place: usize) -> &'static str
        requires { place < length rows }
        ensures { result.now ≡ (row_at rows place).1 };

    /// The places in the order of names, those of one name in the order of numbers.
    fn places_by_name() -> &'static [u16]
        ensures { IsNameOrder rows result.now };
}

/// The name that a number has, if it has one.
pub(crate) fn name_of<T: NameTable>(number: u32) -> Option<&'static str>
    ensures { option_map (λ name. name.now) result ≡ name_in T.rows number }
{
    match place_of::<T>(number) {
        Some(place) => Some(T::name_at(place)),
        None => None,
    }
}

/// The first number from `from` on that has the name, or none where no such number has it.
pub(crate) fn first_named<T: NameTable>(name: &str, from: u32) -> Option<u32>
    ensures { IsFirstNamed (name_in T.rows) name.now from result }
{
    let places = T::places_by_name();
    let rank = rank_of::<T>(places, name, from);
    if rank == places.len() {
        return None;
    }
    let place = usize::from(places[rank]);
    if T::name_at(place) == name {
        Some(T::numbers()[place])
    } else {
        None
    }
}

/// The place of the row with a number, or none where no row has it.
fn place_of<T: NameTable>(number: u32) -> Option<usize>
    ensures { MatchOption result (name_in T.rows number ≡ None) (IsPlaceOf T.rows number) }
{
    T::numbers().binary_search(&number).ok()
}

/// How many rows stand before a row, by their names; it need not be in the table.
fn rank_of<T: NameTable>(places: &[u16], name: &str, number: u32) -> usize
    requires { IsNameOrder T.rows places.now }
    ensures { IsRank T.rows places.now (number, name.now) result }
{
    let mut low = 0;
    let mut high = places.len();
    while low < high {
        let middle = low + (high - low) / 2;
        if stands_before::<T>(usize::from(places[middle]), name, number) {
            low = middle + 1;
        } else {
            high = middle;
        }
    }
    low
}

/// Whether the row at a place stands before a row, by their names.
fn stands_before<T: NameTable>(place: usize, name: &str, number: u32) -> bool
    requires { place < length T.rows }
    ensures { result ≡ is_lt (order (row_at T.rows place) (number, name.now)) }
{
    match T::name_at(place).cmp(name) {
        Ordering::Less => true,
        Ordering::Equal => T::numbers()[place] < number,
        Ordering::Greater => false,
    }
}
