//! The names of a report's members, each of which stands once.
use std::alloc::{AllocError, Global};
use std::collections::BTreeMap;
use std::fmt::Write;

/// The names that members want, and who has had one.
#[derive(Drop)]
pub struct MemberNames {
    alloc: Global,
    /// Of each name the number of the last member that wanted it; 0 before the first.
    numbers: BTreeMap<String, usize>,
}

impl MemberNames {
    /// Those of members that want these names.
    pub fn of(alloc: Global, wanted: &[String]) -> Result<MemberNames, AllocError> {
        let mut numbers = BTreeMap::new(alloc);
        for name in wanted {
            numbers.entry(name.clone()?)?.or_insert(0);
        }
        Ok(MemberNames { alloc, numbers })
    }

    /// The name of the next member that wants this one: the first has it, those behind it with a
    /// number that makes it no other's. (No name of the tables is a keyword: checks/hid/structs.py.)
    pub fn next(&mut self, wanted: &str) -> Result<String, AllocError> {
        let number = self.next_number(wanted)?;
        if let Some(last) = self.numbers.get_mut(wanted) {
            *last = number;
        }
        self.numbered(wanted, number)
    }

    /// The number of the next member that wants a name: with it that is none that another wants.
    fn next_number(&self, wanted: &str) -> Result<usize, AllocError> {
        let last = match self.numbers.get(wanted) {
            Some(last) => *last,
            None => 0,
        };
        let next = last.saturating_add(1);
        if next == 1 {
            return Ok(next);
        }
        for number in next..next.saturating_add(self.numbers.len()) {
            let name = self.numbered(wanted, number)?;
            if !self.numbers.contains_key(name.as_str()) {
                return Ok(number);
            }
        }
        Ok(next)
    }

    /// A name with a number behind it, but for the first.
    fn numbered(&self, wanted: &str, number: usize) -> Result<String, AllocError> {
        let mut name = String::from_str(self.alloc, wanted)?;
        if number != 1 {
            write!(name, "_{number}")?;
        }
        Ok(name)
    }
}
