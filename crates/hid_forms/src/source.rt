//! Arrays of C, Rust, Go, Java, C# and JavaScript, as `hid convert` writes them: a declaration with
//! a list of numbers or macros in braces or brackets, or strings of C, and remarks of C. Where no
//! declaration stands first, the elements of one alone.
use crate::c_strings::CStrings;
use crate::declaration::{
    begun_list, behind_call, check_type, is_braced, is_declaration, is_string, last_word, name_in,
    said_in,
};
use crate::directives::Directives;
use crate::enumeration::{Enumeration, begins_enumeration};
use crate::item_list::{ItemList, begins_as_element, begins_as_item};
use crate::remarks::Remarks;
use crate::unknown::shortened;
use anyhow::{Context, Result, bail, ensure};
use hid_given::{Found, Wanted};
use std::alloc::Global;

/// What the next line goes on with.
#[derive(Clone, Copy, PartialEq)]
enum Inside {
    /// Nothing: it begins something.
    Nothing,

    /// A declaration whose list is still to begin.
    Declaration,

    /// A list.
    List,

    /// Elements alone, which end with the input.
    Elements,

    /// Strings.
    Strings,

    /// An `enum`.
    Enumeration,
}

/// What reads arrays.
#[derive(Drop)]
pub struct SourceLines {
    wanted: Wanted,
    remarks: Remarks,
    directives: Directives,
    enumeration: Enumeration,
    inside: Inside,
    /// Whether the list stands in a call.
    is_in_call: bool,
    /// The name of the array, and how many bytes it says that it has.
    name: String,
    said: Option<usize>,
    items: ItemList,
    strings: CStrings,
    /// How many bytes the last array has.
    count: Option<usize>,
}

/// Whether a line is the first of an array, of what may stand before it, or of a remark.
pub fn is_source_line(line: &str) -> bool {
    let text = line.trim();
    if text.starts_with("/*")
        || begins_as_item(text)
        || begins_enumeration(text)
        || behind_call(text).is_some()
    {
        return true;
    }
    match line.split_once("=") {
        Some((declared, list)) => {
            begun_list(list).is_some()
                || is_declaration(declared, list)
                || is_string(declared, list)
                || is_braced(list)
        }
        None => false,
    }
}

impl SourceLines {
    /// Before the first line.
    pub fn new(alloc: Global, wanted: Wanted) -> SourceLines {
        SourceLines {
            wanted,
            remarks: Remarks::of_source(),
            directives: Directives::new(alloc),
            enumeration: Enumeration::new(alloc),
            inside: Inside::Nothing,
            is_in_call: false,
            name: String::new(alloc),
            said: None,
            items: ItemList::new(alloc),
            strings: CStrings::new(alloc),
            count: None,
        }
    }

    /// Takes names that are told from outside, some with their numbers.
    pub fn define(&mut self, words: &[&str]) -> Result<()> {
        for word in words {
            self.directives
                .define(*word)
                .context(format_args!("--define {word}"))?;
        }
        Ok(())
    }

    /// Takes what a line says.
    pub fn take(&mut self, found: &mut Found, line: &str) -> Result<()> {
        self.remarks.check_next(line)?;
        let mut code = String::new(*found.devices.allocator());
        self.remarks.add_code(&mut code, line)?;
        let code = code.as_str().trim();
        if self.directives.take(code)? || code.is_empty() {
            return Ok(());
        }
        match self.inside {
            Inside::Nothing => self.take_outside(found, code),
            Inside::Declaration => self.take_first(found, code),
            Inside::List | Inside::Elements => self.take_list(found, code),
            Inside::Strings => self.take_strings(found, code),
            Inside::Enumeration => self.take_enumeration(code),
        }
    }

    /// Takes a line that begins something.
    fn take_outside(&mut self, found: &mut Found, code: &str) -> Result<()> {
        let alloc = *found.devices.allocator();
        if let Some(directive) = code.strip_prefix("#") {
            return pass_directive(directive.trim());
        }
        if begins_enumeration(code) {
            self.enumeration = Enumeration::new(alloc);
            return self.take_enumeration(code);
        }
        let Some((declared, list)) = code.split_once("=") else {
            return self.take_bare(found, code);
        };
        if is_declaration(declared, list) {
            self.inside = Inside::Declaration;
            return self.begin(alloc, declared);
        }
        if begun_list(list).is_none() && !is_string(declared, list) && !is_braced(list) {
            return self.take_length(declared, list);
        }
        self.begin(alloc, declared)?;
        self.take_first(found, list)
    }

    /// Takes names of an `enum`.
    fn take_enumeration(&mut self, code: &str) -> Result<()> {
        let is_ended = self.enumeration.take(&mut self.directives.names, code)?;
        self.inside = if is_ended {
            Inside::Nothing
        } else {
            Inside::Enumeration
        };
        Ok(())
    }

    /// Takes the first elements of a list that no declaration stands before.
    fn take_bare(&mut self, found: &mut Found, code: &str) -> Result<()> {
        if behind_call(code).is_some() {
            self.name.clear();
            self.said = None;
            return self.take_first(found, code);
        }
        let list = code.strip_prefix("{").unwrap_or(code).trim();
        ensure!(
            self.count.is_none() && (list.is_empty() || begins_as_element(list)),
            "is no declaration of bytes: {}",
            shortened(code)
        );
        self.inside = Inside::Elements;
        self.take_list(found, list)
    }

    /// Takes the beginning of a list, or of strings.
    fn take_first(&mut self, found: &mut Found, code: &str) -> Result<()> {
        let code = code.trim();
        if code.starts_with("\"") {
            self.inside = Inside::Strings;
            return self.take_strings(found, code);
        }
        if is_braced(code) {
            let call = code.strip_suffix(";").unwrap_or(code);
            self.items.add(&self.directives.names, call)?;
            return self.take_array(found);
        }
        let Some(list) = begun_list(code) else {
            bail!("no list of bytes is behind =");
        };
        self.is_in_call = behind_call(code).is_some();
        self.inside = Inside::List;
        self.take_list(found, list)
    }

    /// Takes the name of an array, and the number of its bytes.
    fn begin(&mut self, alloc: Global, declared: &str) -> Result<()> {
        check_type(declared)?;
        self.name = String::from_str(alloc, name_in(declared))?;
        self.said = said_in(declared);
        Ok(())
    }

    /// Takes bytes of a list, and its end.
    fn take_list(&mut self, found: &mut Found, code: &str) -> Result<()> {
        let Some((list, behind)) = code.split_once(|letter: char| matches!(letter, '}' | ']'))
        else {
            return self.items.add(&self.directives.names, code);
        };
        self.items.add(&self.directives.names, list)?;
        let behind = behind.trim();
        let end = if self.is_in_call {
            behind.strip_prefix(")").unwrap_or("(").trim()
        } else {
            behind
        };
        ensure!(matches!(end, "" | ";"), "something stands behind the list");
        self.take_array(found)
    }

    /// Takes strings, and their end.
    fn take_strings(&mut self, found: &mut Found, code: &str) -> Result<()> {
        if self.strings.take(code)? {
            let bytes = self.strings.taken();
            return self.take_bytes(found, bytes);
        }
        Ok(())
    }

    /// Takes the number of the bytes of the last array, which `xxd -i` writes behind it.
    fn take_length(&mut self, declared: &str, number: &str) -> Result<()> {
        let name = last_word(declared);
        let own = name
            .strip_suffix("_len")
            .or_else(|| name.strip_suffix("_LEN"));
        let (Some(own), Some(count)) = (own, self.count) else {
            bail!("no list of bytes is behind =");
        };
        ensure!(own == self.name.as_str(), "no list of bytes is behind =");
        let number = number.trim().strip_suffix(";").unwrap_or(number);
        let Ok(said) = number.trim().parse::<usize>() else {
            bail!("{number} is no number of bytes");
        };
        ensure!(said == count, "says {said} bytes, and the list has {count}");
        Ok(())
    }

    /// Takes the list as an array.
    fn take_array(&mut self, found: &mut Found) -> Result<()> {
        let bytes = self.items.taken()?;
        self.take_bytes(found, bytes)
    }

    /// Takes an array as a descriptor or a report.
    fn take_bytes(&mut self, found: &mut Found, bytes: Vec<u8>) -> Result<()> {
        self.inside = Inside::Nothing;
        let got = bytes.len();
        self.count = Some(got);
        if let Some(said) = self.said {
            ensure!(got == said, "says {said} bytes, and has {got}");
        }
        found.add_list(self.wanted, self.name.as_str(), bytes)
    }

    /// Looks whether the last array is whole; elements alone are.
    pub fn end(&mut self, found: &mut Found) -> Result<()> {
        ensure!(!self.remarks.is_inside(), "a remark has no end");
        self.directives.end(found)?;
        match self.inside {
            Inside::Nothing => Ok(()),
            Inside::Elements => self.take_array(found),
            Inside::Declaration => bail!("no list of bytes is behind ="),
            Inside::List => bail!("the list of bytes has no end"),
            Inside::Strings => bail!("no ; stands behind the strings"),
            Inside::Enumeration => bail!("an enum has no end"),
        }
    }
}

/// Passes over a line before an array that changes none of its bytes: `#include`, `#pragma`, an
/// attribute of Rust as `#[rustfmt::skip]`.
fn pass_directive(directive: &str) -> Result<()> {
    let word = directive.split_whitespace().next().unwrap_or("");
    ensure!(
        directive.starts_with("[") || matches!(word, "include" | "pragma"),
        "#{word} may change what follows: leave it out, with what it is for"
    );
    Ok(())
}
