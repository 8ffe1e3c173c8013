//! The lines of `#if` in a source, and which of the lines between them are read.
use crate::names::{Meaning, Names, is_whole_name};
use crate::number_list::number_of;
use crate::unknown::shortened;
use anyhow::{Result, bail, ensure};
use hid_given::Found;
use std::alloc::{AllocError, Global};
use std::fmt::Write;
use std::mem;

/// What may stand between two numbers, the longer before what is in them.
static SIGNS: [&str; 6] = ["==", "!=", "<=", ">=", "<", ">"];

/// How many `#if` may be open.
const MOST_OPEN: usize = 64;

/// An `#if` whose `#endif` hasn't come.
#[derive(Clone, Copy)]
struct Branch {
    /// Whether the lines are read.
    is_read: bool,
    /// Whether lines of it were read, or those around it aren't.
    is_done: bool,
    /// Whether its `#else` has come.
    is_last: bool,
}

/// Those of a source so far.
#[derive(Drop)]
pub struct Conditions {
    branches: Vec<Branch>,
    /// Which were met, for people.
    note: String,
}

impl Conditions {
    /// Before the first line.
    pub fn new(alloc: Global) -> Conditions {
        Conditions {
            branches: Vec::new(alloc),
            note: String::new(alloc),
        }
    }

    /// Whether lines are left out.
    pub fn leave_out(&self) -> bool {
        match self.branches.last() {
            Some(branch) => !branch.is_read,
            None => false,
        }
    }

    /// Takes a line behind its `#`, and answers whether it is one of an `#if`.
    pub fn take(&mut self, names: &Names, line: u64, directive: &str) -> Result<bool> {
        let (word, condition) = parts_of(directive);
        match word {
            "if" | "ifdef" | "ifndef" => self.begin(names, line, directive)?,
            "elif" | "else" => self.go_on(names, line, directive)?,
            "endif" => {
                ensure!(
                    condition.is_empty(),
                    "can't be judged: #{}",
                    shortened(directive)
                );
                ensure!(self.branches.pop().is_some(), "no #if stands before #endif");
            }
            _ => return Ok(false),
        }
        Ok(true)
    }

    /// Takes the first line of an `#if`.
    fn begin(&mut self, names: &Names, line: u64, directive: &str) -> Result<()> {
        ensure!(
            self.branches.len() < MOST_OPEN,
            "more than {MOST_OPEN} #if are open"
        );
        let is_inside = !self.leave_out();
        let is_read = is_inside && self.judged(names, line, directive)?;
        self.branches.push(Branch {
            is_read,
            is_done: is_read || !is_inside,
            is_last: false,
        })?;
        Ok(())
    }

    /// Takes a line that begins another branch.
    fn go_on(&mut self, names: &Names, line: u64, directive: &str) -> Result<()> {
        let Some(branch) = self.branches.pop() else {
            bail!("no #if stands before #{}", shortened(directive));
        };
        ensure!(
            !branch.is_last,
            "stands behind #else: #{}",
            shortened(directive)
        );
        let is_read = if branch.is_done {
            false
        } else {
            self.judged(names, line, directive)?
        };
        self.branches.push(Branch {
            is_read,
            is_done: branch.is_done || is_read,
            is_last: parts_of(directive).0 == "else",
        })?;
        Ok(())
    }

    /// Whether the lines behind a line are read, which the note tells.
    fn judged(&mut self, names: &Names, line: u64, directive: &str) -> Result<bool> {
        let Some(is_read) = holds(names, directive) else {
            bail!("can't be judged: #{}", shortened(directive));
        };
        self.tell(line, directive, is_read)?;
        Ok(is_read)
    }

    /// Appends to the note which lines are read.
    fn tell(&mut self, line: u64, directive: &str, is_read: bool) -> Result<(), AllocError> {
        let gap = if self.note.is_empty() { "" } else { "; " };
        let answer = if is_read { "taken" } else { "not taken" };
        let shown = shortened(directive);
        write!(self.note, "{gap}line {line}, #{shown}: {answer}")
    }

    /// Looks whether each has its end; tells which were taken.
    pub fn end(&mut self, found: &mut Found) -> Result<()> {
        ensure!(self.branches.is_empty(), "an #if has no #endif");
        if !self.note.is_empty() {
            let alloc = *self.note.allocator();
            found
                .notes
                .push(mem::replace(&mut self.note, String::new(alloc)))?;
        }
        Ok(())
    }
}

/// The first word of a directive, and what stands behind it.
pub fn parts_of(directive: &str) -> (&str, &str) {
    let text = directive.trim();
    match text.split_once(|letter: char| !letter.is_ascii_alphanumeric()) {
        Some((word, _rest)) => {
            let rest = text.strip_prefix(word).unwrap_or("");
            (word, rest.trim())
        }
        None => (text, ""),
    }
}

/// Whether a directive's condition holds; none where that can't be judged.
fn holds(names: &Names, directive: &str) -> Option<bool> {
    let (word, condition) = parts_of(directive);
    match word {
        "ifdef" => is_defined(names, condition),
        "ifndef" => Some(!is_defined(names, condition)?),
        "else" if condition.is_empty() => Some(true),
        "if" | "elif" => any_holds(names, condition),
        _ => None,
    }
}

/// Whether a name is defined; none where it is no name.
fn is_defined(names: &Names, name: &str) -> Option<bool> {
    if is_whole_name(name) {
        Some(names.is_defined(name))
    } else {
        None
    }
}

/// Whether one of the conditions between `||` holds.
fn any_holds(names: &Names, condition: &str) -> Option<bool> {
    let mut is_any = false;
    for part in condition.split("||") {
        is_any = all_hold(names, part)? || is_any;
    }
    Some(is_any)
}

/// Whether all of the conditions between `&&` hold.
fn all_hold(names: &Names, condition: &str) -> Option<bool> {
    let mut are_all = true;
    for part in condition.split("&&") {
        are_all = term_holds(names, part.trim())? && are_all;
    }
    Some(are_all)
}

/// Whether a condition holds that is `defined`, or numbers, with `!` before it or without.
fn term_holds(names: &Names, term: &str) -> Option<bool> {
    let plain = term.strip_prefix("!").unwrap_or(term).trim();
    let is_negated = plain.len() < term.len();
    if plain == "defined" || is_negated && SIGNS.iter().any(|sign| plain.contains(*sign)) {
        return None;
    }
    let holds = match plain.strip_prefix("defined") {
        Some(rest) if !is_whole_name(plain) => is_defined(names, named_in(rest)?)?,
        _ => numbers_hold(names, unwrapped(plain))?,
    };
    Some(holds != is_negated)
}

/// The name behind `defined`, in parentheses or without.
fn named_in(rest: &str) -> Option<&str> {
    let text = rest.trim();
    match text.strip_prefix("(") {
        Some(inner) => Some(inner.strip_suffix(")")?.trim()),
        None => Some(text),
    }
}

/// What stands in parentheses around the whole of a condition.
fn unwrapped(term: &str) -> &str {
    match term.strip_prefix("(").and_then(|it| it.strip_suffix(")")) {
        Some(inner) => inner.trim(),
        None => term,
    }
}

/// Whether two numbers are as the sign between them says, or a number alone isn't 0.
fn numbers_hold(names: &Names, term: &str) -> Option<bool> {
    for sign in &SIGNS {
        if let Some((left, right)) = term.split_once(*sign) {
            let left = number_in(names, left.trim())?;
            let right = number_in(names, right.trim())?;
            return Some(is_so(left, *sign, right));
        }
    }
    Some(number_in(names, term)? != 0)
}

/// Whether two numbers are as a sign says.
fn is_so(left: i64, sign: &str, right: i64) -> bool {
    match sign {
        "==" => left == right,
        "!=" => left != right,
        "<=" => left <= right,
        ">=" => left >= right,
        "<" => left < right,
        _ => left > right,
    }
}

/// The number of a name, or of digits: a name that nothing defines is 0, as in C.
fn number_in(names: &Names, word: &str) -> Option<i64> {
    if is_whole_name(word) {
        return match names.meaning(word) {
            Some(meaning) => match meaning {
                Meaning::Macro(number) => Some(number),
                Meaning::Text => None,
                Meaning::Constant(_) | Meaning::Unknown => Some(0),
            },
            None => Some(0),
        };
    }
    match number_of(word) {
        Ok(number) => number,
        Err(_wrong) => None,
    }
}
