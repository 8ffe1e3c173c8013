//! A block of lines that stands several times in a report, and is shown once.
use crate::field_line::FieldLine;
use crate::line_style::LineStyle;
use hid_words::{add_bits, add_spaces};
use std::alloc::AllocError;
use std::fmt::Write;
use std::ops::Range;

/// The most lines of a block.
const LONGEST: usize = 64;

/// How many lines at least a line has to stand for.
const FEWEST: usize = 4;

/// Lines, and how often they stand once more behind themselves.
#[derive(Clone, Copy)]
pub struct Block {
    length: usize,
    again: usize,
}

impl Block {
    /// A line alone.
    pub fn line() -> Block {
        Block {
            length: 1,
            again: 0,
        }
    }

    /// The block at the head of these lines that stands for the most, or the first line alone.
    pub fn at(lines: &[FieldLine]) -> Block {
        let mut best = Block::line();
        let mut most = FEWEST.saturating_sub(1);
        for length in 1..=LONGEST {
            let again = count_of(lines, length);
            let folded = length.saturating_mul(again);
            if most < folded {
                most = folded;
                best = Block { length, again };
            }
        }
        best
    }

    /// How many lines it stands for.
    pub fn len(self) -> usize {
        self.length.saturating_mul(self.again.saturating_add(1))
    }

    /// Appends the block that these lines begin with, and a line for those that it stands for.
    pub fn add(
        self,
        text: &mut String,
        lines: &[FieldLine],
        style: LineStyle,
    ) -> Result<(), AllocError> {
        for line in lines.iter().take(self.length) {
            line.add(text, style)?;
        }
        if self.again == 0 {
            return Ok(());
        }
        self.add_again(text, lines.get(..self.length).unwrap_or(lines), style)
    }

    /// Appends the line for those left out: their bits, which fields they are, and how far each of
    /// them lies behind the one before.
    fn add_again(
        self,
        text: &mut String,
        block: &[FieldLine],
        style: LineStyle,
    ) -> Result<(), AllocError> {
        let Some(bits) = bits_of(block) else {
            return Ok(());
        };
        let far = bits.len();
        let end = bits.end.saturating_add(far.saturating_mul(self.again));
        let depth = block.first().map_or(0, |line| line.depth());
        add_spaces(text, style.indent_in(depth))?;
        add_bits(text, bits.end, end)?;
        add_which(text, block)?;
        match self.again {
            1 => writeln!(text, " once more, {far} bits further"),
            again => writeln!(text, " {again} more times, each {far} bits further"),
        }
    }
}

/// Appends which fields a block has.
fn add_which(text: &mut String, block: &[FieldLine]) -> Result<(), AllocError> {
    let (mut fields, mut collections) = (0usize, 0usize);
    for line in block {
        match line {
            FieldLine::Opens(..) => collections = collections.saturating_add(1),
            FieldLine::Fields(_, run) => fields = fields.saturating_add(run.count()),
        }
    }
    let owner = if fields == 1 { "its" } else { "their" };
    match fields {
        1 => text.push_str("the field above")?,
        _ => write!(text, "the {fields} fields above")?,
    }
    match collections {
        0 => Ok(()),
        1 => write!(text, " with {owner} collection"),
        _ => write!(text, " with {owner} collections"),
    }
}

/// The bits of a block's fields, from the first one's to the last one's.
fn bits_of(block: &[FieldLine]) -> Option<Range<usize>> {
    let start = block.iter().find_map(|line| line.bits())?.start;
    let end = block.last()?.bits()?.end;
    Some(start..end)
}

/// How often the first lines, so many, stand once more right behind themselves: equal but for where
/// their bits lie, with fields at their end, inside collections that stay open.
fn count_of(lines: &[FieldLine], length: usize) -> usize {
    let Some((block, rest)) = lines.split_at_checked(length) else {
        return 0;
    };
    let (Some(first), Some(again)) = (block.first(), rest.first()) else {
        return 0;
    };
    if !first.is_like(*again) {
        return 0;
    }
    let depth = first.depth();
    if bits_of(block).is_none() || block.iter().any(|line| line.depth() < depth) {
        return 0;
    }
    let mut count = 0usize;
    for next in rest.chunks(length) {
        if !is_again(block, next) {
            return count;
        }
        count = count.saturating_add(1);
    }
    count
}

/// Whether lines are those of a block, but for where their bits lie.
fn is_again(block: &[FieldLine], next: &[FieldLine]) -> bool {
    block.len() == next.len()
        && block
            .iter()
            .zip(next.iter())
            .all(|(line, again)| line.is_like(*again))
}
