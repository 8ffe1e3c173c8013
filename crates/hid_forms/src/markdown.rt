//! Text as it stands in mails and pages of Markdown: behind `>` in each line, and between fences.
use anyhow::{Context, Result, ensure};
use std::alloc::Global;

/// What begins a fence.
const FENCE: &str = "```";

/// What is around a text's lines.
#[derive(Clone, Copy)]
struct Around {
    /// Whether each line has a `>`.
    is_quoted: bool,
    /// Whether what counts stands between fences, and whether a fence is open.
    has_fences: bool,
    is_open: bool,
}

/// A text without the `>` before its lines and without its fences, in as many lines; none where it
/// has neither.
///
/// # Errors
///
/// - a line of a quoted text has no `>`;
/// - a line stands outside of the fences, or the last has no end.
pub fn without_markdown(alloc: Global, text: &str) -> Result<Option<String>> {
    let first = text.lines().find(|line| !line.trim().is_empty());
    let Some(mut around) = first.and_then(around_of) else {
        return Ok(None);
    };
    let mut plain = String::new(alloc);
    for (number, line) in (1u64..).zip(text.lines()) {
        around
            .add(&mut plain, line)
            .context(format_args!("line {number}"))?;
    }
    ensure!(!around.is_open, "the last {FENCE} has no end");
    Ok(Some(plain))
}

/// What is around the lines of a text with this first line; none where nothing is.
fn around_of(first: &str) -> Option<Around> {
    let inner = behind_mark(first);
    let has_fences = inner.unwrap_or(first).trim().starts_with(FENCE);
    if inner.is_none() && !has_fences {
        return None;
    }
    Some(Around {
        is_quoted: inner.is_some(),
        has_fences,
        is_open: false,
    })
}

/// What stands behind the `>` of a line, and behind a space that follows it.
fn behind_mark(line: &str) -> Option<&str> {
    let inner = line.trim_start().strip_prefix(">")?;
    Some(inner.strip_prefix(" ").unwrap_or(inner))
}

impl Around {
    /// Appends the next line without what is around it.
    fn add(&mut self, plain: &mut String, line: &str) -> Result<()> {
        let inner = if self.is_quoted {
            behind_mark(line)
        } else {
            Some(line)
        };
        ensure!(
            inner.is_some() || line.trim().is_empty(),
            "has no > as the lines before it"
        );
        let inner = inner.unwrap_or("");
        if self.has_fences && inner.trim().starts_with(FENCE) {
            self.is_open = !self.is_open;
        } else if self.is_open || !self.has_fences {
            plain.push_str(inner)?;
        } else {
            ensure!(inner.trim().is_empty(), "stands outside of the {FENCE}");
        }
        Ok(plain.push('\n')?)
    }
}
