//! The lines that show the fields of a report: the collections that open, and the fields in them.
use crate::alike_fields::AlikeFields;
use crate::line_style::LineStyle;
use hid_words::{Colour, add_collection, add_depth_within, add_spaces};
use hidreport::{Collection, Field, RDescReport, Report};
use std::alloc::{AllocError, Global};
use std::ops::Range;

/// A line of a report's fields.
#[derive(Clone, Copy)]
pub enum FieldLine<'a> {
    /// A collection that opens inside so many.
    Opens(usize, &'a Collection),

    /// Fields inside so many collections; padding lies in those of the field before it.
    Fields(usize, AlikeFields<'a>),
}

impl<'a> FieldLine<'a> {
    /// How many collections stay open before it.
    pub fn depth(self) -> usize {
        match self {
            FieldLine::Opens(depth, _) | FieldLine::Fields(depth, _) => depth,
        }
    }

    /// The bits of its fields.
    pub fn bits(self) -> Option<Range<usize>> {
        match self {
            FieldLine::Opens(..) => None,
            FieldLine::Fields(_, fields) => Some(fields.bits()),
        }
    }

    /// Whether another line is the same but for the bits of its fields.
    pub fn is_like(self, other: FieldLine) -> bool {
        match (self, other) {
            (FieldLine::Opens(depth, one), FieldLine::Opens(other_depth, other)) => {
                depth == other_depth && are_collections_alike(one, other)
            }
            (FieldLine::Fields(depth, fields), FieldLine::Fields(other_depth, others)) => {
                depth == other_depth && fields.are_like(others)
            }
            _ => false,
        }
    }

    /// Appends the line, with its end; in colour a collection, and padding.
    pub fn add(self, text: &mut String, style: LineStyle) -> Result<(), AllocError> {
        let is_coloured = style.is_coloured;
        match self {
            FieldLine::Opens(depth, collection) => {
                add_depth_within(text, depth.saturating_add(1), style.deepest)?;
                Colour::Cyan.begin(text, is_coloured)?;
                add_collection(text, collection)?;
                Colour::end(text, is_coloured)?;
            }
            FieldLine::Fields(depth, fields) => {
                let is_faint = is_coloured && matches!(fields.first, Field::Constant(_));
                let indent = style.indent_in(depth);
                add_spaces(text, indent)?;
                Colour::Faint.begin(text, is_faint)?;
                fields.add(text, indent)?;
                Colour::end(text, is_faint)?;
            }
        }
        text.push_str("\n")
    }
}

/// The lines of a report's fields: one for fields side by side that are alike, unless each is to
/// have its own.
pub fn field_lines<'a>(
    alloc: Global,
    report: &'a RDescReport,
    has_each: bool,
) -> Result<Vec<FieldLine<'a>>, AllocError> {
    let mut lines = Vec::new(alloc);
    let mut open: &[Collection] = &[];
    let mut run: Option<AlikeFields> = None;
    for field in report.fields() {
        if !has_each && let Some(longer) = run.and_then(|run| run.with(field)) {
            run = Some(longer);
            continue;
        }
        if let Some(run) = run {
            open = push_lines(&mut lines, open, run)?;
        }
        run = Some(AlikeFields::of(field));
    }
    if let Some(run) = run {
        push_lines(&mut lines, open, run)?;
    }
    Ok(lines)
}

/// Appends the line of fields behind those of the collections that open before them, and answers
/// which are open then.
fn push_lines<'a>(
    lines: &mut Vec<FieldLine<'a>>,
    open: &'a [Collection],
    run: AlikeFields<'a>,
) -> Result<&'a [Collection], AllocError> {
    let around = around(open, run.first);
    let shared = Collection::shared(open, around);
    for (depth, collection) in around.iter().enumerate().skip(shared) {
        lines.push(FieldLine::Opens(depth, collection))?;
    }
    lines.push(FieldLine::Fields(around.len(), run))?;
    Ok(around)
}

/// The collections around a field: padding lies in those of the field before it.
pub fn around<'a>(open: &'a [Collection], field: &'a Field) -> &'a [Collection] {
    match field {
        Field::Constant(_) => open,
        _ => field.collections(),
    }
}

/// Whether two collections are shown alike: of one kind and with the same usages.
pub fn are_collections_alike(one: &Collection, other: &Collection) -> bool {
    one.collection_type() == other.collection_type() && one.usages() == other.usages()
}
