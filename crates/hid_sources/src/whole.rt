//! A whole input, in the form that is named or the one that it has.
use anyhow::{Context, Error, Result, anyhow, ensure};
use hid_captures::{is_capture, read_capture};
use hid_forms::{FormLines, Remarks, form_of, is_blank, likest, without_markdown};
use hid_given::{Form, Found, Given, GivenReport, Wanted};
use hid_webhid::is_webhid;
use std::alloc::Global;

/// What the bytes of an input say, in a source with these names. Bytes that are all text are read
/// as text unless `form` says bytes.
pub fn given_of(
    alloc: Global,
    bytes: Vec<u8>,
    form: Option<Form>,
    wanted: Wanted,
    names: &[&str],
) -> Result<Given> {
    if form == Some(Form::Bytes) {
        return plain(alloc, bytes, wanted);
    }
    if form == Some(Form::Usbmon) || form.is_none() && is_capture(&bytes) {
        return captured(alloc, &bytes, wanted);
    }
    let Some(text) = text_of(&bytes) else {
        ensure!(form.is_none(), "isn't text");
        check_bytes(&bytes)?;
        return plain(alloc, bytes, wanted);
    };
    match without_markdown(alloc, text)? {
        Some(plain) => read(alloc, plain.as_str(), form, wanted, names),
        None => read(alloc, text, form, wanted, names),
    }
}

/// What a text says, in the form that is named or the one that it has.
fn read(
    alloc: Global,
    text: &str,
    form: Option<Form>,
    wanted: Wanted,
    names: &[&str],
) -> Result<Given> {
    let form = match form {
        Some(form) => form,
        None if is_webhid(text) => Form::WebHid,
        None => guessed(alloc, text)?,
    };
    said(alloc, text, form, wanted, names)
}

/// What the lines of a text say in a form.
fn said(alloc: Global, text: &str, form: Form, wanted: Wanted, names: &[&str]) -> Result<Given> {
    let mut found = Found::new(alloc);
    if let Some(mut lines) = FormLines::new(alloc, form, wanted) {
        take_lines(&mut lines, &mut found, names, text)?;
    }
    Ok(found.given(form))
}

/// Takes the lines of a text, where these names are defined, and their end.
fn take_lines(lines: &mut FormLines, found: &mut Found, names: &[&str], text: &str) -> Result<()> {
    lines.define(names)?;
    for (number, line) in (1u64..).zip(text.lines()) {
        lines
            .take(found, line)
            .context(format_args!("line {number}"))?;
    }
    lines.end(found)
}

/// What the packets of a capture say.
fn captured(alloc: Global, bytes: &[u8], wanted: Wanted) -> Result<Given> {
    let mut found = Found::new(alloc);
    read_capture(alloc, &mut found, wanted, bytes)?;
    Ok(found.given(Form::Usbmon))
}

/// Bytes as they are.
fn plain(alloc: Global, bytes: Vec<u8>, wanted: Wanted) -> Result<Given> {
    let mut found = Found::new(alloc);
    if wanted == Wanted::Descriptors {
        found.add_descriptor(0, bytes)?;
    } else if !bytes.is_empty() {
        found.add_report(GivenReport::new(bytes))?;
    }
    Ok(found.given(Form::Bytes))
}

/// The text that bytes are, without the mark that may stand before it; none where they aren't all
/// text.
pub fn text_of(bytes: &[u8]) -> Option<&str> {
    let Ok(text) = str::from_utf8(bytes) else {
        return None;
    };
    let text = text.strip_prefix("\u{feff}").unwrap_or(text);
    if is_text(text) { Some(text) } else { None }
}

/// Of how many bytes one at least is no character of a text, where they aren't text.
const OF_BYTES_ONE_ODD: usize = 5;

/// Refuses bytes that may be text: in UTF-16, with few that are none, or all text but for what
/// programs put beside it, an escape of colours and the end of a file of DOS.
fn check_bytes(bytes: &[u8]) -> Result<()> {
    ensure!(
        !matches!(bytes, [0xff, 0xfe, _, 0, ..] | [0xfe, 0xff, 0, _, ..]),
        "is text in UTF-16, and is read in UTF-8; or as --form or --report-form bytes"
    );
    let is_spoilt = match str::from_utf8(bytes) {
        Ok(text) => is_spoilt(text),
        Err(_other) => false,
    };
    ensure!(
        !is_spoilt,
        "is text with control characters, and is read without; or as --form or --report-form bytes"
    );
    let count = bytes.len();
    let odd = bytes.iter().filter(|byte| !is_letter(**byte)).count();
    let first = bytes.iter().position(|byte| !is_letter(*byte)).unwrap_or(0);
    ensure!(
        odd.saturating_mul(OF_BYTES_ONE_ODD) >= count,
        "is text but for {odd} of {count} bytes, the first at offset {first}; or as --form or \
         --report-form bytes"
    );
    Ok(())
}

/// Whether a byte is a character of a text in ASCII.
fn is_letter(byte: u8) -> bool {
    matches!(byte, b'\t' | b'\n' | b'\r' | b' '..=b'~')
}

/// Whether a text is one but for escapes and ends of files.
fn is_spoilt(text: &str) -> bool {
    text.chars().all(|letter| {
        matches!(letter, '\t' | '\n' | '\r' | '\u{1a}' | '\u{1b}') || !letter.is_control()
    })
}

/// Whether all characters can be seen, or are spaces and ends of lines.
fn is_text(text: &str) -> bool {
    text.chars().all(|letter| matches!(letter, '\t' | '\n' | '\r') || !letter.is_control())
}

/// The form of a text, by its first two lines that say something, and are no rest of a line of `#`;
/// where none does it is hex text.
fn guessed(alloc: Global, text: &str) -> Result<Form> {
    let mut first = None;
    let mut remarks = Remarks::of_hex_text();
    let mut goes_on = false;
    for (number, line) in (1u64..).zip(text.lines()) {
        let is_rest = goes_on;
        goes_on = (is_rest || line.trim_start().starts_with("#")) && line.ends_with("\\");
        if is_rest || is_blank(line) || first.is_none() && is_remark(alloc, &mut remarks, line)? {
            continue;
        }
        match first {
            Some((number, first)) => return form_of_lines(number, first, line),
            None => first = Some((number, line)),
        }
    }
    match first {
        Some((number, first)) => form_of_lines(number, first, ""),
        None => Ok(Form::Hex),
    }
}

/// Whether a line is in a remark that may go on over lines, or has nothing beside it.
fn is_remark(alloc: Global, remarks: &mut Remarks, line: &str) -> Result<bool> {
    let mut code = String::new(alloc);
    remarks.add_code(&mut code, line)?;
    Ok(is_blank(code.as_str()))
}

/// The form of a text whose first lines that say something are these; the second may be empty.
pub fn form_of_lines(number: u64, line: &str, next: &str) -> Result<Form> {
    match form_of(line, next).context(format_args!("line {number}"))? {
        Some(form) => Ok(form),
        None => Err(unread(number, line.trim())),
    }
}

/// What is said of a line that no form has.
fn unread(number: u64, line: &str) -> Error {
    match likest(line) {
        Some(form) => anyhow!(
            "line {number}: looks like {form} (as bytes: --form or --report-form bytes): {line}"
        ),
        None => anyhow!(
            "line {number}: like no form (as bytes: --form or --report-form bytes): {line}"
        ),
    }
}
