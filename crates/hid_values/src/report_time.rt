//! A report's number and its time, as `--times` shows them.
use hid_given::GivenReport;
use std::alloc::{AllocError, Global};
use std::fmt::Write;
use std::time::Duration;

/// Appends a report's time in seconds: the recorded one, or else since the stream was begun.
pub fn add_time(text: &mut String, report: &GivenReport, time: Duration) -> Result<(), AllocError> {
    match &report.time {
        Some(time) => text.push_str(time.as_str()),
        None => {
            let (seconds, micros) = (time.as_secs(), time.subsec_micros());
            write!(text, "{seconds:06}.{micros:06}")
        }
    }
}

/// The same time, as a text.
pub fn time_of(alloc: Global, report: &GivenReport, time: Duration) -> Result<String, AllocError> {
    let mut text = String::new(alloc);
    add_time(&mut text, report, time)?;
    Ok(text)
}

/// Appends a report's number and its time, with a space behind each; of a report that no stream
/// gives, the recorded time alone.
pub fn add_stamp(
    text: &mut String,
    number: u64,
    report: &GivenReport,
    time: Option<Duration>,
) -> Result<(), AllocError> {
    write!(text, "{number:>5} ")?;
    let Some(time) = time else {
        return add_recorded(text, report);
    };
    add_time(text, report, time)?;
    text.push_str(" ")
}

/// Appends the recorded time, where there is one.
fn add_recorded(text: &mut String, report: &GivenReport) -> Result<(), AllocError> {
    match &report.time {
        Some(time) => write!(text, "{time} "),
        None => Ok(()),
    }
}
