// The calendar by which a search asks whether a train runs.
use crate::timetable_file::TimetableFile;
use crate::{files, queries};
use anyhow::anyhow;
use calendar::Calendar;
use calendar::dated::{DateRow, Dated};
use calendar::exceptions::Exceptions;
use calendar::weekly::Weekly;
use desk::report::{RowFault, Wrong};
use desk::rows::{date_row, exception_row};

// The line with this number is wrong.
fn wrong(file: &str, line: usize, wrong: Wrong) -> anyhow::Error {
    let fault = RowFault { line, wrong };
    anyhow!("{file}:{fault}")
}

// The rows of a file of dates. Empty lines say nothing, here and below.
fn date_rows(rt: &HostRuntime, file: &str) -> anyhow::Result<Vec<DateRow>> {
    let text = files::read(rt, file)?;
    let mut rows = Vec::new(rt.alloc());
    for (index, line) in text.split(|byte| *byte == b'\n').enumerate() {
        if line.is_empty() {
            continue;
        }
        let row = date_row(line).map_err(|expected| wrong(
            file,
            index + 1,
            Wrong::Unread(expected),
        ))?;
        Dated::new(&[row]).map_err(|refusal| wrong(file, index + 1, Wrong::Refused(refusal)))?;
        rows.push(row)?;
    }
    Ok(rows)
}

// The calendar below with the exceptions of a file.
fn with_exceptions<C: Calendar + Drop>(
    rt: &HostRuntime,
    below: C,
    file: &str,
) -> anyhow::Result<Exceptions<C>> {
    let text = files::read(rt, file)?;
    let mut calendar = Exceptions::new(below);
    for (index, line) in text.split(|byte| *byte == b'\n').enumerate() {
        if line.is_empty() {
            continue;
        }
        let row = exception_row(line).map_err(|expected| wrong(
            file,
            index + 1,
            Wrong::Unread(expected),
        ))?;
        calendar
            .note(row.code, row.day, row.runs)
            .map_err(|refusal| wrong(file, index + 1, Wrong::Refused(refusal)))?;
    }
    Ok(calendar)
}

// Answers the queries by this calendar, with the exceptions of a file if there is one.
fn answer_by<C: Calendar + Drop>(
    rt: &HostRuntime,
    timetable: &TimetableFile,
    calendar: C,
    exceptions: Option<&str>,
) -> anyhow::Result<()> {
    match exceptions {
        Some(file) => {
            let calendar = with_exceptions(rt, calendar, file)?;
            queries::answer_all(rt, timetable, &calendar)
        }
        None => queries::answer_all(rt, timetable, &calendar),
    }
}

// Answers the queries of standard input, by the dates of a file or else by weekdays.
pub fn answer_queries(
    rt: &HostRuntime,
    timetable: &TimetableFile,
    dates: Option<&str>,
    exceptions: Option<&str>,
) -> anyhow::Result<()> {
    match dates {
        Some(file) => {
            let rows = date_rows(rt, file)?;
            let calendar = Dated::new(&rows)?;
            answer_by(rt, timetable, calendar, exceptions)
        }
        None => answer_by(rt, timetable, Weekly, exceptions),
    }
}
