// The commands that agents give: a timetable is checked or written back, or answers queries.
#![tactic(auto)]

mod calendars;
mod files;
mod queries;
mod timetable_file;
mod usage;

use desk::command::{Command, Misuse, command_of};
use std::env;
use std::process::ExitCode;
use timetable_file::TimetableFile;

// Prints how many trains and stops the timetable has, or its first fault.
fn check(rt: &HostRuntime, file: &str) -> anyhow::Result<ExitCode> {
    match TimetableFile::read(rt, file)? {
        Ok(timetable) => {
            let trains = timetable.book.trains();
            let stops = timetable.book.stops();
            println!(rt; "{trains} trains, {stops} stops")?;
            Ok(ExitCode::SUCCESS)
        }
        Err(found) => {
            println!(rt; "{file}:{found}")?;
            Ok(ExitCode::FAILURE)
        }
    }
}

// Prints the timetable as the text that it was read from.
fn print(rt: &HostRuntime, file: &str) -> anyhow::Result<ExitCode> {
    match TimetableFile::read(rt, file)? {
        Ok(timetable) => {
            timetable.print(rt)?;
            Ok(ExitCode::SUCCESS)
        }
        Err(found) => {
            eprintln!(rt; "{file}:{found}")?;
            Ok(ExitCode::FAILURE)
        }
    }
}

// Answers the queries of standard input over the timetable.
fn search(
    rt: &HostRuntime,
    file: &str,
    dates: Option<&str>,
    exceptions: Option<&str>,
) -> anyhow::Result<ExitCode> {
    match TimetableFile::read(rt, file)? {
        Ok(timetable) => {
            calendars::answer_queries(rt, &timetable, dates, exceptions)?;
            Ok(ExitCode::SUCCESS)
        }
        Err(found) => {
            eprintln!(rt; "{file}:{found}")?;
            Ok(ExitCode::FAILURE)
        }
    }
}

fn misused(rt: &HostRuntime, misuse: Misuse<&str>) -> anyhow::Result<ExitCode> {
    eprintln!(rt; "pazhenool: {misuse}; `pazhenool --help` tells how to use it")?;
    Ok(ExitCode::from(2))
}

fn run(rt: &HostRuntime) -> anyhow::Result<ExitCode> {
    let mut words = Vec::new(rt.alloc());
    for word in env::args(rt)?.skip(1) {
        words.push(word)?;
    }
    match command_of(&words) {
        Ok(Command::Help) => {
            usage::print(rt)?;
            Ok(ExitCode::SUCCESS)
        }
        Ok(Command::Check { file }) => check(rt, file),
        Ok(Command::Print { file }) => print(rt, file),
        Ok(
            Command::Search {
                file,
                dates,
                exceptions,
            },
        ) => search(rt, file, dates, exceptions),
        Err(misuse) => misused(rt, misuse),
    }
}

// Does what the command line asks, and gives the status with which the program ends.
pub fn serve(rt: &HostRuntime) -> ExitCode {
    match run(rt) {
        Ok(code) => code,
        Err(error) => {
            // where even this cannot be printed, the status still tells
            let _ = eprintln!(rt; "pazhenool: {error}");
            ExitCode::FAILURE
        }
    }
}
