// Answers queries over a timetable.
use crate::timetable_file::TimetableFile;
use calendar::Calendar;
use connection::query::Query;
use connection::ride::{Ride, Shift};
use desk::asked::Asked;
use desk::input::{asked_if_any, next_line};
use desk::leg::leg_of;
use desk::question::Question;
use search::limits::MOST_RIDES;
use search::record::WorkRecord;
use search::search_in;
use search::timetable::Timetable;
use search::work_table::WorkTable;
use std::fmt;
use std::io::{self, BufReader, BufWriter, Write};
use tariff::Tariff;
use tariff::fares::{FareTotal, Fares};
use tariff::minutes::{MinuteTotal, Minutes};
use tariff::waits::{WaitTotal, Waits};

const UNUSED: Ride = Ride {
    train: 0,
    shift: Shift::SameDay,
    board: 0,
    alight: 0,
};

// The tables that searches work in, one for each tariff. A table grows to the longest that a query needs, and serves one
// query after another.
#[derive(Drop)]
struct WorkTables {
    minutes: WorkTable<MinuteTotal>,
    fares: WorkTable<FareTotal>,
    waits: WorkTable<WaitTotal>,
}

impl WorkTables {
    fn new(rt: &HostRuntime) -> WorkTables {
        WorkTables {
            minutes: WorkTable::new(Vec::new(rt.alloc())),
            fares: WorkTable::new(Vec::new(rt.alloc())),
            waits: WorkTable::new(Vec::new(rt.alloc())),
        }
    }
}

// The cheapest connection under the tariff, ride by ride, and what it costs; or why there is none.
fn write_found<P: Tariff, C: Calendar, W: Write>(
    rt: &HostRuntime,
    out: &mut W,
    timetable: &Timetable<C>,
    tariff: &P,
    query: Query,
    work: &mut WorkTable<P::Total>,
) -> anyhow::Result<()>
where
    P::Total: fmt::Display,
{
    let mut rides = [UNUSED; MOST_RIDES];
    let records = timetable.records_needed(&query);
    if work.len() < records {
        *work = WorkTable::new(vec![in rt.alloc(); WorkRecord::blank(); records]?);
    }
    match search_in(timetable, tariff, query, &mut rides, work) {
        Ok((total, count)) => {
            for ride in &rides[..count] {
                if let Some(leg) = leg_of(query.day, *ride, timetable.trains, timetable.stops) {
                    writeln!(out, "{leg}")?;
                }
            }
            writeln!(out, "  cost {total}, rides {count}")?;
        }
        Err(refusal) => {
            let number = refusal.number();
            writeln!(out, "  refused {number}: {refusal}")?;
        }
    }
    Ok(())
}

// The answer to the question, under the tariff that it asks for.
fn write_answer<C: Calendar, W: Write>(
    rt: &HostRuntime,
    out: &mut W,
    timetable: &Timetable<C>,
    question: Question,
    work: &mut WorkTables,
) -> anyhow::Result<()> {
    writeln!(out, "{question}")?;
    let Question { query, tariff } = question;
    match tariff {
        Asked::Minutes { penalty } => match Minutes::new(penalty) {
            Ok(tariff) => write_found(rt, out, timetable, &tariff, query, &mut work.minutes),
            Err(refusal) => {
                let number = refusal.number();
                writeln!(out, "  refused {number}: {refusal}")?;
                Ok(())
            }
        },
        Asked::Fares => write_found(rt, out, timetable, &Fares, query, &mut work.fares),
        Asked::Waits => write_found(rt, out, timetable, &Waits, query, &mut work.waits),
    }
}

// Answers each line of standard input as it is read, with an empty line behind each answer. Empty lines ask nothing.
pub fn answer_all<C: Calendar>(
    rt: &HostRuntime,
    file: &TimetableFile,
    calendar: &C,
) -> anyhow::Result<()> {
    let timetable = Timetable::new(&file.book, &file.trains, &file.stops, calendar);
    let mut work = WorkTables::new(rt);
    let mut out = BufWriter::new(rt.alloc(), io::writer(rt))?;
    let mut input = BufReader::new(rt.alloc(), rt.stdin())?;
    let mut line = Vec::new(rt.alloc());
    // an input of unknown length has to have an end; none has so many lines
    for number in 1..u64::MAX {
        if !next_line(&mut input, &mut line)? {
            break;
        }
        match asked_if_any(&line) {
            None => continue,
            Some(Ok(question)) => write_answer(rt, &mut out, &timetable, question, &mut work)?,
            Some(Err(expected)) => writeln!(out, "  LINE {number}: expected {expected}")?,
        }
        writeln!(out, "")?;
        // who asks line by line reads each answer ahead of the next question
        out.flush()?;
    }
    Ok(())
}
