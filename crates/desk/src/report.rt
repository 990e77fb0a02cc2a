// What is shown of a question and of its answer.
ghost use Rattle.std.specs.Prelude.{◌≡◌, Some};
ghost use Rattle.desk.specs.Reports.{clock_text, way_text, question_text, leg_text, fault_text, wrong_text, row_fault_text};

use crate::expected::Expected;
use crate::question::Question;
use calendar::date::Date;
use calendar::refusal::Refusal;
use connection::query::Query;
use std::fmt;
use text::fault::Fault;

// Minutes from midnight, as hours and minutes.
#[derive(Clone, Copy, PartialEq, Eq, Debug)]
pub struct Time(pub u16);

// From where to where, and from when on.
#[derive(Clone, Copy)]
struct Way(Query);

// A ride as a traveller sees it: the train and the day on which it sets out, and where and when one boards and alights,
// by the timetable's own times.
#[derive(Clone, Copy, PartialEq, Eq, Debug)]
pub struct Leg {
    pub train: u16,
    pub day: u16,
    pub from: u16,
    pub leaves: u16,
    pub to: u16,
    pub arrives: u16,
}

// A fault in a text, as LINE:COLUMN and why.
#[derive(Clone, Copy, PartialEq, Eq, Debug)]
pub struct Found(pub Fault);

// What is wrong with a line of a calendar's file.
#[derive(Clone, Copy, PartialEq, Eq, Debug)]
pub enum Wrong {
    // it cannot be read
    Unread(Expected),
    // the calendar refuses it
    Refused(Refusal),
}

// Where a calendar's file is wrong, as LINE and why.
#[derive(Clone, Copy, PartialEq, Eq, Debug)]
pub struct RowFault {
    pub line: usize,
    pub wrong: Wrong,
}

impl fmt::Display for Time {
    ghost output = { λ t. Some (clock_text t.0) };

    fn fmt<W: fmt::Write>(&self, f: &mut fmt::Formatter<W>) -> fmt::Result {
        let hours = self.0 / 60;
        let minutes = self.0 % 60;
        write!(
            f,
            "{}{}:{}{}",
            hours / 10,
            hours % 10,
            minutes / 10,
            minutes % 10
        )
    }
}

impl fmt::Display for Way {
    ghost output = { λ w. Some (way_text w.0) };

    fn fmt<W: fmt::Write>(&self, f: &mut fmt::Formatter<W>) -> fmt::Result {
        let origin = self.0.origin;
        let destination = self.0.destination;
        let date = Date::of(self.0.day);
        let time = Time(self.0.minute);
        write!(f, "{origin} -> {destination} on {date} from {time}")
    }
}

impl fmt::Display for Question {
    ghost output = { λ q. Some (question_text q) };

    fn fmt<W: fmt::Write>(&self, f: &mut fmt::Formatter<W>) -> fmt::Result {
        let way = Way(self.query);
        let changes = self.query.changes;
        let features = self.query.features;
        let tariff = self.tariff;
        write!(f, "{way}, changes {changes}, features {features}, {tariff}")
    }
}

impl fmt::Display for Leg {
    ghost output = { λ l. Some (leg_text l) };

    fn fmt<W: fmt::Write>(&self, f: &mut fmt::Formatter<W>) -> fmt::Result {
        let Leg {
            train,
            from,
            to,
            ..
        } = *self;
        let date = Date::of(self.day);
        let leaves = Time(self.leaves);
        let arrives = Time(self.arrives);
        write!(
            f,
            "  train {train} of {date}: {from} at {leaves} -> {to} at {arrives}"
        )
    }
}

impl fmt::Display for Found {
    ghost output = { λ x. Some (fault_text x.0) };

    fn fmt<W: fmt::Write>(&self, f: &mut fmt::Formatter<W>) -> fmt::Result {
        let Fault {
            cause,
            line,
            column,
        } = self.0;
        let number = cause.number();
        write!(f, "{line}:{column}: refused {number}: {cause}")
    }
}

impl fmt::Display for Wrong {
    ghost output = { λ w. Some (wrong_text w) };

    fn fmt<W: fmt::Write>(&self, f: &mut fmt::Formatter<W>) -> fmt::Result {
        match self {
            Wrong::Unread(expected) => write!(f, "expected {expected}"),
            Wrong::Refused(refusal) => {
                let number = refusal.number();
                write!(f, "refused {number}: {refusal}")
            }
        }
    }
}

impl fmt::Display for RowFault {
    ghost output = { λ r. Some (row_fault_text r) };

    fn fmt<W: fmt::Write>(&self, f: &mut fmt::Formatter<W>) -> fmt::Result {
        let line = self.line;
        let wrong = self.wrong;
        write!(f, "{line}: {wrong}")
    }
}
