// The search: the cheapest connection of a query, and if it says that there is none, there is none.
//
//     let timetable = Timetable::new(&book, &trains, &stops, &Weekly);      // for many searches
//     let found = search(&timetable, &Fares, query, &mut rides, &mut work);
//     // Ok((total, 2)): `rides` begins with the two rides of a cheapest connection
//     // Err(Refusal::NoConnection): there is no connection
//
// It works in what it is lent and allocates nothing, hence a list of rides with their number, and a table of plain records.
// `search_in` does the same in a table that is blank between searches, and so need not be looked over at each (`work_table`).
// The timetable is made once: its rows are looked over there, and not at each search.
//
// An `inquiry` is a query that can be asked, over rows that hold a book, under a tariff. It is answered by layers of labels,
// one layer for each number of changes; a label is the cheapest total with which one can be on board a run at a stop.
// `layers` fills them run by run (`reaching`, `riding`, `boarding`), chains them by station for the next layer (`arriving`,
// `chains`) and keeps the cheapest label at the destination (`ends`); a label that costs as much as that one is not
// followed. `trail` reads the rides back, and `notes` knows which records are to be blanked.
#![tactic(auto)]

ghost use Rattle.std.specs.Prelude.{◌≡◌, true, length};
ghost use Rattle.search.specs.Answers.{Answers, KeepsGuarantee, OnlyReads, rides_left, work_left};
ghost use Rattle.search.specs.Layers.{BlankFrom};
ghost use Rattle.search.specs.Refusals.{search_refusal};

mod arriving;
mod asking;
mod boarding;
mod by_shift;
mod chains;
mod cheapest;
mod choosing;
pub mod edges;
mod ends;
mod inquiry;
mod judging;
mod layer;
mod layers;
pub mod limits;
mod minutes;
mod notes;
mod reached;
mod reaching;
pub mod record;
pub mod refusal;
mod riding;
mod run;
mod table;
pub mod timetable;
mod trail;
pub mod work_table;

use book::histories::every_history_holds;
use calendar::Calendar;
use cheapest::blank_all;
use connection::query::Query;
use connection::ride::Ride;
use inquiry::Inquiry;
use judging::judge;
use record::WorkRecord;
use refusal::Refusal;
use tariff::Tariff;
use timetable::Timetable;
use work_table::WorkTable;

// Looks for the cheapest connection of the query in the timetable, under any tariff and any calendar. It answers the total
// and the number of rides, which stand at the front of `rides`, each train named by its row from 0.
//
// Refused under 1 where the timetable's tables do not hold what its book says, 13 where the query cannot be asked, 14 where
// it starts at its destination, 15 where `rides` is shorter than the change limit and one more, 16 where `work` has fewer
// than three records for each stop in use and each of these rides, and 17 where there is no connection. A refusal leaves
// `rides` as it was, and each but 17 leaves `work` as it was; after a result and after 17 every record is blank.
pub fn search<P: Tariff, C: Calendar>(
    timetable: &Timetable<C>,
    tariff: &P,
    query: Query,
    rides: &mut [Ride],
    work: &mut [WorkRecord<P::Total>],
) -> Result<(P::Total, usize), Refusal>
    ensures answer { Answers timetable.now (P.Tariff.meaning tariff.now) (C.Calendar.runs timetable.now.calendar.now) query (length rides.old) (length work.old) result rides.new }
    ensures rides { rides.new ≡ rides_left result rides.old rides.new }
    ensures work { work.new ≡ work_left (search_refusal timetable.now query (length rides.old) (length work.old)) work.old }
    ensures guarantee { KeepsGuarantee timetable.now (P.Tariff.meaning tariff.now) (C.Calendar.runs timetable.now.calendar.now) query (length rides.old) (length work.old) result rides.new }
    ensures history { OnlyReads timetable.now }
{
    search_over(timetable, tariff, query, rides, work, false)
}

// The same in a work table that is blank, and stays so.
pub fn search_in<P: Tariff, C: Calendar>(
    timetable: &Timetable<C>,
    tariff: &P,
    query: Query,
    rides: &mut [Ride],
    work: &mut WorkTable<P::Total>,
) -> Result<(P::Total, usize), Refusal>
    ensures answer { Answers timetable.now (P.Tariff.meaning tariff.now) (C.Calendar.runs timetable.now.calendar.now) query (length rides.old) (length work.old.records.items) result rides.new }
    ensures rides { rides.new ≡ rides_left result rides.old rides.new }
    ensures work { work.new.records.items ≡ work.old.records.items }
    ensures guarantee { KeepsGuarantee timetable.now (P.Tariff.meaning tariff.now) (C.Calendar.runs timetable.now.calendar.now) query (length rides.old) (length work.old.records.items) result rides.new }
    ensures history { OnlyReads timetable.now }
{
    search_over(timetable, tariff, query, rides, &mut work.records, true)
}

// As `search`, in a table of which it may be known that it is blank.
fn search_over<P: Tariff, C: Calendar>(
    timetable: &Timetable<C>,
    tariff: &P,
    query: Query,
    rides: &mut [Ride],
    work: &mut [WorkRecord<P::Total>],
    is_blank: bool,
) -> Result<(P::Total, usize), Refusal>
    requires blank { is_blank ≡ true → BlankFrom 0 work.old }
    ensures answer { Answers timetable.now (P.Tariff.meaning tariff.now) (C.Calendar.runs timetable.now.calendar.now) query (length rides.old) (length work.old) result rides.new }
    ensures rides { rides.new ≡ rides_left result rides.old rides.new }
    ensures work { work.new ≡ work_left (search_refusal timetable.now query (length rides.old) (length work.old)) work.old }
    ensures guarantee { KeepsGuarantee timetable.now (P.Tariff.meaning tariff.now) (C.Calendar.runs timetable.now.calendar.now) query (length rides.old) (length work.old) result rides.new }
    ensures history { OnlyReads timetable.now }
{
    // rows that pass the check keep the rules, and after every history they hold the trains in force
    every_history_holds();
    timetable.checked?;
    let trains = &timetable.trains[0..timetable.book.trains() as usize];
    let stops = &timetable.stops[0..timetable.book.stops() as usize];
    judge(&query, stops.len(), rides.len(), work.len())?;
    let inquiry = Inquiry {
        tariff,
        query: &query,
        trains,
        stops,
    };
    if !is_blank {
        blank_all(work);
    }
    inquiry.cheapest(timetable.calendar, rides, work)
}
