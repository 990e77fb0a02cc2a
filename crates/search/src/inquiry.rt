// What is looked for, and over what.
ghost use Rattle.std.proofs.Props.{props};
ghost use Rattle.std.specs.List.{AllByRecursion-prop};
ghost use Rattle.book.specs.Trains.{Train, trains_in};
ghost use Rattle.connection.specs.Whole.{KeepTheRules};
ghost use Rattle.search.specs.Rows.{Askable, InOrder, Timely};

use book::rows::{StopRow, TrainRow};
use connection::query::Query;

// A query that can be asked, over rows that hold a book, under a tariff.
#[derive(Drop)]
pub struct Inquiry<'a, P> {
    pub tariff: &'a P,
    pub query: &'a Query,
    pub trains: &'a [TrainRow],
    pub stops: &'a [StopRow],
    ghost askable: { Askable query.now },
    ghost ordered: { InOrder trains.now stops.now },
    ghost lawful: { KeepTheRules (trains_in trains.now stops.now) } by { AllByRecursion-prop _ (λ (t : Train). Prim.hlevel props) _ },
    ghost timely: { Timely stops.now },
}
