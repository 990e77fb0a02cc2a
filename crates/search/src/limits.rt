// The numbers that bound a query and the tables that a search works in.
ghost use Rattle.std.specs.Prelude.{◌≡◌, ◌^◌, ◌<◌};
ghost use Rattle.search.specs.Limits.{layer_size, records_needed};

use book::limits::{LAST_STATION, MOST_STOPS};
use connection::query::Query;

// The minute before midnight, the last that a query may be for.
pub const LAST_MINUTE_OF_DAY: u16 = 1439;

// How many changes a query may allow.
pub const MOST_CHANGES: u8 = 15;

// How many rides a connection may have at the most.
pub const MOST_RIDES: usize = MOST_CHANGES as usize + 1;

// How many stations there are.
pub(crate) const STATIONS: usize = LAST_STATION as usize + 1;

// The most records of a layer: three runs of each train, at each of its stops.
pub(crate) const MOST_PLACES: usize = 3 * MOST_STOPS as usize;

// How many records are one block, and how many blocks are in the longest table that is used.
pub(crate) const BLOCK: usize = 64;

pub(crate) const BLOCKS: usize = MOST_PLACES * MOST_RIDES / BLOCK;

// How many records a layer has over so many stops in use.
pub(crate) fn layer_size(stops: usize) -> usize
    requires few { stops < 2 ^ 16 }
    ensures { result ≡ layer_size stops }
{
    3 * stops
}

// How many records the query needs over so many stops in use.
pub(crate) fn records_needed(query: &Query, stops: usize) -> usize
    requires few { stops < 2 ^ 16 }
    ensures { result ≡ records_needed stops query.now }
{
    layer_size(stops) * query.most_rides()
}
