// Exceptions to any calendar: up to 64 pairs with a word of their own, and the calendar below for every other pair.
ghost use Rattle.std.specs.Prelude.{◌≤◌};
ghost use Rattle.calendar.specs.Limits.{most_exceptions};

pub mod layer;
mod list;

// How many exceptions there is room for.
const ROOM: usize = 64;

// Whether the code runs on the day, whatever the calendar below says.
#[derive(Clone, Copy, Default)]
struct Exception {
    code: u8,
    day: u16,
    runs: bool,
}

// The first `count` records are listed, and the others mean nothing.
#[derive(Drop)]
struct Listed {
    records: [Exception; ROOM],
    count: usize,
}

#[derive(Drop)]
pub struct Exceptions<C> {
    listed: Listed,
    below: C,

    // The list knows no bound of its count, so that its records can be lent out with nothing to show when they come back.
    ghost few: { listed.count ≤ most_exceptions },
}
