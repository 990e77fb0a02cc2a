// Rows that are taken out of a table: those after them move forward.
ghost use Rattle.std.specs.Prelude.{◌≡◌, ℕ, ◌+◌, ◌<◌, ◌≤◌, length, map};
ghost use Rattle.book.specs.Answers.{closed_up, forward, train_row};

use crate::rows::{StopRow, TrainRow};

// Takes `count` of the first `used` stop rows out, from the row `at` on.
pub fn take_out_stops(stops: &mut [StopRow], at: usize, count: usize, used: usize)
    requires part { at + count ≤ used }
    requires fit { used ≤ length stops.old }
    ensures { stops.new ≡ closed_up (λ s. s) at count used stops.old }
{
    stops.copy_within(at + count..used, at);
}

// Takes the row `at` out of the first `used` train rows, and tells those after it that their stops moved forward by `by`.
pub fn take_out_train(trains: &mut [TrainRow], at: usize, used: usize, by: u16)
    requires part { at + 1 ≤ used }
    requires fit { used ≤ length trains.old }
    requires later { (k : ℕ) → at < k → k < used → by ≤ (train_row k trains.old).first }
    ensures { trains.new ≡ closed_up (forward by) at 1 used trains.old }
{
    trains.copy_within(at + 1..used, at);
    move_forward(&mut trains[at..used - 1], by);
}

// The stops of these trains moved forward by `by`.
fn move_forward(rows: &mut [TrainRow], by: u16)
    requires { (k : ℕ) → k < length rows.old → by ≤ (train_row k rows.old).first }
    ensures { rows.new ≡ map (forward by) rows.old }
{
    for row in rows.iter_mut() {
        row.first -= by;
    }
}
