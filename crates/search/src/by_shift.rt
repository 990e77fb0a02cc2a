// What there is for each of the three shifts.
ghost use Rattle.std.specs.Prelude.{◌≡◌};
ghost use Rattle.connection.specs.declared.ride.Shift.{Shift as AShift};
ghost use Rattle.search.specs.Shifts.{on};

use connection::ride::Shift;

#[derive(Drop)]
pub struct ByShift<T> {
    pub day_before: T,
    pub same_day: T,
    pub day_after: T,
}

impl<T> ByShift<T> {
    // What is made of each shift.
    pub fn each<F: Fn(Shift) -> T>(of: F) -> ByShift<T>
        requires { F.IsAlwaysCallable of }
        ensures { (s : AShift) → F.post of s (on result s) }
    {
        ByShift {
            day_before: of(Shift::DayBefore),
            same_day: of(Shift::SameDay),
            day_after: of(Shift::DayAfter),
        }
    }

    // The one for the shift.
    pub fn on(&self, shift: Shift) -> &T
        ensures { result.now ≡ on self.now shift }
    {
        match shift {
            Shift::DayBefore => &self.day_before,
            Shift::SameDay => &self.same_day,
            Shift::DayAfter => &self.day_after,
        }
    }
}
