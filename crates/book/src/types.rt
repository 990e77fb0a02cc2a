// What the types of a stop's values say of them, for the histories. None of these functions does anything when it runs.
ghost use Rattle.std.specs.Prelude.{◌≤◌, IfSome};
ghost use Rattle.book.specs.Types.{last_of_16_bits, DepartureTyped, StopTyped};

use crate::rows::{Departure, StopRow};

impl Departure {
    fn fits_types(self)
        ensures { DepartureTyped self }
    {}
}

fn minute_fits_type(minute: Option<u16>)
    ensures { IfSome minute (λ m. m ≤ last_of_16_bits) }
{
    match minute {
        Some(_) => {}
        None => {}
    }
}

fn departure_fits_types(depart: Option<Departure>)
    ensures { IfSome depart DepartureTyped }
{
    match depart {
        Some(depart) => depart.fits_types(),
        None => {}
    }
}

impl StopRow {
    pub(crate) fn fits_types(self)
        ensures { StopTyped self }
    {
        minute_fits_type(self.arrive);
        departure_fits_types(self.depart);
    }
}
