// What a line says: a stop and its train, or what is wrong with the line.
ghost use Rattle.std.specs.Prelude.{◌≡◌, ◌+◌, length};
ghost use Rattle.std.specs.Option.{ok_or};
ghost use Rattle.text.specs.Faults.{malformed};
ghost use Rattle.text.specs.Handing.{says_in_turn};
ghost use Rattle.text.specs.Lines.{fields, line_with};
ghost use Rattle.text.specs.Numbers.{end_of_8_bits, number};
ghost use Rattle.text.specs.Saying.{time_if_any, departure, says};

use crate::fault::{Cause, Fault};
use crate::numbers::{number_of, small_number_of};
use crate::reader::{Field, Reader};
use crate::stop_line::StopLine;
use crate::times::time_of;
use book::rows::{Departure, StopRow};

const FIELDS: usize = 7;

impl Field<'_> {
    fn malformed(&self) -> Fault
        ensures { result ≡ malformed self.now.line self.now.column }
    {
        Fault {
            cause: Cause::Malformed,
            line: self.line,
            column: self.column,
        }
    }

    // A number that is no more than `most`.
    fn number(&self, most: u16) -> Result<u16, Fault>
        ensures { result ≡ ok_or (number (most + 1) self.now.bytes.now) (malformed self.now.line self.now.column) }
    {
        number_of(self.bytes, most).ok_or(self.malformed())
    }

    fn small_number(&self) -> Result<u8, Fault>
        ensures { result ≡ ok_or (number end_of_8_bits self.now.bytes.now) (malformed self.now.line self.now.column) }
    {
        small_number_of(self.bytes).ok_or(self.malformed())
    }

    // A time, or none where the field is blank.
    fn time_if_any(&self) -> Result<Option<u16>, Fault>
        ensures { result ≡ ok_or (time_if_any self.now.bytes.now) (malformed self.now.line self.now.column) }
    {
        if self.bytes.is_empty() {
            return Ok(None);
        }
        time_of(self.bytes).map(Some).ok_or(self.malformed())
    }

    // The fare with its departure: both are there, or neither.
    fn departure(&self, leave: Option<u16>) -> Result<Option<Departure>, Fault>
        ensures { result ≡ ok_or (departure leave self.now.bytes.now) (malformed self.now.line self.now.column) }
    {
        match leave {
            Some(minute) => {
                let fare = self.number(u16::MAX)?;
                Ok(Some(Departure { minute, fare }))
            }
            None if self.bytes.is_empty() => Ok(None),
            None => Err(self.malformed()),
        }
    }
}

// What seven fields say.
fn fields_said(mut reader: Reader) -> Result<StopLine, Fault>
    requires whole { reader.left.now ≡ reader.line.now }
    ensures { result ≡ says_in_turn reader.entry.number reader.entry.line.now }
{
    let number = reader.next_field().number(u16::MAX)?;
    let code = reader.next_field().small_number()?;
    let features = reader.next_field().number(u16::MAX)?;
    let station = reader.next_field().number(u16::MAX)?;
    let arrive = reader.next_field().time_if_any()?;
    let leave = reader.next_field().time_if_any()?;
    let depart = reader.next_field().departure(leave)?;
    Ok(StopLine {
        number,
        code,
        features,
        stop: StopRow {
            station,
            arrive,
            depart,
        },
    })
}

// What the line says, or what is wrong with it.
pub fn said(reader: Reader) -> Result<StopLine, Fault>
    requires whole { reader.left.now ≡ reader.line.now }
    ensures { result ≡ says reader.entry.number (line_with reader.entry.has_feed reader.entry.line.now) }
{
    if !reader.has_feed() || reader.count_fields() != FIELDS {
        return Err(reader.malformed());
    }
    fields_said(reader)
}
