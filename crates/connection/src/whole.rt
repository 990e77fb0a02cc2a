// That nothing of a connection is lost on its way into a total.
ghost use Rattle.connection.specs.Whole.{NothingIsCut, NothingIsCutInForce, RoomForEveryStep};

use book::histories::every_history_holds;
use tariff::Tariff;

// Over trains that keep the rules and have 16-bit fares, a step holds all minutes and the whole fare of its stretch, and
// no connection has so many steps that a total stops counting, under any tariff. The trains in force are such trains,
// whatever calls were made: so the total that an agent is told has every minute and every cent of each of its steps.
pub fn every_connection_is_whole<P: Tariff>(tariff: &P)
    ensures uncut { NothingIsCut }
    ensures uncut_in_force { NothingIsCutInForce }
    ensures room { RoomForEveryStep (P.Tariff.meaning tariff.now) }
{
    every_history_holds();
}
