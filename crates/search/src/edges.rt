// The journeys at the edges: what a search answers to queries over small timetables.
ghost use Rattle.search.specs.EdgeAnswers.{EveryEdgeJourneyIsAnswered, EveryEdgeTimetableCanBeEntered};

use connection::edges::edge_journeys_hold;

// Whatever keeps the guarantee, as each search does, answers these queries so: with that total and that number of rides, or
// under 17, as nothing refuses the query and there is no connection. The timetables are such as a book can have.
pub fn edge_journeys_are_answered()
    ensures answered { EveryEdgeJourneyIsAnswered }
    ensures entered { EveryEdgeTimetableCanBeEntered }
{
    edge_journeys_hold();
}
