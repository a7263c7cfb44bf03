// What is stepped and tested at a loop: its trip, from the step that is read and the ranges at the loop's start.
ghost use Rattle.std.specs.Prelude.{◌≡◌, cond};
ghost use Rattle.rules.specs.Trips as trips;
ghost use Rattle.analysis_intervals.specs.Env.{range_of};
ghost use Rattle.analysis_loops.specs.Found.{lead_of, trip_of, own_from, read_from, chase_from};

use analysis_intervals::Interval;
use rules::Comparison;
use rules_steps::Step;

// What comes before the first counted test: nothing, a turn that is not tested (a do's), a turn that tests another range, or a turn if a
// flag is not 0.
#[derive(Clone, Copy)]
pub enum Lead {
    Nothing,
    Untested,
    Tries(Interval),
    Flag(Interval),
}

pub fn lead_of(untested: bool, first: Lead) -> Lead
    ensures { lead_of result ≡ cond untested trips.untested (lead_of first) }
{
    if untested { Lead::Untested } else { first }
}

// What is counted by: the tested variable's own value; that of another variable, which is copied into it or which its off watches; or the
// difference of the tested variable and the limit. The tested variable is [-L, L] at the body's start and after the loop where it is not
// its own.
#[derive(Clone, Copy)]
pub enum Counter {
    Own,
    Other,
    Difference,
}

// What is stepped and tested: the step that is read and its comparison, the ranges of its start and its limit (of a difference, those of
// the two variables); whether the first counted test sees the start moved by one turn, and what comes before that test; whether the starts
// and the limit are single numbers, questions 10 and 19 have yes, and what is counted by.
#[derive(Clone, Copy)]
pub struct Trip {
    pub step: Step,
    pub comparison: Comparison,
    pub start: Interval,
    pub limit: Interval,
    pub moved: bool,
    pub lead: Lead,
    pub sure: bool,
    pub keeps: bool,
    pub terms: bool,
    pub counter: Counter,
}

// The tested variable's own step, from its start range to the limit's; terms: the answer to question 19.
pub fn own_trip(
    untested: bool,
    step: Step,
    comparison: Comparison,
    start: Interval,
    limit: Interval,
    keeps: bool,
    terms: bool,
) -> Trip
    ensures { trip_of result ≡ own_from terms untested step comparison (range_of start) (range_of limit) keeps }
{
    Trip {
        step,
        comparison,
        start,
        limit,
        moved: untested,
        lead: lead_of(untested, Lead::Nothing),
        sure: start.is_single() && limit.is_single(),
        keeps,
        terms,
        counter: Counter::Own,
    }
}

// The step of a variable that the tested one's only row reads; ahead: its rows come before that row.
pub fn read_trip(
    lead: Lead,
    step: Step,
    comparison: Comparison,
    start: Interval,
    limit: Interval,
    keeps: bool,
    ahead: bool,
    tested: Interval,
) -> Trip
    ensures { trip_of result ≡ read_from (lead_of lead) step comparison (range_of start) (range_of limit) keeps ahead (range_of tested) }
{
    Trip {
        step,
        comparison,
        start,
        limit,
        moved: ahead,
        lead,
        sure: tested.is_single() && start.is_single() && limit.is_single(),
        keeps,
        terms: true,
        counter: Counter::Other,
    }
}

// The difference of the tested variable and the limit, from their ranges.
pub fn chase_trip(
    untested: bool,
    step: Step,
    comparison: Comparison,
    start: Interval,
    other: Interval,
) -> Trip
    ensures { trip_of result ≡ chase_from untested step comparison (range_of start) (range_of other) }
{
    Trip {
        step,
        comparison,
        start,
        limit: other,
        moved: untested,
        lead: lead_of(untested, Lead::Nothing),
        sure: start.is_single() && other.is_single(),
        keeps: true,
        terms: true,
        counter: Counter::Difference,
    }
}
