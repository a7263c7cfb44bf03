// The questions 19 and 8 to 12 of one loop, and the turns of one entry.
#![tactic(auto)]

pub mod figures;
pub mod leads;
pub mod moves;

ghost use Rattle.std.specs.Prelude.{◌≡◌};
ghost use Rattle.rules_steps.specs.Ends.{EndsWithin};
ghost use Rattle.rules.specs.Trips.{is_exact};
ghost use Rattle.analysis_intervals.specs.Env as env;
ghost use Rattle.analysis_loops.specs.declared.trips.Counter.{Counter};
ghost use Rattle.analysis_loops.specs.Found.{start_of, limit_of, trip_of};
ghost use Rattle.analysis_intervals.specs.Wide.{wide_range, Unmoved};
ghost use Rattle.analysis_turns.specs.Verdicts.{FigureOf};

use crate::figures::{at_test, has_figure, while_turns};
use crate::leads::led;
use analysis_intervals::Interval;
use analysis_intervals::comparisons::{WideInterval, edge, equal_ends, known, moving, suits};
use analysis_loops::trips::{Counter, Trip};

// The range of the difference of two numbers.
fn gap(s: Interval, n: Interval) -> WideInterval
    ensures { (wide_range result ≡ start_of Counter.Difference (env.range_of s) (env.range_of n)) × Unmoved result }
{
    WideInterval {
        lo: i64::from(s.lo) - i64::from(n.hi),
        hi: i64::from(s.hi) - i64::from(n.lo),
    }
}

// The range that a trip starts from, and the limit's.
fn start_of(counter: Counter, s: Interval, n: Interval) -> WideInterval
    ensures { (wide_range result ≡ start_of counter (env.range_of s) (env.range_of n)) × Unmoved result }
{
    match counter {
        Counter::Own | Counter::Other => WideInterval::from(s),
        Counter::Difference => gap(s, n),
    }
}

const NONE: WideInterval = WideInterval { lo: 0, hi: 0 };

fn limit_of(counter: Counter, n: Interval) -> WideInterval
    ensures { (wide_range result ≡ limit_of counter (env.range_of n)) × Unmoved result }
{
    match counter {
        Counter::Own | Counter::Other => WideInterval::from(n),
        Counter::Difference => NONE,
    }
}

// The questions 19 and 8 to 12 of a trip in their order: the number of the first that has no, or the turns of one entry.
pub fn ask(trip: Trip) -> Result<u64, u32>
    requires { EndsWithin 512 trip.step }
    ensures { FigureOf (trip_of trip) result }
{
    let step = trip.step;
    let comparison = trip.comparison;
    if !trip.terms {
        return Err(19);
    }
    if !known(step) {
        return Err(8);
    }
    if !moving(step) {
        return Err(9);
    }
    if !trip.keeps {
        return Err(10);
    }
    if !suits(step, comparison) {
        return Err(11);
    }
    let start = start_of(trip.counter, trip.start, trip.limit);
    let limit = limit_of(trip.counter, trip.limit);
    let e = edge(comparison, limit);
    let r = at_test(trip.moved, step, start);
    if !has_figure(step, comparison, start, r, limit, e) {
        return Err(12);
    }
    let more = while_turns(step, comparison, r, limit, e);
    Ok(led(trip.lead, comparison, e, more))
}

// Exact: the ends of the step are equal, and the starts and the limit are single numbers.
pub fn exact(trip: Trip) -> bool
    ensures { result ≡ is_exact (trip_of trip) }
{
    equal_ends(trip.step) && trip.sure
}
