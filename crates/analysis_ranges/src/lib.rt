// The known ranges of the variables at a loop's body's start, and of the tested one after the loop.
#![tactic(auto)]

pub mod transfer;

ghost use Rattle.std.specs.Prelude.{◌≡◌, ◌<◌};
ghost use Rattle.rules.specs.Trips.{inner_of, outer_of};
ghost use Rattle.analysis_intervals.specs.Env.{env_of, range_of};
ghost use Rattle.analysis_loops.specs.Found.{trip_of};
ghost use Rattle.analysis_ranges.specs.Loops.{widened};

use crate::transfer::widen;
use analysis_intervals::{Interval, inside_interval, outside_interval};
use analysis_loops::Loop;
use analysis_loops::trips::{Counter, Trip};

// The tested variable of a trip at the body's start.
#[tactic(auto, unfolding(rules::specs::Trips::inner_of, rules::specs::Values::lowest, rules::specs::Values::highest))]
fn inner(trip: Trip) -> Interval
    ensures { range_of result ≡ inner_of (trip_of trip) }
{
    match trip.counter {
        Counter::Own => inside_interval(trip.moved, trip.comparison, trip.start, trip.limit),
        Counter::Other | Counter::Difference => Interval::FULL,
    }
}

// From the ranges at a loop's start to those at its body's start.
pub fn inside(r: &mut [[i32; 2]; 16], one: Loop)
    requires { one.tested < 16 }
    ensures { env_of r.new ≡ widened one (inner_of (trip_of one.trip)) (env_of r.old) }
{
    widen(r, one.set, inner(one.trip), one.tested);
}

// The tested variable of a trip after the loop.
#[tactic(auto, unfolding(rules::specs::Trips::outer_of, rules::specs::Values::lowest, rules::specs::Values::highest))]
pub fn outer(trip: Trip) -> Interval
    ensures { range_of result ≡ outer_of (trip_of trip) }
{
    match trip.counter {
        Counter::Own => outside_interval(trip.step, trip.comparison, trip.start),
        Counter::Other | Counter::Difference => Interval::FULL,
    }
}
