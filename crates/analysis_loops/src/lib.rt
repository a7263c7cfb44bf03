// A loop: its trip, found once from its rows and the ranges at its start, and what its body assigns.
#![tactic(auto)]

pub mod trips;
pub mod ways;

ghost use Rattle.std.specs.Prelude.{◌≡◌, length};
ghost use Rattle.analysis_intervals.specs.Env.{env_of, range_of};
ghost use Rattle.analysis_loops.specs.Found.{trip_of};
ghost use Rattle.analysis_loops.specs.Loops.{trip_from, LoopAt};
ghost use Rattle.analysis_loops.specs.Ways.{SmallWay};
ghost use Rattle.table.specs.Code.{rows_of};
ghost use Rattle.analysis_steps.specs.Body.{AtLoop};

use crate::trips::{Lead, Trip, chase_trip, lead_of, own_trip, read_trip};
use crate::ways::{LoopTest, Way, head_of, is_do, is_hold, keeps, way_of};
use analysis_intervals::comparisons::opposite;
use analysis_intervals::{Interval, bounds, interval_at};
use analysis_steps::variable_set::VariableSet;
use analysis_steps::{Moves, body_moves};
use rules::Comparison;
use rules_steps::Step;
use table::kind_at;

// The trip by that way, from the ranges at the loop's start and the tested variable's own.
fn trip_by(
    way: Way,
    begun: &[[i32; 2]; 16],
    untested: bool,
    step: Step,
    comparison: Comparison,
    start: Interval,
    limit: Interval,
    keeps: bool,
) -> Trip
    requires { SmallWay way }
    ensures { trip_of result ≡ trip_from way (env_of begun.now) untested step comparison (range_of start) (range_of limit) keeps }
{
    match way {
        Way::Own => own_trip(untested, step, comparison, start, limit, keeps, true),
        Way::Copied(w, ahead, moved) => read_trip(
            lead_of(untested, Lead::Tries(start)),
            moved,
            comparison,
            interval_at(begun, w),
            limit,
            keeps,
            ahead,
            start,
        ),
        Way::Chase(w, apart) => chase_trip(
            untested,
            apart,
            comparison,
            start,
            interval_at(begun, w),
        ),
        Way::Watched(w, c, k, ahead, moved) => read_trip(
            Lead::Flag(start),
            moved,
            opposite(c),
            interval_at(begun, w),
            Interval { lo: k, hi: k },
            true,
            ahead,
            start,
        ),
        Way::Broken => own_trip(untested, step, comparison, start, limit, keeps, false),
    }
}

// A loop: its trip, its tested variable, and the variables that its body assigns.
#[derive(Clone, Copy)]
pub struct Loop {
    pub trip: Trip,
    pub tested: u8,
    pub set: VariableSet,
}

// The loop at row i, from the ranges at its start.
pub fn loop_at(text: &[u8], rows: &[u32], count: usize, i: usize, begun: &[[i32; 2]; 16]) -> Loop
    requires { AtLoop text.now (rows_of rows.now) count i }
    ensures { LoopAt text.now (rows_of rows.now) count i (env_of begun.now) result }
{
    let kind = kind_at(rows, i);
    let LoopTest {
        tested,
        comparison,
        limit,
    } = head_of(kind);
    let Moves { set, step } = body_moves(rows, count, i, tested);
    let start = interval_at(begun, tested);
    let end = bounds(text, begun, limit);
    let kept = keeps(text, limit, set);
    let way = way_of(rows, count, i, is_hold(kind), step, kept);
    let trip = trip_by(way, begun, is_do(kind), step, comparison, start, end, kept);
    Loop { trip, tested, set }
}
