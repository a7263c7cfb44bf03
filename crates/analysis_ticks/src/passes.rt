// Triangles: the passes of a loop by the values of its variable, and a loop in its body that is summed over them.
ghost use Rattle.std.specs.Prelude.{◌≡◌, true, not, ◌&&◌, List, ℕ, ◌≤◌, ◌<◌, pos, ◌+ℤ◌, ◌*ℤ◌, ◌≤ℤ◌};
ghost use Rattle.rules_steps.specs.Ends.{Near, EndsWithin};
ghost use Rattle.rules.specs.Values.{upward};
ghost use Rattle.rules.specs.Blocks.{for, expr_of};
ghost use Rattle.rules.specs.Written.{WrittenOperand, Written};
ghost use Rattle.rules.specs.Steps.{is_add, first_end};
ghost use Rattle.rules.specs.Turns.{climb};
ghost use Rattle.rules.specs.Passes.{sum, from_constant, is_alone};
ghost use Rattle.rules.specs.Verdicts.{passed};
ghost use Rattle.rules.specs.Questions.{of_trip};
ghost use Rattle.analysis_steps.specs.Tree.{form_of, test_of};
ghost use Rattle.analysis_loops.specs.Found.{free_of, trip_of};
ghost use Rattle.analysis_ticks.specs.Capped.{capped};
ghost use Rattle.analysis_ticks.specs.Rounds.{round_of, pass_in, FineRound, sums_by, triangle_by};
ghost use Rattle.analysis_ticks.specs.Rounds.{climb_to, Rises, walked_by, branch_of, is_base};
ghost use Rattle.analysis_ticks.specs.Rounds.{body_of};

use crate::{cap, times};
use analysis_intervals::Interval;
use analysis_intervals::comparisons::{WideInterval, edge, is_add, ordered, rises};
use analysis_loops::trips::{Counter, Trip};
use analysis_turns::exact;
use analysis_turns::moves::climb;
use rules::{AddLoop, Comparison, Kind, Operand};
use rules_steps::Step;

// The passes of a block: `count` of one entry of the loop round it, its variable v moved by `by` in each, `times` over; x is what v holds
// in the first, if that is known.
#[derive(Clone, Copy, Debug, PartialEq, Eq)]
pub struct Round {
    pub count: u64,
    pub by: i64,
    pub times: u64,
    pub v: u8,
    pub x: Option<i32>,
}

// A base kind: turns are counted by the tested variable's own step, and it is no hold that breaks its terms.
fn is_base(counter: Counter, terms: bool) -> bool
    ensures { result ≡ not (free_of counter) && terms }
{
    matches!(counter, Counter::Own) && terms
}

// The outer loop: of a base kind, exact, with an Add step, < <= > or >=, and at most 4,096 turns.
fn sums(trip: Trip, turns: u64) -> bool
    ensures { result ≡ sums_by (trip_of trip) turns }
{
    is_base(trip.counter, trip.terms)
        && exact(trip)
        && is_add(trip.step)
        && ordered(trip.comparison)
        && turns <= 4_096
}

// A constant.
fn is_constant(x: Operand) -> bool
    ensures { (text : List ℕ) → WrittenOperand text x → result ≡ from_constant (for (expr_of text x)) }
{
    matches!(x, Operand::Constant(_))
}

// The variable v alone.
fn is_alone(v: u8, x: Operand) -> bool
    ensures { (text : List ℕ) → WrittenOperand text x → result ≡ is_alone v (expr_of text x) }
{
    match x {
        Operand::Variable(w) => w == v,
        Operand::Constant(_) | Operand::Expression(_, _) => false,
    }
}

// A base kind that moves by Add.
fn adds(trip: Trip) -> bool
    ensures { result ≡ is_base (trip_of trip) && is_add trip.step }
{
    is_base(trip.counter, trip.terms) && is_add(trip.step)
}

// Under < or <=, to v alone.
fn is_up_to(comparison: Comparison, v: u8, x: Operand) -> bool
    ensures { (text : List ℕ) → WrittenOperand text x → result ≡ upward comparison && is_alone v (expr_of text x) }
{
    rises(comparison) && is_alone(v, x)
}

// Both.
fn climbs_to(trip: Trip, v: u8, x: Operand) -> bool
    ensures { (text : List ℕ) → WrittenOperand text x → result ≡ is_base (trip_of trip)
        && (is_add trip.step && (upward trip.comparison && is_alone v (expr_of text x))) }
{
    adds(trip) && is_up_to(trip.comparison, v, x)
}

// The inner loop: a for from a constant, by Add, under < or <=, to v alone.
fn triangle(kind: Kind, trip: Trip, v: u8) -> bool
    ensures { ((text : List ℕ) → Written text kind → result ≡ triangle_by (form_of text kind) (test_of text kind).limit (trip_of trip) v) }
{
    match kind {
        Kind::For(_, s, _, x, _) => is_constant(s) && climbs_to(trip, v, x),
        _ => false,
    }
}

// The first end of an Add step.
fn first_end(step: Step) -> i64
    requires { EndsWithin 512 step × (is_add step ≡ true) }
    ensures { (result ≡ first_end step) × Near 512 result }
{
    match step {
        Step::Add(a, _) => a,
        _ => 0,
    }
}

// The turns of a rising Add in pass i, whose limit is `by` further for each pass before it.
fn climb_in(i: u64, start: i64, limit: i64, step: i64, by: i64) -> u64
    requires { (i < 4_096) × Near 5 start × Near 5 limit × Near 1024 step × (pos 1 ≤ℤ step) × Near 512 by }
    ensures { (result ≡ climb (record { start = start; limit = limit +ℤ by *ℤ pos i; step = step })) × (result ≤ 3_100_000_000_000_000) }
{
    climb(AddLoop {
        start,
        limit: limit + by * i as i64,
        step,
    })
}

// The turns of a rising Add, added over `count` limits: the first one, and then each `by` further.
fn climbs(start: i64, limit: i64, step: i64, by: i64, count: u64) -> u64
    requires { Near 5 start × Near 5 limit × Near 1024 step × (pos 1 ≤ℤ step) × Near 512 by × (count ≤ 4_096) }
    ensures { result ≡ sum (λ i. climb (record { start = start; limit = limit +ℤ by *ℤ pos i; step = step })) 0 count }
{
    let mut all: u64 = 0;
    for i in 0..count {
        all += climb_in(i, start, limit, step, by);
    }
    all
}

// A triangle's turns, added over the values of the variable round it, x the first.
fn summed(trip: Trip, x: i32, round: Round) -> u64
    requires { Rises trip × FineRound round }
    ensures { result ≡ sum (λ i. climb_to (trip_of trip) (x +ℤ round.by *ℤ pos i)) 0 round.count }
{
    let first = Interval { lo: x, hi: x };
    let limit = edge(trip.comparison, WideInterval::from(first));
    climbs(
        i64::from(trip.start.lo),
        limit,
        first_end(trip.step),
        round.by,
        round.count,
    )
}

// The turns of a loop in all passes of one entry of the loop round it: only a triangle asks for a sum. Kept: the variable round it is not
// assigned before it.
pub fn walked(kind: Kind, trip: Trip, turns: u64, round: Round, kept: bool) -> u64
    requires { EndsWithin 512 trip.step × ((i : ℕ) → of_trip i (trip_of trip) ≡ passed) × FineRound round
        × ((text : List ℕ) × Written text kind) }
    ensures { ((text : List ℕ) → Written text kind → result ≡ capped
        (walked_by (round_of round) (pass_in round kept) (form_of text kind) (test_of text kind).limit (trip_of trip) turns)) }
{
    if let Some(x) = round.x {
        if kept && triangle(kind, trip, round.v) {
            return cap(summed(trip, x, round));
        }
    }
    times(turns, round.count)
}

// The passes of a pick's branch: all alike.
pub fn branch(round: Round) -> Round
    requires { FineRound round }
    ensures { (result ≡ branch_of round) × FineRound result }
{
    Round {
        count: 1,
        by: 0,
        times: times(round.count, round.times),
        x: None,
        ..round
    }
}

// The passes of a loop's body: by their values if it sums, else all alike. v: its tested variable; total: its turns in all.
pub fn body(trip: Trip, v: u8, turns: u64, total: u64, round: Round) -> Round
    requires { EndsWithin 512 trip.step × (v < 16) × (total ≤ 1_000_000_000_001) × FineRound round }
    ensures { (result ≡ body_of (trip_of trip) v turns total round) × FineRound result }
{
    if sums(trip, turns) {
        Round {
            count: turns,
            by: first_end(trip.step),
            times: times(round.count, round.times),
            v,
            x: Some(trip.start.lo),
        }
    } else {
        Round {
            times: total,
            v,
            ..branch(round)
        }
    }
}
