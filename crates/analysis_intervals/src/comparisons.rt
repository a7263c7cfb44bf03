// What a step is and what a comparison is, whether they fit, and the end that a test reads.
ghost use Rattle.std.specs.Prelude.{◌≡◌, not, ◌&&◌};
ghost use Rattle.rules.specs.Steps.{is_add, moving, difference, equal_ends};
ghost use Rattle.rules.specs.Questions.{known};
ghost use Rattle.rules.specs.Values.{opposite};
ghost use Rattle.rules.specs.Ranges.{edge, sort, ordered, suits};
ghost use Rattle.rules.specs.Trips as trips;
ghost use Rattle.rules_steps.specs.Ends.{Near, EndsWithin};
ghost use Rattle.analysis_intervals.specs.Sorts.{is_rising, is_falling, is_differ};
ghost use Rattle.analysis_intervals.specs.Wide.{wide_range, Unmoved, EdgeWithin};

use rules::Comparison;
use rules_steps::Step;

// Is it a step Add[a,b]?
#[tactic(auto, unfolding(rules::specs::Steps::is_add))]
pub fn is_add(step: Step) -> bool
    ensures { result ≡ is_add step }
{
    matches!(step, Step::Add(_, _))
}

// 8: is the step known?
#[tactic(auto, unfolding(rules::specs::Questions::known))]
pub fn known(step: Step) -> bool
    ensures { result ≡ known step }
{
    !matches!(step, Step::Unknown)
}

// Does the step move?
#[tactic(auto, unfolding(rules::specs::Steps::moving))]
pub fn moving(step: Step) -> bool
    ensures { result ≡ moving step }
{
    match step {
        Step::Add(a, b) => 1 <= a || b <= -1,
        Step::Grow(f, _) | Step::Shrink(f, _) => 2 <= f,
        Step::Unknown => false,
    }
}

// < <=
pub fn rises(comparison: Comparison) -> bool
    ensures { result ≡ is_rising (sort comparison) }
{
    matches!(comparison, Comparison::Less | Comparison::AtMost)
}

// > >=
pub fn falls(comparison: Comparison) -> bool
    ensures { result ≡ is_falling (sort comparison) }
{
    matches!(comparison, Comparison::Greater | Comparison::AtLeast)
}

// < <= > >=
pub fn ordered(comparison: Comparison) -> bool
    ensures { result ≡ ordered (sort comparison) }
{
    !matches!(comparison, Comparison::Equal | Comparison::Different)
}

// 11: does the comparison fit?
#[tactic(auto, unfolding(rules::specs::Ranges::suits))]
pub fn suits(step: Step, comparison: Comparison) -> bool
    ensures { result ≡ suits step (sort comparison) }
{
    match step {
        Step::Add(a, _) if rises(comparison) => 1 <= a,
        Step::Add(_, b) if falls(comparison) => b <= -1,
        Step::Add(_, _) => true,
        Step::Grow(_, _) => rises(comparison),
        Step::Shrink(_, _) => falls(comparison),
        Step::Unknown => false,
    }
}

// The opposite comparison.
#[tactic(auto, unfolding(rules::specs::Values::opposite))]
pub fn opposite(comparison: Comparison) -> Comparison
    ensures { result ≡ opposite comparison }
{
    match comparison {
        Comparison::Less => Comparison::AtLeast,
        Comparison::AtMost => Comparison::Greater,
        Comparison::Greater => Comparison::AtMost,
        Comparison::AtLeast => Comparison::Less,
        Comparison::Equal => Comparison::Different,
        Comparison::Different => Comparison::Equal,
    }
}

// A copied variable counts: its rows stand on one side, it moves by Add, and the comparison is ordered.
pub fn copies(comparison: Comparison, step: Step, before: bool, after: bool) -> bool
    ensures { result ≡ not (before && after) && (is_add step && (moving step && ordered (sort comparison))) }
{
    !(before && after) && is_add(step) && moving(step) && ordered(comparison)
}

// The step is a moving Add toward the comparison.
fn toward(step: Step, comparison: Comparison) -> bool
    ensures { result ≡ ordered (sort comparison) && (is_add step && suits step (sort comparison)) }
{
    ordered(comparison) && is_add(step) && suits(step, comparison)
}

// A watched variable counts: its rows stand on one side of the off, and it moves by Add toward the off's comparison.
#[tactic(auto, using(crate::proofs::Fits::toward_parts))]
pub fn watches(comparison: Comparison, step: Step, before: bool, after: bool) -> bool
    ensures { result ≡ not (before && after) && trips.toward step (sort (opposite comparison)) }
{
    !(before && after) && toward(step, opposite(comparison))
}

// The step of the difference of two variables, from their steps.
#[tactic(auto, unfolding(rules::specs::Steps::difference))]
pub fn difference(x: Step, y: Step) -> Step
    requires { EndsWithin 256 x × EndsWithin 256 y }
    ensures { result ≡ difference x y }
{
    match (x, y) {
        (Step::Add(a, b), Step::Add(c, d)) => Step::Add(a - d, b - c),
        _ => Step::Unknown,
    }
}

// Two variables that move by Add close on each other under an ordered comparison.
pub fn chases(comparison: Comparison, step: Step, other: Step) -> bool
    ensures { result ≡ is_add other && (is_add step && ordered (sort comparison)) }
{
    is_add(other) && is_add(step) && ordered(comparison)
}

// !=
pub fn is_differ(comparison: Comparison) -> bool
    ensures { result ≡ is_differ (sort comparison) }
{
    matches!(comparison, Comparison::Different)
}

// The two ends of the step are equal.
#[tactic(auto, unfolding(rules::specs::Steps::equal_ends), using(ints::proofs::Parts::signed))]
pub fn equal_ends(step: Step) -> bool
    ensures { result ≡ equal_ends step }
{
    match step {
        Step::Add(a, b) => a == b,
        Step::Grow(f, g) | Step::Shrink(f, g) => f == g,
        Step::Unknown => false,
    }
}

// A range of 64 bits: a start moved by one turn is not clamped.
#[derive(Clone, Copy, Debug, PartialEq, Eq)]
pub struct WideInterval {
    pub lo: i64,
    pub hi: i64,
}

// The limit's end that the test reads, E.
pub fn edge(comparison: Comparison, n: WideInterval) -> i64
    requires { Unmoved n }
    ensures { (result ≡ edge comparison (wide_range n)) × Near 5 result × EdgeWithin (sort comparison) (wide_range n) result }
{
    match comparison {
        Comparison::Less => n.hi - 1,
        Comparison::AtMost => n.hi,
        Comparison::Greater => n.lo + 1,
        Comparison::AtLeast | Comparison::Equal | Comparison::Different => n.lo,
    }
}
