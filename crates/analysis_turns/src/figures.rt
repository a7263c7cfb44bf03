// The turns of a step from a start to a limit, and whether they can be counted.
ghost use Rattle.std.specs.Prelude.{◌≡◌, true, ◌&&◌, suc, ◌≤◌, pos, ◌≤ℤ◌};
ghost use Rattle.rules_steps.specs.Ends.{Near, EndsWithin};
ghost use Rattle.rules.specs.Steps.{moving};
ghost use Rattle.rules.specs.Ranges.{single, sort};
ghost use Rattle.rules.specs.Turns.{powers, scale, share, apart, while_turns, moved, at_test};
ghost use Rattle.rules.specs.Questions.{has_figure};
ghost use Rattle.analysis_intervals.specs.Wide.{wide_range, Unmoved};
ghost use Rattle.analysis_turns.specs.Needs.{NearEnds, FirstTested, Countable, meeting};

use crate::moves::{climb, turned_up};
use analysis_intervals::comparisons::{WideInterval, falls, is_differ, rises};
use rules::{AddLoop, Comparison};
use rules_steps::Step;
use values::floor;

// How many k have t times f to the k at most e.
fn powers(t: u64, e: u64, f: u64) -> u64
    requires { (1 ≤ t) × (e ≤ 5_000_000_000) × (2 ≤ f) × (f ≤ 2_000_000_001) }
    ensures { result ≡ powers (suc e) t e f }
{
    let mut at = t;
    let mut k: u64 = 0;
    while at <= e {
        at *= f;
        k += 1;
    }
    k
}

// Grow: from t times f, while at most e.
fn scale(t: i64, e: i64, f: u64) -> u64
    requires { (pos 1 ≤ℤ t) × Near 5 e × (2 ≤ f) × (f ≤ 2_000_000_001) }
    ensures { result ≡ scale t e f }
{
    if e < t {
        return 0;
    }
    powers(t as u64, e as u64, f)
}

// Do s and n share a number?
fn share(s: WideInterval, n: WideInterval) -> bool
    ensures { result ≡ share (wide_range s) (wide_range n) }
{
    s.lo <= n.hi && n.lo <= s.hi
}

// The turns under !=.
#[tactic(auto, unfolding(rules::specs::Turns::apart), using(ints::proofs::Parts::signed))]
fn apart(a: i64, s: WideInterval, n: WideInterval) -> u64
    requires { Near 1024 a × (a ≡ pos 0 → ⊥) × NearEnds s × NearEnds n }
    ensures { result ≡ apart a (wide_range s) (wide_range n) }
{
    if a == 1 {
        n.hi.abs_diff(s.lo)
    } else if a == -1 {
        s.hi.abs_diff(n.lo)
    } else {
        n.lo.abs_diff(s.lo) / a.unsigned_abs()
    }
}

// The turns of a step Add[a,b]: s what the first test sees, n the limit's range, e its end.
fn add_turns(
    a: i64,
    b: i64,
    comparison: Comparison,
    s: WideInterval,
    n: WideInterval,
    e: i64,
) -> u64
    requires { Countable (Step.Add a b) (sort comparison) s n e }
    ensures { result ≡ while_turns (Step.Add a b) (sort comparison) (wide_range s) (wide_range n) e }
{
    if rises(comparison) {
        return climb(AddLoop {
            start: s.lo,
            limit: e,
            step: a,
        });
    }
    if falls(comparison) {
        return climb(turned_up(AddLoop {
            start: s.hi,
            limit: e,
            step: b,
        }));
    }
    if is_differ(comparison) {
        return apart(a, s, n);
    }
    u64::from(share(s, n))
}

// The turns of a while or a for.
#[tactic(auto, unfolding(rules::specs::Turns::while_turns))]
pub fn while_turns(
    step: Step,
    comparison: Comparison,
    s: WideInterval,
    n: WideInterval,
    e: i64,
) -> u64
    requires { Countable step (sort comparison) s n e }
    ensures { result ≡ while_turns step (sort comparison) (wide_range s) (wide_range n) e }
{
    match step {
        Step::Add(a, b) => add_turns(a, b, comparison, s, n, e),
        Step::Grow(f, _) => scale(s.lo, e, f),
        Step::Shrink(f, _) => scale(e, s.hi, f),
        Step::Unknown => 0,
    }
}

// The start moved by one turn, not clamped.
#[tactic(auto, unfolding(rules::specs::Turns::moved))]
fn moved(step: Step, s: WideInterval) -> WideInterval
    requires { EndsWithin 512 step × (moving step ≡ true) × Unmoved s }
    ensures { (wide_range result ≡ moved step (wide_range s)) × FirstTested step result }
{
    match step {
        Step::Add(a, b) => WideInterval {
            lo: s.lo + a,
            hi: s.hi + b,
        },
        Step::Grow(f, _) => WideInterval {
            lo: s.lo * f as i64,
            hi: s.hi * f as i64,
        },
        Step::Shrink(f, _) => WideInterval {
            lo: floor(s.lo, f),
            hi: floor(s.hi, f),
        },
        Step::Unknown => s,
    }
}

// What the first counted test sees.
#[tactic(auto, unfolding(rules::specs::Turns::at_test))]
pub fn at_test(is_moved: bool, step: Step, s: WideInterval) -> WideInterval
    requires { EndsWithin 512 step × (moving step ≡ true) × Unmoved s }
    ensures { (wide_range result ≡ at_test is_moved step (wide_range s)) × FirstTested step result }
{
    if is_moved { moved(step, s) } else { s }
}

// Two single numbers.
#[tactic(auto, using(ints::proofs::Parts::signed))]
fn are_single(r: WideInterval, n: WideInterval) -> bool
    ensures { result ≡ single (wide_range r) && single (wide_range n) }
{
    r.lo == r.hi && n.lo == n.hi
}

// The terms of the figure under !=, a the step, r what the first test sees.
#[tactic(auto, unfolding(crate::specs::Needs::meeting), using(ints::proofs::Parts::signed))]
fn meets(a: i64, r: WideInterval, n: WideInterval) -> bool
    requires { Near 1024 a × (a ≡ pos 0 → ⊥) × NearEnds r × NearEnds n }
    ensures { result ≡ meeting a (wide_range r) (wide_range n) }
{
    if a == 1 {
        r.hi <= n.lo
    } else if a == -1 {
        n.hi <= r.lo
    } else {
        are_single(r, n) && r.lo + a * apart(a, r, n) as i64 == n.lo
    }
}

// 12: s the start, r what the first test sees, n the limit's range, e its end.
pub fn has_figure(
    step: Step,
    comparison: Comparison,
    s: WideInterval,
    r: WideInterval,
    n: WideInterval,
    e: i64,
) -> bool
    requires { EndsWithin 512 step × (moving step ≡ true) × FirstTested step r × NearEnds n }
    ensures { result ≡ has_figure step (sort comparison) (wide_range s) (wide_range r) (wide_range n) e }
{
    match step {
        Step::Add(a, b) => !is_differ(comparison) || (a == b && meets(a, r, n)),
        Step::Grow(_, _) => 1 <= s.lo,
        Step::Shrink(_, _) => 1 <= e,
        Step::Unknown => true,
    }
}
