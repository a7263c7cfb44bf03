// The range of one variable: what a row, a pick and a test make of it.
#![tactic(auto)]

pub mod comparisons;

ghost use Rattle.std.specs.Prelude.{◌≡◌, cond, ◌<◌, ◌+◌, length, take, drop};
ghost use Rattle.rules.specs.Parse.{parse, expr_in};
ghost use Rattle.rules.specs.Blocks.{expr_of};
ghost use Rattle.rules.specs.Written.{InText, WrittenOperand};
ghost use Rattle.rules.specs.Ranges.{bounds, single, full, edge, sort, inside_range, by_step, outside_range};
ghost use Rattle.rules.specs.Bounds.{FineOperand, FineChange};
ghost use Rattle.analysis_intervals.specs.Wide.{wide_range, Unmoved};
ghost use Rattle.analysis_intervals.specs.Env.{env_of, range_of};
ghost use Rattle.ints.specs.Ints.{clamp};
ghost use Rattle.rules.specs.Values.{lowest, highest, applied};
ghost use Rattle.analysis_intervals.specs.Changes.{join_range, with_zero, changed_range};

use crate::comparisons::{WideInterval, edge, falls, rises};
use expressions::bounds_in;
use expressions::operators::clamp;
use rules::{Change, Comparison, Operand};
use rules_steps::Step;
use values::changed;

// A pair of ends.
#[derive(Clone, Copy, Debug, PartialEq, Eq)]
pub struct Interval {
    pub lo: i32,
    pub hi: i32,
}

impl Interval {
    // From -L to L.
    pub const FULL: Interval = Interval {
        lo: -1_000_000_000,
        hi: 1_000_000_000,
    };

    // A single number.
    #[tactic(auto, using(ints::proofs::Parts::signed))]
    pub fn is_single(self) -> bool
        ensures { result ≡ single (range_of self) }
    {
        self.lo == self.hi
    }

    // The least range that holds both.
    #[tactic(auto, using(ints::proofs::Parts::signed))]
    pub fn joined(self, other: Interval) -> Interval
        ensures { range_of result ≡ join_range (range_of self) (range_of other) }
    {
        Interval {
            lo: self.lo.min(other.lo),
            hi: self.hi.max(other.hi),
        }
    }

    // The range widened by 0.
    #[tactic(auto, using(ints::proofs::Parts::signed))]
    pub fn with_zero(self) -> Interval
        ensures { range_of result ≡ with_zero (range_of self) }
    {
        Interval {
            lo: self.lo.min(0),
            hi: self.hi.max(0),
        }
    }

    // An arithmetic row applied to both ends.
    #[tactic(auto, unfolding(crate::specs::Changes::changed_range))]
    pub fn changed(self, change: Change) -> Interval
        requires { FineChange change }
        ensures { range_of result ≡ changed_range change (range_of self) }
    {
        Interval {
            lo: moved(self.lo, change),
            hi: moved(self.hi, change),
        }
    }
}

// An arithmetic row applied to one end.
fn moved(x: i32, change: Change) -> i32
    requires { FineChange change }
    ensures { result ≡ clamp lowest highest (applied change x) }
{
    clamp(changed(change, x))
}

// A range of 32 bits as one of 64.
impl From<Interval> for WideInterval {
    fn from(s: Interval) -> WideInterval
        ensures { (wide_range result ≡ range_of s) × Unmoved result }
    {
        WideInterval {
            lo: i64::from(s.lo),
            hi: i64::from(s.hi),
        }
    }
}

// The range of v.
#[tactic(auto, unfolding(crate::specs::Env::env_of))]
pub fn interval_at(r: &[[i32; 2]; 16], v: u8) -> Interval
    requires { v < 16 }
    ensures { range_of result ≡ env_of r.now v }
{
    let [lo, hi] = r[v as usize];
    Interval { lo, hi }
}

// The range of an expression, by its place and length.
fn word_bounds(text: &[u8], at: u16, n: u16, r: &[[i32; 2]; 16]) -> Interval
    requires { InText text.now at n }
    ensures { range_of result ≡ bounds (env_of r.now) (expr_in (parse (take n (drop at text.now)))) }
{
    let from = at as usize;
    let v = bounds_in(&text[from..from + n as usize], r);
    Interval { lo: v.lo, hi: v.hi }
}

// An operand's range.
#[tactic(auto, unfolding(rules::specs::Ranges::bounds, rules::specs::Expressions::meaning, rules::specs::Blocks::expr_of))]
pub fn bounds(text: &[u8], r: &[[i32; 2]; 16], x: Operand) -> Interval
    requires { FineOperand x × WrittenOperand text.now x }
    ensures { range_of result ≡ bounds (env_of r.now) (expr_of text.now x) }
{
    match x {
        Operand::Constant(k) => Interval { lo: k, hi: k },
        Operand::Variable(w) => interval_at(r, w),
        Operand::Expression(at, n) => word_bounds(text, at, n, r),
    }
}

// One variable over a loop: its own range for the tested one, all for what the body assigns, else as before.
#[tactic(auto, unfolding(rules::specs::Values::lowest, rules::specs::Values::highest))]
pub fn chosen(own: bool, changes: bool, mine: Interval, old: Interval) -> Interval
    ensures { range_of result ≡ cond own (range_of mine) (cond changes full (range_of old)) }
{
    if own {
        mine
    } else if changes {
        Interval::FULL
    } else {
        old
    }
}

// The tested variable's range at the body's start: s its start range, n the limit's.
pub fn inside_interval(is_moved: bool, comparison: Comparison, s: Interval, n: Interval) -> Interval
    ensures { range_of result ≡ inside_range is_moved (sort comparison) (range_of s) (edge comparison (range_of n)) }
{
    let e = edge(comparison, WideInterval::from(n));
    if rises(comparison) {
        let last = if is_moved { s.hi } else { s.lo };
        return Interval {
            lo: s.lo,
            hi: i64::from(last).max(e) as i32,
        };
    }
    if falls(comparison) {
        let last = if is_moved { s.lo } else { s.hi };
        return Interval {
            lo: i64::from(last).min(e) as i32,
            hi: s.hi,
        };
    }
    Interval::FULL
}

// The tested variable after the loop, by its step.
#[tactic(auto, unfolding(rules::specs::Ranges::by_step, rules::specs::Values::lowest, rules::specs::Values::highest))]
fn by_step(step: Step, up: bool, s: Interval) -> Interval
    ensures { range_of result ≡ by_step step up (range_of s) }
{
    let grown = Interval {
        hi: Interval::FULL.hi,
        ..s
    };
    match step {
        Step::Add(_, _) if !up => Interval {
            lo: Interval::FULL.lo,
            ..s
        },
        Step::Add(_, _) | Step::Grow(_, _) => grown,
        Step::Shrink(_, _) => s.with_zero(),
        Step::Unknown => Interval::FULL,
    }
}

// The tested variable's range after the loop, from its range at the start.
#[tactic(auto, unfolding(rules::specs::Ranges::outside_range, rules::specs::Values::lowest, rules::specs::Values::highest))]
pub fn outside_interval(step: Step, comparison: Comparison, s: Interval) -> Interval
    ensures { range_of result ≡ outside_range step (sort comparison) (range_of s) }
{
    match comparison {
        Comparison::Less | Comparison::AtMost => by_step(step, true, s),
        Comparison::Greater | Comparison::AtLeast => by_step(step, false, s),
        Comparison::Equal | Comparison::Different => Interval::FULL,
    }
}
