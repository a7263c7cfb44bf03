// The turns of a loop with what comes before its first counted test.
ghost use Rattle.std.specs.Prelude.{◌≡◌, ◌≤◌};
ghost use Rattle.rules.specs.Ranges.{sort};
ghost use Rattle.rules.specs.Trips.{misses, is_zero, led};
ghost use Rattle.analysis_intervals.specs.Env as env;
ghost use Rattle.analysis_loops.specs.Found.{lead_of};

use analysis_intervals::Interval;
use analysis_intervals::comparisons::{falls, rises};
use analysis_loops::trips::Lead;
use rules::Comparison;

// Does even the best start fail the test?
fn misses(comparison: Comparison, s: Interval, e: i64) -> bool
    ensures { result ≡ misses (sort comparison) (env.range_of s) e }
{
    if rises(comparison) {
        e < i64::from(s.lo)
    } else if falls(comparison) {
        i64::from(s.hi) < e
    } else {
        false
    }
}

// [0, 0]
#[tactic(auto, using(ints::proofs::Parts::signed))]
fn is_zero(s: Interval) -> bool
    ensures { result ≡ is_zero (env.range_of s) }
{
    s.lo == 0 && s.hi == 0
}

// The turns from the first counted test on, with what comes before it.
#[tactic(auto, unfolding(rules::specs::Trips::led))]
pub fn led(lead: Lead, comparison: Comparison, e: i64, more: u64) -> u64
    requires { more ≤ 2_048_000_000_001 }
    ensures { result ≡ led (lead_of lead) (sort comparison) e more }
{
    match lead {
        Lead::Nothing => more,
        Lead::Untested => more + 1,
        Lead::Tries(s) => {
            if misses(comparison, s, e) {
                0
            } else {
                more + 1
            }
        }
        Lead::Flag(s) => { if is_zero(s) { 0 } else { more + 1 } }
    }
}
