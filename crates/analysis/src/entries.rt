// Entering and leaving a loop: its questions 19 and 8 to 12, its line, and the passes of its body.
ghost use Rattle.std.specs.Option.{is_some};
ghost use Rattle.std.specs.Prelude.{◌≡◌, not, ◌&&◌, List, ℕ, ◌+◌, ◌*◌, ◌≤◌, ◌<◌, length};
ghost use Rattle.rules.specs.Bounds.{FinePrices};
ghost use Rattle.rules.specs.Steps.{starts};
ghost use Rattle.table.specs.Code.{kind_at, rows_of};
ghost use Rattle.analysis_steps.specs.Tree.{form_of, test_of};
ghost use Rattle.analysis_steps.specs.Body.{AtLoop};
ghost use Rattle.analysis_intervals.specs.Env.{env_of, range_of};
ghost use Rattle.analysis_ticks.specs.Rounds.{FineRound};
ghost use Rattle.analysis.specs.Tallies.{with_lent};
ghost use Rattle.analysis.specs.Enter.{ExitOf, PassCountsOf, Entered, LeftLoop};
ghost use Rattle.analysis.specs.Known.{is_full, not_known, NotedFor};

use crate::tallies::{Tally, closed, last_ticks, lined};
use analysis_intervals::{Interval, interval_at};
use analysis_loops::{Loop, loop_at};
use analysis_ranges::transfer::{at_start, widen};
use analysis_ranges::{inside, outer};
use analysis_steps::variable_set::VariableSet;
use analysis_ticks::passes::{Round, body, walked};
use analysis_ticks::{loop_ticks, plus, times};
use analysis_turns::ask;
use rules::{Kind, Prices, Refusal};
use table::kind_at;

// How often a loop's passes are taken as they are walked: in its longest entry, and in all passes of the loop round it; and how many
// are walked.
#[derive(Clone, Copy)]
pub struct PassCounts {
    pub own: u64,
    pub all: u64,
    pub tests: u64,
}

// Of a loop of these turns, inner the passes of its body: once in each of `count` passes if it sums, else `all` in these.
fn pass_counts(inner: Round, turns: u64, all: u64, count: u64) -> PassCounts
    ensures { PassCountsOf (is_some inner.x) inner.count turns all count result }
{
    let tests = inner.count;
    if inner.x.is_some() {
        PassCounts {
            own: 1,
            all: count,
            tests,
        }
    } else {
        PassCounts {
            own: turns,
            all,
            tests,
        }
    }
}

// Is v, kept before a loop, kept after its start?
fn kept_at(kind: Kind, v: u8, kept: bool) -> bool
    ensures { (text : List ℕ) → result ≡ kept && not (starts v (form_of text kind) (test_of text kind)) }
{
    match kind {
        Kind::For(w, _, _, _, _) => kept && v != w,
        _ => kept,
    }
}

// What leaves a loop: its tested variable and the range of that one after the loop, the variables that its body assigns, and how often its
// passes are taken.
#[derive(Clone, Copy)]
pub struct Exit {
    pub tested: u8,
    pub mine: Interval,
    pub set: VariableSet,
    pub ran: PassCounts,
}

fn exit_of(one: Loop, ran: PassCounts) -> Exit
    ensures { ExitOf one ran result }
{
    Exit {
        tested: one.tested,
        mine: outer(one.trip),
        set: one.set,
        ran,
    }
}

// A loop that has been entered: what leaves it, the passes of its body, and what has been found, its line with it.
#[derive(Clone, Copy)]
pub struct LoopEntry {
    pub exit: Exit,
    pub round: Round,
    pub first: Tally,
}

// From the ranges before the loop at row t.next to those at its body's start: its questions 19 and 8 to 12, then its line.
pub fn enter_loop(
    text: &[u8],
    rows: &[u32],
    count: usize,
    round: Round,
    prices: Prices,
    lines: &mut [[u64; 7]; 16],
    t: Tally,
    r: &mut [[i32; 2]; 16],
) -> Result<LoopEntry, Refusal>
    requires { AtLoop text.now (rows_of rows.now) count t.next × FineRound round × FinePrices prices × (t.loops < 16)
        × (length lines.old ≡ 16) }
    ensures { (os : List ℕ) → Entered text.now prices (rows_of rows.now) count t.next round
        (env_of r.old) (with_lent t lines.old os) r.new result lines.new os }
{
    let i = t.next;
    let kind = kind_at(rows, i);
    at_start(text, r, kind);
    let one = loop_at(text, rows, count, i, r);
    let trip = one.trip;
    match ask(trip) {
        Err(number) => Err(Refusal { number, place: i }),
        Ok(turns) => {
            let kept = kept_at(kind, round.v, t.kept);
            let all = walked(kind, trip, turns, round, kept);
            let total = times(all, round.times);
            let inner = body(trip, one.tested, turns, total, round);
            let spent = inner.count * last_ticks(kind, prices);
            let first = lined(lines, t, trip, turns, total, spent, inner.x.is_some());
            let exit = exit_of(one, pass_counts(inner, turns, all, round.count));
            inside(r, one);
            Ok(LoopEntry {
                exit,
                round: inner,
                first,
            })
        }
    }
}

// From the ranges at the start of the body of the loop at row t.next to those after it, and what is found after its body, which ends at
// row body.next.
pub fn leave_loop(
    rows: &[u32],
    exit: Exit,
    round: Round,
    prices: Prices,
    own: &mut [u64],
    t: Tally,
    body: Tally,
    r: &mut [[i32; 2]; 16],
) -> Tally
    requires { (4 * t.next + 3 < length rows.now) × (exit.tested < 16) × (body.next < 256)
        × (t.spent ≤ 1_000_000_000_001) × (body.spent ≤ 1_000_000_000_001)
        × FinePrices prices × FineRound round × (exit.ran.tests ≤ 4_096) }
    ensures { LeftLoop prices (kind_at (rows_of rows.now) t.next) exit round t body own.old
        (env_of r.old) r.new result own.new }
{
    widen(r, exit.set, exit.mine, exit.tested);
    let kind = kind_at(rows, t.next);
    let ran = exit.ran;
    let inner = plus(body.spent, ran.tests * prices.test);
    let ticks = loop_ticks(kind, prices, 1, ran.own, inner);
    let all = loop_ticks(kind, prices, round.count, ran.all, inner);
    let kept = kept_at(kind, round.v, t.kept) && !exit.set.contains(round.v);
    closed(own, t, body, body.next, ticks, all, kept)
}

// A variable of this range is not known.
#[tactic(auto, unfolding(rules::specs::Values::lowest, rules::specs::Values::highest), using(ints::proofs::Parts::signed))]
fn is_full(s: Interval) -> bool
    ensures { result ≡ is_full (range_of s) }
{
    s.lo == Interval::FULL.lo && s.hi == Interval::FULL.hi
}

// The variables that are not known: the sum of 2^v.
fn not_known(r: &[[i32; 2]; 16]) -> u64
    ensures { result ≡ not_known 16 (env_of r.now) }
{
    let mut sum: u64 = 0;
    let mut bit: u64 = 1;
    for v in 0..16 {
        if is_full(interval_at(r, v)) {
            sum += bit;
        }
        bit *= 2;
    }
    sum
}

// The same where it is noted: what is lent for it has some places.
pub fn to_note(places: usize, r: &[[i32; 2]; 16]) -> u64
    ensures { NotedFor places (env_of r.now) result }
{
    if places == 0 { 0 } else { not_known(r) }
}
