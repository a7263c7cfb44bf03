// What the walk over the rows carries from row to row.
ghost use Rattle.std.specs.Prelude.{◌≡◌, List, ℕ, ◌+◌, ◌*◌, ◌≤◌, ◌<◌, length, set};
ghost use Rattle.rules_steps.specs.Ends.{EndsWithin};
ghost use Rattle.rules.specs.Bounds.{FinePrices};
ghost use Rattle.rules.specs.Figures.{price};
ghost use Rattle.table.specs.Code.{kind_at, rows_of};
ghost use Rattle.table.specs.Shapes.{shape_of, plain_of};
ghost use Rattle.analysis_loops.specs.Found.{trip_of};
ghost use Rattle.analysis_ticks.specs.Rounds.{FineRound};
ghost use Rattle.analysis.specs.Tallies.{with_lent, last_ticks, PlainNext, PastPlain};
ghost use Rattle.analysis.specs.Tallies.{Restarted, LinePut, ClosedBy, PickClosed};

use analysis_lines::put_line;
use analysis_loops::trips::Trip;
use analysis_steps::sets_it;
use analysis_ticks::passes::Round;
use analysis_ticks::{first_over, plus, times};
use analysis_turns::exact;
use rules::{Kind, LoopLine, Prices};
use table::{Shape, Tag, tag_at};

// What a walk has found: whether the variable of the loop round the block is known and not
// assigned so far, the `end` row of the first block over the limit, the ticks of all passes of one entry of that loop, how many lines there
// are so far, and the row that it looks at next.
#[derive(Clone, Copy)]
pub struct Tally {
    pub kept: bool,
    pub over: Option<usize>,
    pub spent: u64,
    pub loops: usize,
    pub next: usize,
}

// The price of the plain row i.
fn plain_price(rows: &[u32], i: usize, prices: Prices) -> u64
    requires { (4 * i + 3 < length rows.now) × (shape_of (kind_at (rows_of rows.now) i) ≡ Shape.Plain) }
    ensures { (text : List ℕ) → result ≡ price prices (plain_of text (kind_at (rows_of rows.now) i)) }
{
    match tag_at(rows, i) {
        Tag::Cue => prices.cue,
        _ => prices.arithmetic,
    }
}

// A for's step row is the last row of its body.
pub fn last_ticks(kind: Kind, prices: Prices) -> u64
    ensures { (text : List ℕ) → result ≡ last_ticks text prices kind }
{
    match kind {
        Kind::For(_, _, _, _, _) => prices.arithmetic,
        _ => 0,
    }
}

// After the plain row t.next, in all passes.
pub fn past_row(rows: &[u32], prices: Prices, round: Round, t: Tally) -> Tally
    requires { PlainNext rows.now t × FinePrices prices × FineRound round × (t.spent ≤ 1_000_000_000_001) }
    ensures { PastPlain prices round (rows_of rows.now) t result }
{
    let i = t.next;
    let spent = plus(t.spent, round.count * plain_price(rows, i, prices));
    let kept = t.kept && !sets_it(rows, i, round.v);
    Tally {
        kept,
        spent,
        next: i + 1,
        ..t
    }
}

// As many lines, with the ticks of the block that starts at row `at` from the start.
pub fn restarted(t: Tally, at: usize) -> Tally
    ensures { (ls : List (List ℕ)) (os : List ℕ) → Restarted (with_lent t ls os) t.kept 0 at (with_lent result ls os) }
{
    Tally {
        spent: 0,
        next: at,
        ..t
    }
}

// The line of the loop at row t.next put in the table, and its body's ticks from the start.
pub fn lined(
    lines: &mut [[u64; 7]; 16],
    t: Tally,
    trip: Trip,
    turns: u64,
    total: u64,
    spent: u64,
    kept: bool,
) -> Tally
    requires { (t.loops < 16) × (t.next < 256) × (length lines.old ≡ 16) × EndsWithin 512 trip.step }
    ensures { LinePut t lines.old (trip_of trip) turns total spent kept result lines.new }
{
    let line = LoopLine {
        row: t.next,
        step: trip.step,
        turns,
        total,
        exact: exact(trip),
    };
    put_line(lines, t.loops, line);
    Tally {
        kept,
        over: t.over,
        spent,
        loops: t.loops + 1,
        next: t.next + 1,
    }
}

// A number at row i, if what is lent for it has that row.
pub fn put_own(own: &mut [u64], i: usize, x: u64)
    ensures { own.new ≡ set own.old i x }
{
    if i < own.len() {
        own[i] = x;
    }
}

// After the block from row t.next to row e: its own ticks, and those in all passes.
pub fn closed(
    own: &mut [u64],
    t: Tally,
    inner: Tally,
    e: usize,
    ticks: u64,
    all: u64,
    kept: bool,
) -> Tally
    requires { (e < 256) × (t.spent ≤ 1_000_000_000_001) × (ticks ≤ 1_000_000_000_001) × (all ≤ 1_000_000_000_001) }
    ensures { ClosedBy t inner own.old e ticks all kept result own.new }
{
    put_own(own, t.next, ticks);
    Tally {
        kept,
        over: first_over(inner.over, e, ticks),
        spent: plus(t.spent, all),
        loops: inner.loops,
        next: e + 1,
    }
}

// What is found after a pick whose parts found a and b, in `count` passes.
pub fn leave_pick(price: u64, count: u64, own: &mut [u64], t: Tally, a: Tally, b: Tally) -> Tally
    requires { (price ≤ 1_000) × (b.next < 256)
        × (t.spent ≤ 1_000_000_000_001) × (a.spent ≤ 1_000_000_000_001) × (b.spent ≤ 1_000_000_000_001) }
    ensures { PickClosed price count t a b own.old result own.new }
{
    let e = b.next;
    let ticks = plus(price, a.spent.max(b.spent));
    closed(own, t, b, e, ticks, times(count, ticks), b.kept)
}
