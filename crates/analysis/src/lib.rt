// The whole file: the questions 19 and 8 to 13, ticks, and the report's lines.
#![tactic(auto)]

pub mod entries;
pub mod tallies;

ghost use Rattle.std.specs.Prelude.{◌≡◌, ℕ, ◌+◌, ◌*◌, ◌≤◌, ◌<◌, length};
ghost use Rattle.rules.specs.Bounds.{FinePrices};
ghost use Rattle.rules.specs.Written.{Written};
ghost use Rattle.table.specs.Code.{kind_at, rows_of};
ghost use Rattle.table.specs.Shapes.{shape_of};
ghost use Rattle.analysis_intervals.specs.Env.{env_of};
ghost use Rattle.analysis.specs.Tallies.{with_lent};
ghost use Rattle.analysis.specs.Fold.{Walkable, Analysed, IsBlock, AtBlock, PastBlock};
ghost use Rattle.rules.specs.Verdicts.{verdict_of};
ghost use Rattle.analysis.specs.Whole.{analysis_answer, FirstNo, LegalRows, FoundOf};

use crate::entries::{enter_loop, leave_loop, to_note};
use crate::tallies::{Tally, leave_pick, past_row, put_own, restarted};
use analysis_ranges::transfer::{joined, step_row};
use analysis_ticks::LIMIT;
use analysis_ticks::passes::{Round, branch};
use rules::{Prices, Refusal, Verdict};
use table::{PricedRows, Shape, past_else, shape_at};

// The pick at row t.next, from the ranges before it to those after it: its two parts by the walk.
#[cycle(walk_walk_block_walk_loop_walk_pick)]
fn walk_pick(
    text: &[u8],
    rows: &[u32],
    script: PricedRows,
    round: Round,
    lines: &mut [[u64; 7]; 16],
    own: &mut [u64],
    t: Tally,
    r: &mut [[i32; 2]; 16],
) -> Result<Tally, Refusal>
    requires { AtBlock text.now script.prices (rows_of rows.now) script.count t.next Shape.Branch round
        (with_lent t lines.old own.old) r.old }
    ensures { PastBlock text.now script.prices (rows_of rows.now) script.count t.next
        (env_of r.old) round (with_lent t lines.old own.old)
        r.new result lines.new own.new }
{
    let mut first = *r;
    let mut second = *r;
    let part = branch(round);
    let begun = restarted(t, t.next + 1);
    let a = walk(text, rows, script, part, lines, own, begun, &mut first)?;
    let again = restarted(a, past_else(rows, a.next));
    let b = walk(text, rows, script, part, lines, own, again, &mut second)?;
    *r = joined(first, second);
    Ok(leave_pick(script.prices.pick, round.count, own, t, a, b))
}

// The loop at row t.next, from the ranges before it to those after it: its body by the walk.
#[cycle(walk_walk_block_walk_loop_walk_pick)]
fn walk_loop(
    text: &[u8],
    rows: &[u32],
    script: PricedRows,
    round: Round,
    lines: &mut [[u64; 7]; 16],
    own: &mut [u64],
    t: Tally,
    r: &mut [[i32; 2]; 16],
) -> Result<Tally, Refusal>
    requires { AtBlock text.now script.prices (rows_of rows.now) script.count t.next Shape.Loop round
        (with_lent t lines.old own.old) r.old }
    ensures { PastBlock text.now script.prices (rows_of rows.now) script.count t.next
        (env_of r.old) round (with_lent t lines.old own.old)
        r.new result lines.new own.new }
{
    let unknown = to_note(own.len(), r);
    let entered = enter_loop(text, rows, script.count, round, script.prices, lines, t, r)?;
    let mut inside = *r;
    let body = walk(
        text,
        rows,
        script,
        entered.round,
        lines,
        own,
        entered.first,
        &mut inside,
    )?;
    let left = leave_loop(rows, entered.exit, round, script.prices, own, t, body, r);
    put_own(own, body.next, unknown);
    Ok(left)
}

// The pick or loop at row t.next, from the ranges before it to those after it.
#[cycle(walk_walk_block_walk_loop_walk_pick)]
fn walk_block(
    text: &[u8],
    rows: &[u32],
    script: PricedRows,
    round: Round,
    lines: &mut [[u64; 7]; 16],
    own: &mut [u64],
    t: Tally,
    r: &mut [[i32; 2]; 16],
) -> Result<Tally, Refusal>
    requires { AtBlock text.now script.prices (rows_of rows.now) script.count t.next
        (shape_of (kind_at (rows_of rows.now) t.next)) round
        (with_lent t lines.old own.old) r.old × IsBlock (shape_of (kind_at (rows_of rows.now) t.next)) }
    ensures { PastBlock text.now script.prices (rows_of rows.now) script.count t.next
        (env_of r.old) round (with_lent t lines.old own.old)
        r.new result lines.new own.new }
{
    match shape_at(rows, t.next) {
        Shape::Branch => walk_pick(text, rows, script, round, lines, own, t, r),
        _ => walk_loop(text, rows, script, round, lines, own, t, r),
    }
}

// The block that starts at row from.next, from the ranges before it to those after it: its rows from the first, nested blocks by the same
// walk.
#[cycle(walk_walk_block_walk_loop_walk_pick)]
fn walk(
    text: &[u8],
    rows: &[u32],
    script: PricedRows,
    round: Round,
    lines: &mut [[u64; 7]; 16],
    own: &mut [u64],
    from: Tally,
    r: &mut [[i32; 2]; 16],
) -> Result<Tally, Refusal>
    requires { Walkable text.now script.prices (rows_of rows.now) script.count from.next round
        (with_lent from lines.old own.old) }
    ensures { Analysed text.now script.prices (rows_of rows.now) script.count from.next
        (env_of r.old) round (with_lent from lines.old own.old)
        r.new result lines.new own.new }
{
    let mut t = from;
    while t.next < script.count {
        match shape_at(rows, t.next) {
            Shape::Plain => {
                step_row(text, r, rows, t.next);
                t = past_row(rows, script.prices, round, t);
            }
            Shape::Close => {
                return Ok(t);
            }
            _ => {
                t = walk_block(text, rows, script, round, lines, own, t, r)?;
            }
        }
    }
    Ok(t)
}

// 13: the first block before the file.
fn first_no(t: Tally, count: usize) -> Verdict
    ensures { FirstNo t count (verdict_of result) }
{
    if let Some(place) = t.over {
        return Err(Refusal { number: 13, place });
    }
    if LIMIT < t.spent {
        return Err(Refusal {
            number: 13,
            place: count,
        });
    }
    Ok(())
}

// The one pass of a file's rows.
const ALONE: Round = Round {
    count: 1,
    by: 0,
    times: 1,
    v: 0,
    x: None,
};

// Nothing is found yet.
const EMPTY: Tally = Tally {
    kept: false,
    over: None,
    spent: 0,
    loops: 0,
    next: 0,
};

// The figures of a file's report: its ticks, and how many loops it has.
#[derive(Clone, Copy, Debug, PartialEq, Eq)]
pub struct Figures {
    pub ticks: u64,
    pub loops: usize,
}

// The first `count` rows and the ranges of a script that has passed the questions 4 to 7. `own` gets each block's own ticks at its head
// row, and at a loop's end row the variables that are not known before it, as the sum of 2^v; as far as it goes.
pub fn analyse(
    text: &[u8],
    rows: &[u32],
    count: usize,
    ranges: [[i32; 2]; 16],
    prices: Prices,
    lines: &mut [[u64; 7]; 16],
    own: &mut [u64],
) -> Result<Figures, Refusal>
    requires { ((vars : ℕ) × LegalRows text.now ranges (rows_of rows.now) count vars) × (count ≤ 256)
        × (4 * count ≤ length rows.now) × FinePrices prices × (length lines.old ≡ 16) × (length text.now ≤ 16_384)
        × ((i : ℕ) → i < count → Written text.now (kind_at (rows_of rows.now) i)) }
    ensures { FoundOf prices text.now ranges (rows_of rows.now) count
        (analysis_answer result) lines.new own.old own.new }
{
    let script = PricedRows { count, prices };
    let mut r = ranges;
    let t = walk(text, rows, script, ALONE, lines, own, EMPTY, &mut r)?;
    first_no(t, count)?;
    Ok(Figures {
        ticks: t.spent,
        loops: t.loops,
    })
}
