// The state of a live run, 64 numbers that the caller holds: question 21, what they say, and what is written.
#![tactic(auto)]

ghost use Rattle.std.specs.Prelude.{◌≡◌, ◌&&◌, List, [], ◌∷◌, ◌++◌, ℕ, ◌+◌, ◌-◌, ◌*◌, ◌≤◌, ◌<◌, leb, length, take, drop, replicate};
ghost use Rattle.rules.specs.Blocks.{view_of, kind_of};
ghost use Rattle.rules.specs.Verdicts.{verdict_of, refused};
ghost use Rattle.rules.specs.Report.{line_of};
ghost use Rattle.rules.specs.Scripts.{Script};
ghost use Rattle.rules_frames.specs.InTime.{dearest};
ghost use Rattle.rules_live.specs.LiveState.{at, is_cue, is_pick_row, left_fits, zero_checks, loop_checks, head_checks, first_no, state_verdict};
ghost use Rattle.rules_live.specs.LiveState.{row_fits, phase_fits};
ghost use Rattle.analysis_lines.specs.Coded.{first_lines};
ghost use Rattle.run_actions.specs.States.{count_in};
ghost use Rattle.live_state.specs.Numbers.{is_end_number, ends_loop_at, RowsIn, StateAsked};
ghost use Rattle.live_state.specs.Numbers.{status_in, given_at, machine_in, AllHoldTurns, counts_in};
ghost use Rattle.live_state.specs.Numbers.{due_number, head_numbers, LoopPut, WrittenAs};

use analysis_lines::line_at;
use rules::{ALL, Ending, Kind, LoopCount, LoopLine, MOST, Prices, Refusal, TURNS, Verdict};
use run_actions::{Machine, Status};
use run_loops::Loops;
use table::{PricedRows, kind_at};

// How many numbers a state has.
pub const STATE: usize = 64;

// The places of the first six.
pub const STATUS: usize = 0;

pub const ROW: usize = 1;

pub const TEST_DUE: usize = 2;

pub const LEFT: usize = 3;

pub const TICKS: usize = 4;

pub const USED: usize = 5;

// From here on ten that say nothing.
pub const NOTHING: usize = 6;

// Then, for each loop in row order, turns, all turns and the most in one entry.
pub const LOOPS: usize = 16;

pub const EACH_LOOP: usize = 3;

// What the first number says.
pub const GOING: u64 = 0;

pub const WAITS: u64 = 1;

pub const FULL: u64 = 2;

pub const ENDED: u64 = 3;

pub const RANGE: u64 = 4;

// What the third number says where a test is due.
pub const DUE: u64 = 1;

// The number of the question.
pub const QUESTION: u32 = 21;

fn is_pick(kind: Kind) -> bool
    ensures { (text : List ℕ) → result ≡ is_pick_row (view_of (kind_of text kind)) }
{
    matches!(kind, Kind::Pick)
}

fn is_cue(kind: Kind) -> bool
    ensures { (text : List ℕ) → result ≡ is_cue (view_of (kind_of text kind)) }
{
    matches!(kind, Kind::Cue(_))
}

fn is_end(kind: Kind) -> bool
    ensures { (text : List ℕ) → result ≡ is_end_number (view_of (kind_of text kind)) }
{
    matches!(kind, Kind::End)
}

// May a script of this status stand at row i?
fn row_fits(rows: &[u32], count: usize, status: u64, i: usize) -> bool
    requires { (count ≤ 256) × (length rows.now ≡ 1_024) }
    ensures { (script : Script) → RowsIn script rows.now count → result ≡ row_fits script status i }
{
    if status == GOING {
        return i <= count;
    }
    if status == ENDED {
        return i == count;
    }
    if count <= i {
        return false;
    }
    if status == WAITS {
        return is_pick(kind_at(rows, i));
    }
    if status == FULL {
        return is_cue(kind_at(rows, i));
    }
    true
}

// Is row i the `end` of a loop?
fn ends_loop(rows: &[u32], count: usize, i: usize) -> bool
    requires { ((script : Script) × RowsIn script rows.now count) × (i < count) }
    ensures { (script : Script) → RowsIn script rows.now count → result ≡ ends_loop_at script i }
{
    if !is_end(kind_at(rows, i)) {
        return false;
    }
    run_loops::is_loop(rows, table::partner_at(rows, i))
}

// May a test be due, or not due, there?
fn phase_fits(rows: &[u32], count: usize, status: u64, i: usize, due: u64) -> bool
    requires { (script : Script) × RowsIn script rows.now count }
    ensures { (script : Script) → RowsIn script rows.now count → result ≡ phase_fits script status i due }
{
    if due == 0 {
        return true;
    }
    if status != GOING {
        return false;
    }
    if due != DUE {
        return false;
    }
    if count <= i {
        return false;
    }
    ends_loop(rows, count, i)
}

// The dearest price.
fn dearest_of(prices: Prices) -> u64
    ensures { result ≡ dearest prices }
{
    prices
        .arithmetic
        .max(prices.cue)
        .max(prices.pick.max(prices.test))
}

// May it have so much left?
fn left_fits(prices: Prices, status: u64, left: u64) -> bool
    ensures { result ≡ left_fits prices status left }
{
    if status <= FULL {
        return left < dearest_of(prices);
    }
    left == 0
}

// No to the question, at a place of the state.
fn no(place: usize) -> Verdict
    ensures { verdict_of result ≡ refused 21 place }
{
    Err(Refusal {
        number: QUESTION,
        place,
    })
}

// The first six numbers.
fn ask_head(state: &[u64], rows: &[u32], script: PricedRows, ticks: u64) -> Verdict
    requires { ((s : Script) × RowsIn s rows.now script.count) × (length state.now ≡ 64) }
    ensures { ((s : Script) → RowsIn s rows.now script.count
        → verdict_of result ≡ first_no 0 (head_checks script.prices s ticks state.now)) }
{
    let status = state[STATUS];
    let row = state[ROW] as usize;
    if status > RANGE {
        return no(STATUS);
    }
    if !row_fits(rows, script.count, status, row) {
        return no(ROW);
    }
    if !phase_fits(rows, script.count, status, row, state[TEST_DUE]) {
        return no(TEST_DUE);
    }
    if !left_fits(script.prices, status, state[LEFT]) {
        return no(LEFT);
    }
    if state[TICKS] > ticks {
        return no(TICKS);
    }
    if state[USED] > state[TICKS] {
        return no(USED);
    }
    Ok(())
}

// Are the numbers from one place to another 0?
fn ask_zeros(state: &[u64], from: usize, to: usize) -> Verdict
    requires { (from ≤ to) × (to ≤ length state.now) }
    ensures { verdict_of result ≡ first_no from (zero_checks (take (to - from) (drop from state.now))) }
{
    for j in from..to {
        if state[j] != 0 {
            return no(j);
        }
    }
    Ok(())
}

// All turns of a loop: no fewer than those of the current entry, no more than its line's total.
fn all_fit(turns: u64, all: u64, total: u64) -> bool
    ensures { result ≡ (leb turns all && leb all total) }
{
    turns <= all && all <= total
}

// The most in one entry: no fewer than those of the current one, no more than all and than its line's turns.
fn most_fit(turns: u64, most: u64, all: u64, limit: u64) -> bool
    ensures { result ≡ (leb turns most && (leb most all && leb most limit)) }
{
    turns <= most && (most <= all && most <= limit)
}

// The three numbers of a loop, from place j on.
fn ask_loop(state: &[u64], j: usize, line: LoopLine) -> Verdict
    requires { j + 2 < length state.now }
    ensures { verdict_of result ≡ first_no j (loop_checks (line_of line ∷ []) (drop j state.now)) }
{
    let turns = state[j + TURNS];
    let all = state[j + ALL];
    let most = state[j + MOST];
    if turns > line.turns {
        return no(j + TURNS);
    }
    if !all_fit(turns, all, line.total) {
        return no(j + ALL);
    }
    if !most_fit(turns, most, all, line.turns) {
        return no(j + MOST);
    }
    Ok(())
}

// Those of all loops.
fn ask_loops(state: &[u64], lines: &[[u64; 7]; 16], loops: usize) -> Verdict
    requires { (length state.now ≡ 64) × (loops ≤ 16) × (length lines.now ≡ 16) }
    ensures { verdict_of result ≡ first_no 16 (loop_checks (first_lines lines.now loops) (drop 16 state.now)) }
{
    for k in 0..loops {
        ask_loop(state, LOOPS + EACH_LOOP * k, line_at(lines, k))?;
    }
    Ok(())
}

// 21 of a script in a table, with its report's ticks and lines.
pub fn ask_state(
    state: &[u64],
    rows: &[u32],
    script: PricedRows,
    ticks: u64,
    lines: &[[u64; 7]; 16],
    loops: usize,
) -> Verdict
    requires { (s : Script) × StateAsked script.prices s rows.now script.count ticks lines.now loops }
    ensures { ((s : Script) → StateAsked script.prices s rows.now script.count ticks lines.now loops
        → verdict_of result ≡ state_verdict script.prices s state.now) }
{
    if state.len() != STATE {
        return no(STATE);
    }
    ask_head(state, rows, script, ticks)?;
    ask_zeros(state, NOTHING, LOOPS)?;
    ask_loops(state, lines, loops)?;
    ask_zeros(state, LOOPS + EACH_LOOP * loops, STATE)
}

// How a machine stands by the status of a state. Full, it goes on.
fn status_in(status: u64, row: usize) -> Status
    ensures { result ≡ status_in status row }
{
    if status == WAITS {
        return Status::Over(Ending::NoPick, row);
    }
    if status <= FULL {
        return Status::Going;
    }
    if status == ENDED {
        return Status::Over(Ending::Ended, row);
    }
    Status::Over(Ending::Range, row)
}

// What a step gives it: a finished script gets nothing.
fn given(status: u64, q: u64) -> u64
    ensures { result ≡ given_at status q }
{
    if status <= FULL { q } else { 0 }
}

// Where a state that 21 has passed stands, with q ticks more and no byte used.
pub fn machine_in(state: &[u64], q: u64) -> Machine
    requires { (length state.now ≡ 64) × (at state.now 3 ≤ 1_000) × (q ≤ 1_000_000) }
    ensures { result ≡ machine_in state.now q }
{
    let status = state[STATUS];
    let row = state[ROW] as usize;
    Machine {
        row,
        testing: state[TEST_DUE] != 0,
        left: state[LEFT] + given(status, q),
        used: 0,
        status: status_in(status, row),
    }
}

// Its counts: the turns of the current entry, all turns of the entries before it, the most in one.
pub fn counts_in(state: &[u64], loops: usize) -> [[u64; 3]; 16]
    requires { (length state.now ≡ 64) × (loops ≤ 16) × AllHoldTurns loops state.now }
    ensures { (take loops result ≡ counts_in loops (drop 16 state.now)) × (length result ≡ 16) }
{
    let none: [u64; 3] = [0; 3];
    let mut counts = [none; 16];
    for k in 0..loops {
        let j = LOOPS + EACH_LOOP * k;
        let turns = state[j + TURNS];
        counts[k] = [turns, state[j + ALL] - turns, state[j + MOST]];
    }
    counts
}

// What is written of a script beside its loops: a finished one has nothing left.
#[derive(Clone, Copy)]
pub struct Standing {
    pub status: u64,
    pub row: usize,
    pub due: bool,
    pub left: u64,
    pub ticks: u64,
    pub used: u64,
}

// All numbers become 0.
pub fn clear(state: &mut [u64])
    requires { length state.old ≡ 64 }
    ensures { state.new ≡ replicate 64 0 }
{
    state.fill(0);
}

fn due_number(due: bool) -> u64
    ensures { result ≡ due_number due }
{
    if due { DUE } else { 0 }
}

// The first six numbers: no more ticks than the report's, no more bytes than ticks.
fn put_head(state: &mut [u64], standing: Standing, total: u64)
    requires { state.old ≡ replicate 64 0 }
    ensures { state.new ≡ head_numbers standing total ++ replicate 48 0 }
{
    let spent = standing.ticks.min(total);
    state[STATUS] = standing.status;
    state[ROW] = standing.row as u64;
    state[TEST_DUE] = due_number(standing.due);
    state[LEFT] = standing.left;
    state[TICKS] = spent;
    state[USED] = standing.used.min(spent);
}

// The three numbers of a loop from place j on, cut to its line.
fn put_loop(state: &mut [u64], j: usize, line: LoopLine, count: LoopCount, turns: u64)
    requires { j + 2 < length state.old }
    ensures { LoopPut (line_of line) turns count.all count.most j state.old state.new }
{
    let all = count.all.min(line.total);
    let most = count.most.min(line.turns).min(all);
    state[j + TURNS] = turns.min(most);
    state[j + ALL] = all;
    state[j + MOST] = most;
}

// The turns of the current entry of loop k.
fn turns_of(counts: &[[u64; 3]; 16], k: usize) -> u64
    requires { k < 16 }
    ensures { result ≡ count_in counts.now k 0 }
{
    counts[k][TURNS]
}

// The numbers of a script that stands so, with the ticks and the lines of its report.
pub fn write_state(
    state: &mut [u64],
    standing: Standing,
    total: u64,
    lines: &[[u64; 7]; 16],
    loops: Loops,
    counts: &[[u64; 3]; 16],
)
    requires { (length state.old ≡ 64) × (loops.count ≤ 16) × (length lines.now ≡ 16) × (length counts.now ≡ 16) }
    ensures { WrittenAs standing total (first_lines lines.now loops.count) loops counts.now state.new }
{
    clear(state);
    put_head(state, standing, total);
    let listed = loops.counts;
    let many = loops.count;
    for k in 0..many {
        put_loop(
            state,
            LOOPS + EACH_LOOP * k,
            line_at(lines, k),
            listed[k],
            turns_of(counts, k),
        );
    }
}
