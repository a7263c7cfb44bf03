// The two calls on a script that has been read: its report, and its run.
#![tactic(auto)]

pub mod figures;
pub mod prices;

ghost use Rattle.std.specs.Prelude.{◌≡◌, ◌&&◌, List, ℕ, ◌≤◌, length, take};
ghost use Rattle.std.specs.Int.Signed.{le_z};
ghost use Rattle.rules.specs.Bounds.{FinePrices};
ghost use Rattle.rules.specs.Scripts.{pair_ranges};
ghost use Rattle.rules.specs.Calls.{Priced, store_verdict, run_reply};
ghost use Rattle.rules.specs.Claim.{Demand3Of};
ghost use Rattle.analysis.specs.Whole.{AnalysisOf};
ghost use Rattle.run_machine.specs.Steps.{script_in};
ghost use Rattle.runner.specs.Answered.{MayRun};
ghost use Rattle.calls.specs.Held.{read_script, Given, judged_script, admitted};
ghost use Rattle.calls.specs.Told.{MeasuredAs, RanAs, ending_in, ticks_in, counts_in, ran_rows};
ghost use Rattle.rules.specs.Verdicts.{verdict_of, refused};
ghost use Rattle.analysis.specs.Whole.{analysis_answer};

use crate::prices::prices_of;
use analysis::Figures;
use reader::Loaded;
use rules::{Ending, LoopCount, Prices, Refusal, Verdict};

// What a report call answers, its length or a refusal, and the script's ticks: 0 of a refused one, but not of one that 14 refuses.
#[derive(Clone, Copy, Debug, PartialEq, Eq)]
pub struct Measured {
    pub reply: Result<usize, Refusal>,
    pub ticks: u64,
}

// The report call: the questions 19 and 8 to 14, the report in the buffer, and its ticks.
pub fn measure_script(
    text: &[u8],
    rows: &[u32],
    script: Loaded,
    ranges: [[i32; 2]; 16],
    prices: &[u32],
    buffer: &mut [u8],
) -> Measured
    requires { Given text.now rows.now script ranges × Priced prices.now }
    ensures { MeasuredAs prices.now
        (judged_script prices.now (read_script text.now rows.now script ranges)) buffer.old
        buffer.new result }
{
    let mut lines = [[0u64; 7]; 16];
    let mut own = [0u64; 0];
    let by_kind = prices_of(prices);
    let count = script.count;
    match analysis::analyse(text, rows, count, ranges, by_kind, &mut lines, &mut own) {
        Ok(figures) => Measured {
            reply: report::write_report(count, &lines, figures.loops, figures.ticks, buffer),
            ticks: figures.ticks,
        },
        Err(refusal) => Measured {
            reply: Err(refusal),
            ticks: 0,
        },
    }
}

// Is x between lo and hi?
fn between(lo: i32, x: i32, hi: i32) -> bool
    ensures { result ≡ (le_z lo x && le_z x hi) }
{
    lo <= x && x <= hi
}

// No to 15, at an index of the store.
fn wrong_at(place: usize) -> Verdict
    ensures { verdict_of result ≡ refused 15 place }
{
    Err(Refusal { number: 15, place })
}

// 15: the first index of the store that is wrong, missing or extra.
pub fn ask_store(vars: usize, ranges: &[[i32; 2]; 16], store: &[i32]) -> Verdict
    requires { (vars ≤ 16) × (length ranges.now ≡ 16) }
    ensures { verdict_of result ≡ store_verdict 0 (take vars (pair_ranges ranges.now)) store.now }
{
    for i in 0..vars {
        if i >= store.len() {
            return wrong_at(i);
        }
        if !between(ranges[i][0], store[i], ranges[i][1]) {
            return wrong_at(i);
        }
    }
    if vars < store.len() {
        return wrong_at(vars);
    }
    Ok(())
}

// What a run comes to: its ending and the row there, its ticks, the bytes used, and its loops with their counts.
#[derive(Clone, Copy, Debug, PartialEq, Eq)]
pub struct Outcome {
    pub ending: Ending,
    pub row: usize,
    pub ticks: u64,
    pub used: usize,
    pub loops: usize,
    pub counts: [LoopCount; 16],
}

// The run of an accepted script from a store inside its ranges.
fn run_accepted(
    text: &[u8],
    rows: &[u32],
    count: usize,
    prices: Prices,
    store: &mut [i32],
    picks: &[u8],
    allowance: u64,
) -> Outcome
    requires { MayRun text.now prices rows.now count store.old allowance }
    ensures { RanAs (ran_rows prices (script_in text.now rows.now count) store.old
        picks.now allowance) store.old store.new (Ok result) }
{
    let mut turns: [[u64; 3]; 16] = [[0; 3]; 16];
    let ran = runner::run_rows(
        text, rows, count, prices, store, picks, allowance, &mut turns,
    );
    let loops = run_loops::loops_of(rows, count, &turns);
    let counts = loops.counts;
    Outcome {
        ending: ran.ending,
        row: ran.row,
        ticks: ran.ticks,
        used: ran.used,
        loops: loops.count,
        counts,
    }
}

// The questions 19 and 8 to 13 of a script, and its ticks. The report's lines are gone when it is done; nothing is lent for own ticks.
pub fn figures_of(
    text: &[u8],
    rows: &[u32],
    script: Loaded,
    ranges: [[i32; 2]; 16],
    prices: Prices,
) -> Result<Figures, Refusal>
    requires { Given text.now rows.now script ranges × FinePrices prices }
    ensures { (lines : List (List ℕ)) × AnalysisOf prices (read_script text.now rows.now script ranges)
        script.count (analysis_answer result) lines }
{
    let mut lines = [[0u64; 7]; 16];
    let mut own = [0u64; 0];
    analysis::analyse(
        text,
        rows,
        script.count,
        ranges,
        prices,
        &mut lines,
        &mut own,
    )
}

// The questions 19, 8 to 13 and 15 of a script, and no run.
pub fn ask_script(
    text: &[u8],
    rows: &[u32],
    script: Loaded,
    ranges: [[i32; 2]; 16],
    prices: &[u32],
    store: &[i32],
) -> Verdict
    requires { Given text.now rows.now script ranges × Priced prices.now }
    ensures { verdict_of result ≡ admitted (judged_script prices.now
        (read_script text.now rows.now script ranges)) store.now }
{
    figures_of(text, rows, script, ranges, prices_of(prices))?;
    ask_store(script.vars, &ranges, store)
}

// The run call: the questions 19, 8 to 13 and 15, and the run. A refusal leaves the store as it was.
pub fn run_script(
    text: &[u8],
    rows: &[u32],
    script: Loaded,
    ranges: [[i32; 2]; 16],
    prices: &[u32],
    store: &mut [i32],
    picks: &[u8],
    allowance: u64,
) -> Result<Outcome, Refusal>
    requires { Given text.now rows.now script ranges × Priced prices.now }
    ensures run { RanAs (run_reply prices.now
        (judged_script prices.now (read_script text.now rows.now script ranges)) store.old
        picks.now allowance) store.old store.new result }
    ensures demand3 { Demand3Of prices.now
        (judged_script prices.now (read_script text.now rows.now script ranges)) store.old
        picks.now allowance (ending_in result) (ticks_in result) (counts_in result) }
{
    let by_kind = prices_of(prices);
    let figures = figures_of(text, rows, script, ranges, by_kind)?;
    ask_store(script.vars, &ranges, &store[..])?;
    Ok(run_accepted(
        text,
        rows,
        script.count,
        by_kind,
        store,
        picks,
        allowance.min(figures.ticks),
    ))
}
