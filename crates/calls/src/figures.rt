// What a report says, as numbers: its ticks, and each loop's line.
ghost use Rattle.std.specs.Prelude.{◌≡◌, map, ◌≤◌, length, take, drop};
ghost use Rattle.rules.specs.Calls.{Priced};
ghost use Rattle.rules.specs.Report.{first_end, second_end, line_of};
ghost use Rattle.analysis_lines.specs.Coded.{first_lines};
ghost use Rattle.calls.specs.Held.{read_script, Given, judged_script};
ghost use Rattle.calls.specs.Figures.{twos, step_number, flag_number, line_numbers, LinesTold, FiguresAs};

use crate::prices::prices_of;
use analysis_lines::line_at;
use reader::Loaded;
use rules::{LoopLine, Refusal};
use rules_steps::Step;

// A number of 64 bits that may be below 0, as C casts it.
fn twos_complement(a: i64) -> u64
    ensures { result ≡ twos a }
{
    let n = report::size(a);
    if a < 0 {
        return 18_446_744_073_709_551_615 - (n - 1);
    }
    n
}

// 0 for add, 1 for grow, 2 for shrink.
fn step_number(step: Step) -> u64
    ensures { result ≡ step_number step }
{
    match step {
        Step::Add(_, _) => 0,
        Step::Grow(_, _) => 1,
        Step::Shrink(_, _) => 2,
        Step::Unknown => 3,
    }
}

// The first end of a step.
fn first_end(step: Step) -> u64
    ensures { result ≡ twos (first_end step) }
{
    match step {
        Step::Add(a, _) => twos_complement(a),
        Step::Grow(f, _) => f,
        Step::Shrink(f, _) => f,
        Step::Unknown => 0,
    }
}

// The second one.
fn second_end(step: Step) -> u64
    ensures { result ≡ twos (second_end step) }
{
    match step {
        Step::Add(_, b) => twos_complement(b),
        Step::Grow(_, g) => g,
        Step::Shrink(_, g) => g,
        Step::Unknown => 0,
    }
}

// 1 for exact.
fn flag(exact: bool) -> u64
    ensures { result ≡ flag_number exact }
{
    if exact { 1 } else { 0 }
}

// A line as seven numbers.
fn line_numbers(line: LoopLine) -> [u64; 7]
    ensures { result ≡ line_numbers (line_of line) }
{
    let step = line.step;
    [
        line.row as u64,
        step_number(step),
        first_end(step),
        second_end(step),
        line.turns,
        line.total,
        flag(line.exact),
    ]
}

// The first `loops` lines of the analysis' table, each told as its numbers.
fn tell_lines(lines: &mut [[u64; 7]; 16], loops: usize)
    requires { (loops ≤ 16) × (length lines.old ≡ 16) }
    ensures { LinesTold loops lines.old lines.new }
{
    for k in 0..loops {
        lines[k] = line_numbers(line_at(lines, k));
    }
}

// What a script's report says: its ticks, and how many variables and loops it has.
#[derive(Clone, Copy, Debug, PartialEq, Eq)]
pub struct Figures {
    pub ticks: u64,
    pub vars: usize,
    pub loops: usize,
}

// The figures of a script, with the numbers of its loops in the first lines of the lent table.
pub fn figures_script(
    text: &[u8],
    rows: &[u32],
    script: Loaded,
    ranges: [[i32; 2]; 16],
    prices: &[u32],
    lines: &mut [[u64; 7]; 16],
) -> Result<Figures, Refusal>
    requires { Given text.now rows.now script ranges × Priced prices.now × (length lines.old ≡ 16) }
    ensures { FiguresAs prices.now (judged_script prices.now
        (read_script text.now rows.now script ranges)) lines.new result }
{
    let mut own = [0u64; 0];
    let found = analysis::analyse(
        text,
        rows,
        script.count,
        ranges,
        prices_of(prices),
        lines,
        &mut own,
    )?;
    tell_lines(lines, found.loops);
    Ok(Figures {
        ticks: found.ticks,
        vars: script.vars,
        loops: found.loops,
    })
}
