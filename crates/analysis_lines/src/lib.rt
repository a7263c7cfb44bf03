// The report's lines as a table of numbers, seven to a line: a table can be lent to the walk that fills it, and an array of lines cannot.
#![tactic(auto)]

ghost use Rattle.std.specs.Prelude.{◌≡◌, [], ◌<◌, get_or, set};
ghost use Rattle.rules_steps.specs.Ends.{Near, EndsWithin};
ghost use Rattle.analysis_lines.specs.Coded.{end_in, line_step, line_in, lines_in};

use rules::LoopLine;
use rules_steps::Step;

// The numbers that stand for a step's kind: the lent table has numbers alone.
const ADD: u64 = 0;

const GROW: u64 = 1;

const SHRINK: u64 = 2;

const UNKNOWN: u64 = 3;

const MIDDLE: i64 = 1_099_511_627_776;

const MOST: u64 = 2_199_023_255_552;

// An end of the table.
fn end_in(x: u64) -> i64
    ensures { result ≡ end_in x }
{
    x.min(MOST) as i64 - MIDDLE
}

#[tactic(auto, unfolding(crate::specs::Coded::line_step))]
fn step_in(tag: u64, first: u64, second: u64) -> Step
    ensures { result ≡ line_step tag first second }
{
    match tag {
        ADD => Step::Add(end_in(first), end_in(second)),
        GROW => Step::Grow(first, second),
        SHRINK => Step::Shrink(first, second),
        _ => Step::Unknown,
    }
}

// Line k.
pub fn line_at(table: &[[u64; 7]; 16], k: usize) -> LoopLine
    requires { k < 16 }
    ensures { result ≡ get_or (lines_in table.now) k (line_in []) }
{
    let [row, tag, first, second, turns, total, exact] = table[k];
    LoopLine {
        row: row as usize,
        step: step_in(tag, first, second),
        turns,
        total,
        exact: exact == 1,
    }
}

// The number that stands for an end.
fn shifted(a: i64) -> u64
    requires { Near 512 a }
    ensures { end_in result ≡ a }
{
    (a + MIDDLE) as u64
}

// A step's tag and its two ends.
#[derive(Clone, Copy)]
struct StepCode {
    tag: u64,
    first: u64,
    second: u64,
}

#[tactic(auto, unfolding(crate::specs::Coded::line_step))]
fn step_code(step: Step) -> StepCode
    requires { EndsWithin 512 step }
    ensures { line_step result.tag result.first result.second ≡ step }
{
    match step {
        Step::Add(a, b) => StepCode {
            tag: ADD,
            first: shifted(a),
            second: shifted(b),
        },
        Step::Grow(first, second) => StepCode {
            tag: GROW,
            first,
            second,
        },
        Step::Shrink(first, second) => StepCode {
            tag: SHRINK,
            first,
            second,
        },
        Step::Unknown => StepCode {
            tag: UNKNOWN,
            first: 0,
            second: 0,
        },
    }
}

// The line becomes line k.
pub fn put_line(table: &mut [[u64; 7]; 16], k: usize, line: LoopLine)
    requires { (k < 16) × EndsWithin 512 line.step }
    ensures { lines_in table.new ≡ set (lines_in table.old) k line }
{
    let s = step_code(line.step);
    let exact = u64::from(line.exact);
    table[k] = [
        line.row as u64,
        s.tag,
        s.first,
        s.second,
        line.turns,
        line.total,
        exact,
    ];
}
