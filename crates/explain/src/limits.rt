// The number of a line that is outside its limits, and the variable that is not below V.
ghost use Rattle.std.specs.Prelude.{◌≤◌, ◌<◌, length, IfSome};

use crate::marked::print_marked;
use expressions::leaves::digits_at;
use host::Host;
use line_causes::LineKind;

const L: u32 = 1_000_000_000;

// The limits of a line's numbers: from `low` to `high`; `minus`: from -high to high.
#[derive(Clone, Copy)]
pub struct Limits {
    pub minus: bool,
    pub low: u32,
    pub high: u32,
}

// Does a number begin at byte i, after `v` or not?
fn begins(line: &[u8], i: usize, variable: bool) -> bool
    requires { i < length line.now }
{
    if i == 0 {
        return line[i].is_ascii_digit() && !variable;
    }
    let before = line[i - 1];
    line[i].is_ascii_digit() && !before.is_ascii_digit() && (before == b'v') == variable
}

// Does `-` before byte i belong to the number there?
fn is_negative(line: &[u8], i: usize) -> bool
    requires { i < length line.now }
{
    if i < 2 || line[i - 1] != b'-' {
        return false;
    }
    !matches!(line[i - 2], b'0'..=b'9' | b')')
}

// Is the number at byte i outside the limits?
fn is_outside(line: &[u8], i: usize, limits: Limits) -> bool
    requires { i < length line.now }
{
    let value = digits_at(line, i).value;
    if is_negative(line, i) {
        value > limits.high || !limits.minus
    } else {
        value > limits.high || value < limits.low
    }
}

// The first number from byte `from` on that is outside.
pub fn first_outside(line: &[u8], from: usize, variable: bool, limits: Limits) -> Option<usize>
    ensures { IfSome result (λ at. at ≤ length line.now) }
{
    for i in from..line.len() {
        if begins(line, i, variable) && is_outside(line, i, limits) {
            return Some(i);
        }
    }
    None
}

const ANY: Limits = Limits {
    minus: true,
    low: 0,
    high: L,
};

const FROM_0: Limits = Limits {
    minus: false,
    low: 0,
    high: L,
};

const FROM_1: Limits = Limits {
    minus: false,
    low: 1,
    high: L,
};

const CUES: Limits = Limits {
    minus: false,
    low: 0,
    high: 9_999,
};

const VARS: Limits = Limits {
    minus: false,
    low: 0,
    high: 16,
};

const ROWS: Limits = Limits {
    minus: false,
    low: 0,
    high: 256,
};

// Those of an arithmetic row or a step that begins at a byte.
fn amounts(line: &[u8], at: usize) -> Limits
    requires { at ≤ length line.now }
{
    let words = &line[at..];
    if words.starts_with(b"mul ") || words.starts_with(b"div ") {
        FROM_1
    } else if words.starts_with(b"add ") || words.starts_with(b"sub ") {
        FROM_0
    } else {
        ANY
    }
}

// Those of a line.
fn limits_of(kind: LineKind, line: &[u8]) -> Limits {
    match kind {
        LineKind::Vars => VARS,
        LineKind::Rows => ROWS,
        LineKind::Row => {
            if line.starts_with(b"row=cue ") {
                CUES
            } else {
                amounts(line, line.len().min(4))
            }
        }
        _ => ANY,
    }
}

// Where the step of a for begins, or the line's length: four bytes before its last word.
fn step_at(line: &[u8]) -> usize
    ensures { result ≤ length line.now }
{
    match line.iter().rposition(|b| *b == b' ') {
        Some(i) if i >= 4 => i - 3,
        _ => line.len(),
    }
}

// A number outside its limits, marked, and the limits.
fn print_outside(host: &impl Host, line: &[u8], at: usize, limits: Limits) {
    print_marked(host, line, at);
    let high = limits.high;
    if limits.minus {
        println!(host; "\ncause\n  this number is not from -{high} to {high}");
    } else {
        println!(host;
            "\ncause\n  this number is not from {} to {high}",
            limits.low
        );
    }
}

// The step of a for, or a range that begins above its end.
fn print_others(host: &impl Host, kind: LineKind, line: &[u8]) {
    match kind {
        LineKind::Row => {
            let step = step_at(line);
            let limits = amounts(line, step);
            let at = first_outside(line, step, false, limits).unwrap_or(line.len());
            print_outside(host, line, at, limits);
        }
        _ => {
            let second = line.iter().position(|b| *b == b' ').unwrap_or(line.len());
            print_marked(host, line, second);
            println!(host; "\ncause\n  the range begins above its end");
        }
    }
}

// What is wrong with a line that 4 refuses.
pub fn print_limits(host: &impl Host, kind: LineKind, line: &[u8]) {
    let limits = limits_of(kind, line);
    match first_outside(line, 0, false, limits) {
        Some(at) => print_outside(host, line, at, limits),
        None => print_others(host, kind, line),
    }
}

// What is wrong with a line that 5 refuses, in a file of V variables.
pub fn print_variable(host: &impl Host, line: &[u8], vars: u32) {
    let below = Limits {
        minus: false,
        low: 0,
        high: vars.saturating_sub(1),
    };
    let at = first_outside(line, 4, true, below).unwrap_or(line.len());
    print_marked(host, line, at);
    println!(host; "\ncause\n  this variable is not below V: vars={vars}");
}
