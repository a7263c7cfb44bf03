// What a loop's figure rests on: the variables that it is counted from and that are not known before the loop.
ghost use Rattle.std.specs.Prelude.{◌+◌, ◌*◌, ◌≤◌, ◌<◌, length};

use crate::terms::{Deed, first_row};
use expressions::leaves::digits_at;
use host::Host;
use rules::{Comparison, Kind, Operand};
use table::{kind_at, operand_at, watched_at};

// Does an expression name v?
fn names_in(word: &[u8], v: u8) -> bool {
    for i in 0..word.len() {
        if word[i] == b'v' && digits_at(word, i + 1).value == v as u32 {
            return true;
        }
    }
    false
}

// Does a start or a limit name v?
fn names(file: &[u8], x: Operand, v: u8) -> bool {
    match x {
        Operand::Constant(_) => false,
        Operand::Variable(w) => w == v,
        Operand::Expression(at, n) => {
            let from = (at as usize).min(file.len());
            let to = from + (n as usize).min(file.len() - from);
            names_in(&file[from..to], v)
        }
    }
}

// The variable by which a while or do that tests v is counted: the one that its body copies into v, if there is one.
fn counter(rows: &[u32], from: usize, end: usize, v: u8) -> u8
    requires { 4 * end ≤ length rows.now }
{
    let Some(set) = first_row(rows, from, end, v, Deed::Sets) else {
        return v;
    };
    match operand_at(rows, set) {
        Operand::Variable(w) => w,
        _ => v,
    }
}

// The variable that the off for a flag watches.
fn watched(rows: &[u32], from: usize, end: usize, flag: u8) -> u8
    requires { 4 * end ≤ length rows.now }
{
    match first_row(rows, from, end, flag, Deed::Clears) {
        Some(off) => watched_at(rows, off),
        None => flag,
    }
}

// Does a figure grow with the distance from start to limit? That of == and != does not.
fn is_ordered(c: Comparison) -> bool {
    !matches!(c, Comparison::Equal | Comparison::Different)
}

// Is the loop from row `head` to row `end` counted from v?
fn rests_on(file: &[u8], rows: &[u32], head: usize, end: usize, v: u8) -> bool
    requires { (4 * head + 3 < length rows.now) × (4 * end ≤ length rows.now) }
{
    match kind_at(rows, head) {
        Kind::While(w, c, x) | Kind::Do(w, c, x) => {
            is_ordered(c) && (counter(rows, head + 1, end, w) == v || names(file, x, v))
        }
        Kind::For(_, s, c, x, _) => is_ordered(c) && (names(file, s, v) || names(file, x, v)),
        Kind::Hold(flag) => watched(rows, head + 1, end, flag) == v,
        _ => false,
    }
}

// Is a declared range -L to L?
fn is_wide(range: [i32; 2]) -> bool {
    range[0] == -1_000_000_000 && range[1] == 1_000_000_000
}

// That v is not known, and what helps.
fn print_variable(host: &impl Host, v: u8, declared: [i32; 2]) {
    print!(host; "        v{v} is not known here (-L to L): ");
    if is_wide(declared) {
        print!(host; "give it a narrower range= or ");
    }
    println!(host; "set it before the loop");
}

// A line for each variable of the sum of 2^v that the loop is counted from.
pub fn print_unknown(
    host: &impl Host,
    file: &[u8],
    rows: &[u32],
    head: usize,
    end: usize,
    sum: u64,
    ranges: [[i32; 2]; 16],
)
    requires { (4 * head + 3 < length rows.now) × (4 * end ≤ length rows.now) }
{
    let mut rest = sum;
    for v in 0..16 {
        if rest % 2 == 1 && rests_on(file, rows, head, end, v) {
            print_variable(host, v, ranges[v as usize]);
        }
        rest /= 2;
    }
}
