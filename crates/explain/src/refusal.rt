// What is printed of a refused file: number and place, the line that they name, the cause and the remedy.
ghost use Rattle.std.specs.Prelude.{◌≤◌, length};

use crate::blocks::print_open;
use crate::faults::print_fault;
use crate::limits::{print_limits, print_variable};
use crate::marked::{print_plain, span_of};
use crate::refusals::{print_cause, print_remedy};
use explain_margin::{PlaceKind, place_of};
use expressions::leaves::digits_at;
use host::Host;
use line_causes::LineKind;
use program_parts::{print_refusal, print_wrong};
use program_words::read_number;
use rules::Refusal;

// The line that is to begin with a key: the number after a key of five bytes.
fn count_on(file: &[u8], k: usize) -> u32 {
    let start = span_of(file, k).start;
    if file.len() - start < 5 {
        0
    } else {
        digits_at(file, start + 5).value
    }
}

// What is known of a file whose line `place` is refused: V and R as far as their lines stand before it.
#[derive(Clone, Copy)]
struct Counts {
    vars: u32,
    rows: u32,
}

fn counts_before(file: &[u8], place: usize) -> Counts {
    if place < 3 {
        return Counts { vars: 0, rows: 0 };
    }
    let vars = count_on(file, 1);
    if place as u64 <= vars as u64 + 3 {
        return Counts { vars, rows: 0 };
    }
    Counts {
        vars,
        rows: count_on(file, 2 + vars as usize),
    }
}

// What line `place` is to be.
fn kind_of(place: usize, vars: u32) -> LineKind {
    if place < 2 {
        return LineKind::Script;
    }
    if place == 2 {
        return LineKind::Vars;
    }
    if place as u64 <= vars as u64 + 2 {
        return LineKind::Range;
    }
    if place as u64 == vars as u64 + 3 {
        return LineKind::Rows;
    }
    LineKind::Row
}

// How many lines of a file begin with a key.
fn lines_with(file: &[u8], key: &[u8]) -> usize {
    file.split(|b| *b == b'\n')
        .filter(|line| line.starts_with(key))
        .count()
}

// Both numbers of a file whose lines with a key are not as many as it says.
fn print_counts(host: &impl Host, says: &str, said: u32, key: &str, found: usize) {
    println!(host; "  {says}{said}, and the lines {key} are {found}");
}

// They, where they differ.
fn print_differing(host: &impl Host, file: &[u8], place: usize, counts: Counts) {
    let rows = lines_with(file, b"row=");
    let ranges = lines_with(file, b"range=");
    if place > 2 && ranges as u64 != counts.vars as u64 {
        print_counts(host, "vars=", counts.vars, "range=", ranges);
    }
    if place as u64 > counts.vars as u64 + 3 && rows as u64 != counts.rows as u64 {
        print_counts(host, "rows=", counts.rows, "row=", rows);
    }
}

// Line `place` after the last row: bytes that are too many.
fn print_rest(host: &impl Host, line: &[u8]) {
    print_plain(host, line);
    println!(host; "\ncause\n  the last row stands before this line, and nothing may follow it");
}

// Does a line have the key of the lines round the ranges that are wanted?
fn is_next(kind: LineKind, line: &[u8]) -> bool {
    match kind {
        LineKind::Range => line.starts_with(b"rows="),
        LineKind::Rows => line.starts_with(b"range="),
        _ => false,
    }
}

// A line that is there; `lf`: whether an LF ends it.
fn print_line_cause(host: &impl Host, file: &[u8], line: &[u8], lf: bool, refusal: Refusal) {
    let Refusal { number, place } = refusal;
    let counts = counts_before(file, place);
    let kind = kind_of(place, counts.vars);
    match number {
        3 if place as u64 > counts.vars as u64 + counts.rows as u64 + 3 => {
            print_rest(host, line);
            print_differing(host, file, place, counts);
        }
        3 => {
            print_fault(host, kind, line, lf);
            if is_next(kind, line) {
                print_differing(host, file, place, counts);
            }
        }
        4 => print_limits(host, kind, line),
        5 => print_variable(host, line, counts.vars),
        _ => {
            print_plain(host, line);
            println!(host; "\ncause");
            print_cause(host, number);
        }
    }
}

// A line that is not there, or the line after the last.
fn print_end_cause(host: &impl Host, file: &[u8], refusal: Refusal) {
    println!(host; "  (the file ends before this line)\n\ncause");
    if refusal.number == 3 {
        println!(host; "  the file ends too early");
        print_differing(
            host,
            file,
            refusal.place,
            counts_before(file, refusal.place),
        );
    } else {
        print_cause(host, refusal.number);
    }
}

// Line `place` and its cause.
fn print_line_place(host: &impl Host, file: &[u8], refusal: Refusal) {
    let Refusal { number, place } = refusal;
    println!(host; "\nline {place}");
    let line = span_of(file, place.saturating_sub(1));
    if line.start < file.len() {
        print_line_cause(
            host,
            file,
            &file[line.start..line.end],
            line.end < file.len(),
            refusal,
        );
    } else {
        print_end_cause(host, file, refusal);
    }
    if number == 6 {
        print_open(host, file, counts_before(file, place).vars, place);
    }
}

// A refusal of a file before its rows are asked, by 2 to 7, 16 or 17, or of a store, by 15.
pub fn print_refused(host: &impl Host, file: &[u8], refusal: Refusal) {
    let number = refusal.number;
    print_refusal(host, refusal);
    match place_of(number) {
        PlaceKind::Line => print_line_place(host, file, refusal),
        _ => {
            println!(host; "\ncause");
            print_cause(host, number);
        }
    }
    println!(host; "\nremedy");
    print_remedy(host, number);
}

// Cause and remedy of a refusal.
fn print_both(host: &impl Host, number: u32) {
    println!(host; "refused={number}\n\ncause");
    print_cause(host, number);
    println!(host; "\nremedy");
    print_remedy(host, number);
}

// Cause and remedy of the refusal that a word `refused=NUMBER` names.
pub fn print_words(host: &impl Host, word: &[u8]) {
    match read_number(word) {
        Some(n @ 1..=22) => print_both(host, n as u32),
        Some(_) => print_wrong(host, "error=refused is not from 1 to 22", word),
        None => print_wrong(host, "error=refused is not a number", word),
    }
}
