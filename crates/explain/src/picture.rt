// The cues of a run over its ticks, as a picture: a line for each cue number, in the order in which they first fire.
ghost use Rattle.std.specs.Prelude.{◌≡◌, ◌≤◌, length};

use crate::show::print_right;
use host::Host;
use program_parts::{BEFORE_CUES, Store, Terms, next_cue, print_text, started};

// The picture has no more columns, and no more lines than a script has rows.
const COLUMNS: usize = 80;

const LINES: usize = 256;

const MARKS: usize = 20_480;

// Marks a place: `*` for a cue that fires there once, `#` for one that fires more often.
fn put_mark(marks: &mut [u8], at: usize) {
    if let Some(mark) = marks.get_mut(at) {
        *mark = if *mark == b' ' { b'*' } else { b'#' };
    }
}

// The line of a cue number, or the one after the last.
fn line_of(numbers: &[u32], number: u32) -> usize
    ensures { result ≤ length numbers.now }
{
    numbers
        .iter()
        .position(|n| *n == number)
        .unwrap_or(numbers.len())
}

// Marks a cue in a column, and answers how many lines there are.
fn mark_cue(
    numbers: &mut [u32; LINES],
    lines: usize,
    marks: &mut [u8],
    number: u32,
    column: usize,
) -> usize
    requires { lines ≤ 256 }
    ensures { result ≤ 256 }
{
    let line = line_of(&numbers[..lines], number);
    if line >= LINES {
        return lines;
    }
    numbers[line] = number;
    put_mark(marks, COLUMNS * line + column.min(COLUMNS - 1));
    lines.max(line + 1)
}

// Marks the cues of a run that has been started, and answers how many lines there are. A proved loop has to end: it counts its turns up to
// a number that no run reaches.
fn mark_cues(
    terms: Terms<'_>,
    picks: &[u8],
    store: &mut [i32],
    state: &mut [u64],
    scale: u64,
    numbers: &mut [u32; LINES],
    marks: &mut [u8],
) -> usize
    requires { (length state.old ≡ 64) × (1 ≤ scale) }
    ensures { result ≤ 256 }
{
    let mut at = BEFORE_CUES;
    let mut lines = 0;
    for _ in 0..u64::MAX {
        let Some(next) = next_cue(terms, picks, store, state, at) else {
            break;
        };
        if let Some(number) = next.did {
            let column = (at.tick / scale) as usize;
            lines = mark_cue(numbers, lines, marks, number, column);
        }
        if !next.on {
            break;
        }
        at = next;
    }
    lines
}

// The ticks of a column: as few as make all fit.
fn scale_of(ticks: u64) -> u64
    ensures { 1 ≤ result }
{
    ticks.saturating_sub(1) / COLUMNS as u64 + 1
}

// How many columns the ticks are.
fn columns_of(ticks: u64, scale: u64) -> usize
    requires { 1 ≤ scale }
{
    if ticks == 0 {
        return 0;
    }
    ((ticks - 1) / scale).min(COLUMNS as u64 - 1) as usize + 1
}

// The lines one after the other: a cue number and its marks.
fn print_lines(host: &impl Host, numbers: &[u32], marks: &[u8], columns: usize) {
    for (number, line) in numbers.iter().zip(marks.chunks(COLUMNS)) {
        print_right(host, *number as u64, 4);
        print!(host; " |");
        print_text(host, &line[..columns.min(line.len())]);
        println!(host; "|");
    }
}

// Draws the cues of a run from a store, which takes so many ticks: how many ticks a column is, the lines, and under them the first tick and
// the last.
pub fn draw_cues(host: &impl Host, terms: Terms<'_>, picks: &[u8], store: Store, ticks: u64) {
    let Ok(mut state) = started(terms, store.as_slice()) else {
        return;
    };
    let mut after = store;
    let values = &mut after.values[..store.count];
    let scale = scale_of(ticks);
    let mut numbers = [0u32; LINES];
    let mut marks = [b' '; MARKS];
    let lines = mark_cues(
        terms,
        picks,
        values,
        &mut state,
        scale,
        &mut numbers,
        &mut marks,
    );
    let columns = columns_of(ticks, scale);
    println!(host; "\nticks of a column: {scale}\n cue");
    print_lines(host, &numbers[..lines], &marks, columns);
    print!(host; "tick  0 ");
    print_right(host, ticks, columns.saturating_sub(1));
    println!(host; "");
}
