// What is printed of an accepted script: its ticks, and each row behind its margin.
ghost use Rattle.std.specs.Prelude.{◌≡◌, ◌+◌, ◌*◌, ◌≤◌, ◌<◌, length};
ghost use Rattle.explain_margin.specs.Columns.{Narrow};

use crate::known::print_unknown;
use analysis_ticks::{cap, times};
use explain_margin::{
    EXACT, IS_EXACT, LINE, LinePlace, NO_LOOP, OUTSIDE, OpenBlocks, TICKS, TOTAL, TURNS, UNKNOWN,
    Widths, after_row, begins, column, greatest, indent, is_head, line_end, line_of, passes_here,
    put_shown, room, share,
};
use host::Host;
use program_parts::print_text;
use table::{partner_at, tag_at};

// The `row=` of a row's line.
const KEY: usize = 4;

// The bar, its marks, and a hundred per cent.
const BAR: [u8; 10] = [b'#'; 10];

const MARKS: u64 = 10;

const PER_CENT: u64 = 100;

pub fn print_spaces(host: &impl Host, n: usize) {
    let width = n.min(LINE);
    print!(host; "{:width$}", "");
}

// A number at the right end of a column.
pub fn print_right(host: &impl Host, n: u64, width: usize) {
    print!(host; "{n:>width$}");
}

fn print_headings(host: &impl Host, w: Widths) {
    let Widths {
        turns,
        total,
        ticks,
    } = w;
    print!(host; "row {:>turns$}", "turns");
    print!(host; " {:>total$}", "total");
    println!(host; "       {:>ticks$} share              script", "ticks");
}

// Of a loop its turns, total and exact or most; of another row nothing.
fn print_turns(host: &impl Host, figures: [u64; 4], w: Widths)
    requires { Narrow w }
{
    if figures[EXACT] == NO_LOOP {
        print_spaces(host, w.turns + 1 + w.total + 6);
        return;
    }
    print_right(host, figures[TURNS], w.turns);
    print!(host; " ");
    print_right(host, figures[TOTAL], w.total);
    if figures[EXACT] == IS_EXACT {
        print!(host; " exact");
    } else {
        print!(host; " most ");
    }
}

// The bar of a part of the whole, and the share in per cent.
fn print_bar(host: &impl Host, part: u64, whole: u64)
    requires { whole ≤ 1_000_000_000_001 }
{
    let marks = (share(part, whole, MARKS) as usize).min(BAR.len());
    let per_cent = share(part, whole, PER_CENT);
    print!(host; " [");
    print_text(host, &BAR[..marks]);
    print_spaces(host, BAR.len() - marks);
    print!(host; "] {per_cent:>3}%  ");
}

// Of a block the ticks of one pass, and the share of all its passes.
fn print_block(host: &impl Host, head: bool, ticks: u64, passes: u64, whole: u64, w: Widths)
    requires { Narrow w }
{
    if head {
        print!(host; " ");
        print_right(host, ticks, w.ticks);
        print_bar(host, times(passes, cap(ticks)), cap(whole));
    } else {
        print_spaces(host, w.ticks + 21);
    }
}

// At most a line of a text.
pub fn print_shown(host: &impl Host, text: &[u8]) {
    let mut line = [0u8; LINE];
    let n = put_shown(text, &mut line);
    print_text(host, &line[..n.min(LINE)]);
}

// A text from a column on, in as many lines as it takes.
pub fn print_wrapped(host: &impl Host, text: &[u8], column: usize) {
    let width = room(column);
    let mut at: usize = 0;
    while at < text.len() {
        if at > 0 {
            println!(host; "");
            print_spaces(host, column);
        }
        let end = line_end(at, width, text.len());
        print_shown(host, &text[at..end]);
        at = end;
    }
    println!(host; "");
}

// The text of line k without its first bytes, from a column on.
pub fn print_line(host: &impl Host, file: &[u8], k: usize, without: usize, column: usize) {
    match line_of(file, k) {
        LinePlace::At(start, end) => {
            let from = start + without.min(end - start);
            print_wrapped(host, &file[from..end], column);
        }
        LinePlace::Missing => println!(host; ""),
    }
}

// Row i with its margin.
fn print_row(
    host: &impl Host,
    file: &[u8],
    vars: usize,
    rows: &[u32],
    i: usize,
    figures: [u64; 4],
    nest: OpenBlocks,
    w: Widths,
    whole: u64,
)
    requires { (4 * i + 3 < length rows.now) × (vars ≤ 16) × Narrow w }
{
    print_right(host, i as u64, 3);
    print!(host; " ");
    print_turns(host, figures, w);
    print_block(
        host,
        is_head(rows, i),
        figures[TICKS],
        passes_here(nest),
        whole,
        w,
    );
    let inner = indent(tag_at(rows, i), nest.depth);
    print_spaces(host, inner);
    print_line(host, file, 3 + vars + i, KEY, begins(w) + inner);
}

// What the figure of the loop at row i rests on, of a loop that is counted.
fn print_rests(
    host: &impl Host,
    file: &[u8],
    rows: &[u32],
    count: usize,
    i: usize,
    figures: &[[u64; 4]; 256],
    ranges: [[i32; 2]; 16],
)
    requires { (i < count) × (count ≤ 256) × (4 * count ≤ length rows.now) × (length figures.now ≡ 256) }
{
    if figures[i][EXACT] == NO_LOOP {
        return;
    }
    let end = partner_at(rows, i);
    if end < count {
        print_unknown(host, file, rows, i, end, figures[end][UNKNOWN], ranges);
    }
}

// The rows one after the other.
fn print_rows(
    host: &impl Host,
    file: &[u8],
    vars: usize,
    rows: &[u32],
    count: usize,
    figures: &[[u64; 4]; 256],
    w: Widths,
    whole: u64,
    ranges: [[i32; 2]; 16],
)
    requires { (count ≤ 256) × (4 * count ≤ length rows.now) × (vars ≤ 16) × (length figures.now ≡ 256) × Narrow w }
{
    let mut nest = OUTSIDE;
    for i in 0..count {
        let row = figures[i];
        print_row(host, file, vars, rows, i, row, nest, w, whole);
        print_rests(host, file, rows, count, i, figures, ranges);
        nest = after_row(nest, tag_at(rows, i), row[TOTAL]);
    }
}

// The whole file's ticks, and its rows.
pub fn print_script(
    host: &impl Host,
    file: &[u8],
    vars: usize,
    rows: &[u32],
    count: usize,
    figures: &[[u64; 4]; 256],
    whole: u64,
    ranges: [[i32; 2]; 16],
)
    requires { (count ≤ 256) × (4 * count ≤ length rows.now) × (vars ≤ 16) × (length figures.now ≡ 256) }
{
    let w = Widths {
        turns: column(greatest(figures, TURNS)),
        total: column(greatest(figures, TOTAL)),
        ticks: column(greatest(figures, TICKS)),
    };
    println!(host; "ticks={whole}\n");
    print_headings(host, w);
    print_rows(host, file, vars, rows, count, figures, w, whole, ranges);
}
