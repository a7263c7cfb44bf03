// A line of a file with a mark under one of its bytes, cut round it where it is longer than the page.
ghost use Rattle.std.specs.Prelude.{◌≤◌, length};

use crate::show::{print_shown, print_spaces};
use explain_margin::{LinePlace, line_of};
use host::Host;

// Where the texts stand, how many bytes of a line are shown, and how many of them before the mark where the line is cut.
const INDENT: usize = 2;

const ROOM: usize = 94;

const BEFORE: usize = 48;

// The first byte that is shown of a line of `length` bytes with a mark under byte `at`.
fn first_shown(length: usize, at: usize) -> usize
    ensures { (result ≤ at) × (result ≤ length) }
{
    if length <= ROOM {
        0
    } else {
        at.saturating_sub(BEFORE).min(length)
    }
}

// The line, cut round byte `at`, and where that byte stands.
fn print_cut(host: &impl Host, line: &[u8], at: usize) -> usize
    ensures { result ≤ at }
{
    let from = first_shown(line.len(), at);
    let to = from + ROOM.min(line.len() - from);
    print_spaces(host, INDENT);
    if from > 0 {
        print!(host; "..");
    }
    print_shown(host, &line[from..to]);
    if to < line.len() {
        print!(host; "..");
    }
    println!(host; "");
    from
}

// The same, and `^` under the byte.
pub fn print_marked(host: &impl Host, line: &[u8], at: usize) {
    let from = print_cut(host, line, at);
    print_spaces(host, INDENT);
    if from > 0 {
        print!(host; "  ");
    }
    print_spaces(host, at - from);
    println!(host; "^");
}

// A line without a mark.
pub fn print_plain(host: &impl Host, line: &[u8]) {
    print_cut(host, line, 0);
}

// Where a line begins and ends, without its LF; a line that is not there begins and ends at the file's end.
#[derive(Clone, Copy)]
pub struct Span {
    pub start: usize,
    pub end: usize,
}

// Those of line k of a file, from 0.
pub fn span_of(file: &[u8], k: usize) -> Span
    ensures { (result.start ≤ result.end) × (result.end ≤ length file.now) }
{
    match line_of(file, k) {
        LinePlace::At(start, end) => Span { start, end },
        LinePlace::Missing => Span {
            start: file.len(),
            end: file.len(),
        },
    }
}

// Line k of a file, from 0, without its LF; empty where there is none.
pub fn line_at(file: &[u8], k: usize) -> &[u8] {
    let span = span_of(file, k);
    &file[span.start..span.end]
}

// Line k of a file, from 0, or that there is none.
pub fn print_file_line(host: &impl Host, file: &[u8], k: usize) {
    if span_of(file, k).start < file.len() {
        print_plain(host, line_at(file, k));
    } else {
        println!(host; "  (the file ends before this line)");
    }
}
