// Writing the report, line by line, into the unused rest of the buffer.
#![tactic(auto)]

pub mod pieces;

ghost use Rattle.std.specs.Prelude.{◌≡◌, ◌≤◌, length};
ghost use Rattle.rules.specs.Replies.{reply_by};
ghost use Rattle.rules.specs.Calls.{buffer_reply, written};
ghost use Rattle.rules.specs.Report.{joined, decimal, sign, size, step_name, first_end, second_end, exact_name};
ghost use Rattle.rules.specs.Report.{loop_line, line_of, report_text};
ghost use Rattle.analysis_lines.specs.Coded.{lines_in, first_lines, LineTable};
ghost use Rattle.report.specs.Pieces.{piece_text, piece_texts, Wrote};
ghost use Rattle.report.specs.Lines.{end_number, head_text, loops_text};

use crate::pieces::{Label, Piece, key_len, line_len, put_key, put_line};
use analysis_lines::line_at;
use rules::{LoopLine, Refusal};
use rules_steps::Step;

// How far z is from 0.
pub fn size(z: i64) -> u64
    ensures { result ≡ size z }
{
    z.unsigned_abs()
}

// An end of a step: a change, or a factor.
#[derive(Clone, Copy, Debug, PartialEq, Eq)]
enum End {
    Change(i64),
    Factor(u64),
}

// A step's two ends, as its kind has them.
#[tactic(auto, unfolding(rules::specs::Report::first_end, rules::specs::Report::second_end))]
fn both_ends(step: Step) -> (End, End)
    ensures { (end_number result.0 ≡ first_end step) × (end_number result.1 ≡ second_end step) }
{
    match step {
        Step::Add(a, b) => (End::Change(a), End::Change(b)),
        Step::Grow(f, g) | Step::Shrink(f, g) => (End::Factor(f), End::Factor(g)),
        Step::Unknown => (End::Factor(0), End::Factor(0)),
    }
}

// `-` before a negative end.
fn end_sign(end: End) -> Piece
    ensures { piece_text result ≡ sign (end_number end) }
{
    match end {
        End::Change(z) => {
            if z < 0 {
                Piece::Fixed(Label::Minus)
            } else {
                Piece::Nothing
            }
        }
        End::Factor(_) => Piece::Nothing,
    }
}

// An end's digits.
#[tactic(auto, unfolding(rules::specs::Report::size))]
fn end_size(end: End) -> Piece
    ensures { piece_text result ≡ decimal (size (end_number end)) }
{
    match end {
        End::Change(z) => Piece::Number(size(z)),
        End::Factor(n) => Piece::Number(n),
    }
}

// The name of a step's kind.
#[tactic(auto, unfolding(rules::specs::Report::step_name))]
fn step_name(step: Step) -> Piece
    ensures { piece_text result ≡ step_name step }
{
    match step {
        Step::Add(_, _) => Piece::Fixed(Label::Add),
        Step::Grow(_, _) => Piece::Fixed(Label::Grow),
        Step::Shrink(_, _) => Piece::Fixed(Label::Shrink),
        Step::Unknown => Piece::Nothing,
    }
}

// exact or most.
#[tactic(auto, unfolding(rules::specs::Report::exact_name))]
fn exact_name(exact: bool) -> Piece
    ensures { piece_text result ≡ exact_name exact }
{
    if exact {
        Piece::Fixed(Label::Exact)
    } else {
        Piece::Fixed(Label::Most)
    }
}

// A loop's line.
fn loop_line(line: LoopLine) -> [Piece; 17]
    ensures { joined (piece_texts result) ≡ loop_line (line_of line) }
{
    let (a, b) = both_ends(line.step);
    let gap = Piece::Fixed(Label::Space);
    [
        Piece::Fixed(Label::Loop),
        Piece::Number(line.row as u64),
        gap,
        step_name(line.step),
        gap,
        end_sign(a),
        end_size(a),
        gap,
        end_sign(b),
        end_size(b),
        gap,
        Piece::Number(line.turns),
        gap,
        Piece::Number(line.total),
        gap,
        exact_name(line.exact),
        Piece::Fixed(Label::Newline),
    ]
}

// The lines before the loops': how many bytes they have.
fn head_len(rows: usize, loops: usize) -> usize
    ensures { (result ≡ length (head_text rows loops)) × (result ≤ 84) }
{
    key_len(Label::Report, 1)
        + key_len(Label::Rows, rows as u64)
        + key_len(Label::Loops, loops as u64)
}

// The loops' lines: how many bytes they have.
fn loops_len(lines: &[[u64; 7]; 16], loops: usize) -> usize
    requires { LineTable loops lines.now }
    ensures { (result ≡ length (loops_text (lines_in lines.now) loops)) × (result ≤ 5440) }
{
    let mut len: usize = 0;
    for k in 0..loops {
        len += line_len(loop_line(line_at(lines, k)));
    }
    len
}

// The report's length.
pub fn report_len(rows: usize, lines: &[[u64; 7]; 16], loops: usize, ticks: u64) -> usize
    requires { LineTable loops lines.now }
    ensures { result ≡ length (report_text rows (first_lines lines.now loops) ticks) }
{
    head_len(rows, loops) + loops_len(lines, loops) + key_len(Label::Ticks, ticks)
}

// Writes the lines before the loops'.
fn put_head(rows: usize, loops: usize, buffer: &mut [u8]) -> usize
    requires { length (head_text rows loops) ≤ length buffer.old }
    ensures { Wrote (head_text rows loops) buffer.old buffer.new result }
{
    let a = put_key(Label::Report, 1, buffer);
    let b = a + put_key(Label::Rows, rows as u64, &mut buffer[a..]);
    b + put_key(Label::Loops, loops as u64, &mut buffer[b..])
}

// Writes the loops' lines, each into the unused rest of the buffer.
fn put_loops(lines: &[[u64; 7]; 16], loops: usize, buffer: &mut [u8]) -> usize
    requires { LineTable loops lines.now × (length (loops_text (lines_in lines.now) loops) ≤ length buffer.old) }
    ensures { Wrote (loops_text (lines_in lines.now) loops) buffer.old buffer.new result }
{
    let mut at: usize = 0;
    for k in 0..loops {
        at += put_line(loop_line(line_at(lines, k)), &mut buffer[at..]);
    }
    at
}

// Writes the lines, each into the unused rest of the buffer.
fn put_lines(
    rows: usize,
    lines: &[[u64; 7]; 16],
    loops: usize,
    ticks: u64,
    buffer: &mut [u8],
) -> usize
    requires { LineTable loops lines.now × (length (report_text rows (first_lines lines.now loops) ticks) ≤ length buffer.old) }
    ensures { Wrote (report_text rows (first_lines lines.now loops) ticks) buffer.old buffer.new result }
{
    let a = put_head(rows, loops, buffer);
    let b = a + put_loops(lines, loops, &mut buffer[a..]);
    b + put_key(Label::Ticks, ticks, &mut buffer[b..])
}

// Writes the report, if the buffer is long enough (question 14).
pub fn write_report(
    rows: usize,
    lines: &[[u64; 7]; 16],
    loops: usize,
    ticks: u64,
    buffer: &mut [u8],
) -> Result<usize, Refusal>
    requires { LineTable loops lines.now }
    ensures { (reply_by result ≡ buffer_reply (report_text rows (first_lines lines.now loops) ticks) (length buffer.old))
        × (buffer.new ≡ written (report_text rows (first_lines lines.now loops) ticks) buffer.old) }
{
    let len = report_len(rows, lines, loops, ticks);
    if buffer.len() < len {
        return Err(Refusal {
            number: 14,
            place: len,
        });
    }
    Ok(put_lines(rows, lines, loops, ticks, buffer))
}
