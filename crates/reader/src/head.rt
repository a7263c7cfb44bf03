// A file's lines before its rows, in order: the questions 2, 3 and 4, and the ranges.
ghost use Rattle.std.specs.Prelude.{◌≡◌, ◌≤◌, length, drop};
ghost use Rattle.rules.specs.File.{then_lines, vars_key, count_line, range_part, file_script};
ghost use Rattle.reader.specs.Lines.{file_lines, refusal_of};
ghost use Rattle.reader.specs.Head.{RangesRead, head_answer, CountPart, HeadRead, NotTooLong};

use crate::lines::{count_line, range_line, script_line};
use reading::order::LineQuestion;
use rules::Refusal;

// A question of a line that has no.
pub fn refused(question: LineQuestion, place: usize) -> Refusal
    ensures { result ≡ refusal_of question place }
{
    Refusal {
        number: question.number(),
        place,
    }
}

// The n range lines from byte `at` on, into the lent array: the byte where they end, or the first no with its line.
fn read_ranges(
    file: &[u8],
    at: usize,
    n: usize,
    ranges: &mut [[i32; 2]; 16],
) -> Result<usize, Refusal>
    requires { (at ≤ length file.now) × (n ≤ 16) }
    ensures { RangesRead file.now at n result ranges.new }
{
    let none: [i32; 2] = [0; 2];
    *ranges = [none; 16];
    let mut next = at;
    for i in 0..n {
        match range_line(&file[next..]) {
            Ok(line) => {
                ranges[i] = [line.lo, line.hi];
                next += line.length;
            }
            Err(q) => return Err(refused(q, 3 + i)),
        }
    }
    Ok(next)
}

// What the lines before the rows say, and the byte where the rows begin.
#[derive(Clone, Copy, Debug, PartialEq, Eq)]
pub struct Head {
    pub vars: usize,
    pub count: usize,
    pub at: usize,
}

// `rows=R`
fn load_count(file: &[u8], at: usize, vars: usize) -> Result<Head, Refusal>
    requires { (at ≤ length file.now) × (vars ≤ 16) }
    ensures { CountPart file.now at vars (head_answer result) }
{
    match count_line(&file[at..], b"rows=", 256) {
        Ok(line) => Ok(Head {
            vars,
            count: line.count,
            at: at + line.length,
        }),
        Err(q) => Err(refused(q, 3 + vars)),
    }
}

// The ranges and on.
fn load_ranges(
    file: &[u8],
    at: usize,
    vars: usize,
    ranges: &mut [[i32; 2]; 16],
) -> Result<Head, Refusal>
    requires { (at ≤ length file.now) × (vars ≤ 16) }
    ensures { HeadRead file.now (range_part vars (file_lines (drop at file.now))) (head_answer result) ranges.new }
{
    let next = read_ranges(file, at, vars, ranges)?;
    load_count(file, next, vars)
}

// `vars=V` and on.
fn load_vars(file: &[u8], at: usize, ranges: &mut [[i32; 2]; 16]) -> Result<Head, Refusal>
    requires { at ≤ length file.now }
    ensures { HeadRead file.now
        (then_lines (count_line vars_key 16 2 (file_lines (drop at file.now))) range_part) (head_answer result) ranges.new }
{
    match count_line(&file[at..], b"vars=", 16) {
        Ok(line) => load_ranges(file, at + line.length, line.count, ranges),
        Err(q) => Err(refused(q, 2)),
    }
}

// The most bytes of a file: question 2.
const LONGEST_FILE: usize = 16_384;

// The lines before the rows.
pub fn load_head(file: &[u8], ranges: &mut [[i32; 2]; 16]) -> Result<Head, Refusal>
    ensures { HeadRead file.now (file_script file.now) (head_answer result) ranges.new × NotTooLong file.now (head_answer result) }
{
    if LONGEST_FILE < file.len() {
        return Err(Refusal {
            number: 2,
            place: LONGEST_FILE,
        });
    }
    match script_line(file) {
        Ok(line) => load_vars(file, line.length, ranges),
        Err(q) => Err(refused(q, 1)),
    }
}
