// Reads a script file line by line: the questions 2 to 7 and 17. Each line's reader gets the unread rest of the file.
#![tactic(auto)]

pub mod head;
pub mod lines;
pub mod nesting;
pub mod rows;

ghost use Rattle.std.specs.Prelude.{◌≡◌, ◌+◌, ◌≤◌, length};
ghost use Rattle.rules.specs.Verdicts.{verdict_of};
ghost use Rattle.rules.specs.File.{file_script};
ghost use Rattle.reader.specs.Open.{block_number};
ghost use Rattle.reader.specs.Read.{LineRead, end_verdict, load_answer, LoadedAs};

use crate::head::{load_head, refused};
use crate::lines::keyed;
use crate::nesting::{Block, BlockQuestion, Blocks, nest_row};
use crate::rows::{RowLine, row_of};
use reading::order::LineQuestion;
use rules::{BLANK, Refusal, Row, Verdict};
use table::put_next;

// The next line's row. The rest begins at the file's byte `base`.
fn row_line(rest: &[u8], base: usize, vars: u32) -> Result<RowLine, LineQuestion>
    requires { (vars ≤ 16) × (base + length rest.now ≤ 16_384) }
    ensures { LineRead rest.now base vars result }
{
    if keyed(rest, b"row=") {
        return row_of(rest, 3, base, vars);
    }
    Err(LineQuestion::Shape)
}

// The questions after the rows: 3 of bytes after the last row, 6 of blocks that are open there.
fn ask_end(more: bool, depth: usize, end: usize) -> Verdict
    ensures { verdict_of result ≡ end_verdict more depth end }
{
    if more {
        return Err(Refusal {
            number: 3,
            place: end,
        });
    }
    if depth != 0 {
        return Err(Refusal {
            number: 6,
            place: end,
        });
    }
    Ok(())
}

// A loaded file: the number of variables, and how many rows are in the table.
#[derive(Clone, Copy, Debug, PartialEq, Eq)]
pub struct Loaded {
    pub vars: usize,
    pub count: usize,
}

// A row's question that has no.
fn misplaced(question: BlockQuestion, place: usize) -> Refusal
    ensures { result ≡ record { number = block_number question; place = place } }
{
    Refusal {
        number: question.number(),
        place,
    }
}

// No block is open.
const NONE_OPEN: Blocks = Blocks {
    kinds: [Block::Loop; 8],
    depth: 0,
    loops: 0,
};

// A file's script, or its first no: the ranges in the pairs of the lent array, the rows in the lent table. Both loops stand here, since
// an array of rows that is handed on is copied, 8 KB.
pub fn load(file: &[u8], ranges: &mut [[i32; 2]; 16], table: &mut [u32]) -> Result<Loaded, Refusal>
    requires { length table.old ≡ 1_024 }
    ensures { LoadedAs file.now (file_script file.now) (load_answer result) ranges.new table.new }
{
    let head = load_head(file, ranges)?;
    let mut rows = [BLANK; 256];
    let mut blocks = NONE_OPEN;
    let mut next = head.at;
    for i in 0..head.count {
        let place = 4 + head.vars + i;
        let row = match row_line(&file[next..], next, head.vars as u32) {
            Ok(row) => row,
            Err(q) => return Err(refused(q, place)),
        };
        blocks = match nest_row(row.kind, blocks) {
            Ok(after) => after,
            Err(q) => return Err(misplaced(q, place)),
        };
        rows[i] = Row { kind: row.kind };
        next += row.end + 1;
    }
    ask_end(next < file.len(), blocks.depth, 4 + head.vars + head.count)?;
    let mut open = table::NONE_OPEN;
    for j in 0..head.count {
        open = put_next(table, j, rows[j].kind, open);
    }
    Ok(Loaded {
        vars: head.vars,
        count: head.count,
    })
}
