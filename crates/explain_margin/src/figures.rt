// The figures by row: turns, total and exact or most of a loop's head, the ticks of one pass of a block's head, what is not known before a
// loop at its end; 0 at other rows.
ghost use Rattle.std.specs.Prelude.{◌≡◌, [], ◌∷◌, ◌+◌, ◌*◌, ◌<◌, ◌≤◌, max, length, get_or, take, set};
ghost use Rattle.table.specs.Code.{kind_at, rows_of};
ghost use Rattle.table.specs.Shapes.{shape_of};
ghost use Rattle.analysis_lines.specs.Coded.{lines_in};
ghost use Rattle.explain_margin.specs.Figures.{exact_mark, line_figures, put_lines, ticks_beside, put_ticks, is_head, most_in};

use analysis_lines::line_at;
use rules::LoopLine;
use table::{Shape, shape_at};

// The columns of the figures.
pub const TURNS: usize = 0;

pub const TOTAL: usize = 1;

pub const EXACT: usize = 2;

pub const TICKS: usize = 3;

// At a loop's end row: the variables that are not known before it, as the sum of 2^v. It has at most five digits, as a heading has.
pub const UNKNOWN: usize = 3;

// What stands in the column EXACT: no loop's head, most, exact.
pub const NO_LOOP: u64 = 0;

const IS_MOST: u64 = 1;

pub const IS_EXACT: u64 = 2;

fn exact_or_most(exact: bool) -> u64
    ensures { result ≡ exact_mark exact }
{
    if exact { IS_EXACT } else { IS_MOST }
}

// A report line's figures, at its loop's head.
fn put_line(figures: &mut [[u64; 4]; 256], line: LoopLine)
    requires { length figures.old ≡ 256 }
    ensures { (figures.new ≡ set figures.old line.row (line_figures line))
        × (length figures.new ≡ 256) }
{
    let row = line.row;
    if row < 256 {
        figures[row] = [line.turns, line.total, exact_or_most(line.exact), 0];
    }
}

// Those of all report lines.
pub fn put_lines(lines: &[[u64; 7]; 16], loops: usize, figures: &mut [[u64; 4]; 256])
    requires { (loops ≤ 16) × (length lines.now ≡ 16) × (length figures.old ≡ 256) }
    ensures { (figures.new ≡ put_lines (take loops (lines_in lines.now)) figures.old)
        × (length figures.new ≡ 256) }
{
    for k in 0..loops {
        put_line(figures, line_at(lines, k));
    }
}

// Is row i the head of a block, a loop or a pick?
pub fn is_head(rows: &[u32], i: usize) -> bool
    requires { 4 * i + 3 < length rows.now }
    ensures { result ≡ is_head (shape_of (kind_at (rows_of rows.now) i)) }
{
    matches!(shape_at(rows, i), Shape::Branch | Shape::Loop)
}

// What the analysis noted at row i, beside its other figures.
fn put_own(figures: &mut [[u64; 4]; 256], i: usize, ticks: u64)
    requires { (i < 256) × (length figures.old ≡ 256) }
    ensures { (figures.new ≡ set figures.old i (ticks_beside (get_or figures.old i []) ticks))
        × (length figures.new ≡ 256) }
{
    let turns = figures[i][TURNS];
    let total = figures[i][TOTAL];
    let exact = figures[i][EXACT];
    figures[i] = [turns, total, exact, ticks];
}

// What the analysis noted at each row, beside the row's other figures: the ticks of one pass of the block that it begins, the variables
// that are not known before the loop that it ends, else 0.
pub fn put_ticks(own: &[u64; 256], figures: &mut [[u64; 4]; 256])
    requires { (length own.now ≡ 256) × (length figures.old ≡ 256) }
    ensures { (figures.new ≡ put_ticks own.now 256 figures.old)
        × (length figures.new ≡ 256) }
{
    for i in 0..256 {
        put_own(figures, i, own[i]);
    }
}

// The greatest figure of a column.
pub fn greatest(figures: &[[u64; 4]; 256], column: usize) -> u64
    requires { (column < 4) × (length figures.now ≡ 256) }
    ensures { result ≡ most_in column figures.now }
{
    let mut most: u64 = 0;
    for i in 0..256 {
        most = most.max(figures[i][column]);
    }
    most
}
