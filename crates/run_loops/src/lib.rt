// The loops of a script in row order, with their two counts.
#![tactic(auto)]

ghost use Rattle.std.specs.Prelude.{◌≡◌, List, ℕ, ◌+◌, ◌*◌, ◌<◌, ◌^◌, max, length, get_or};
ghost use Rattle.rules.specs.Blocks.{view_of, kind_of};
ghost use Rattle.rules.specs.Calls.{is_loop_row};
ghost use Rattle.table.specs.Code.{rows_of, kind_at};
ghost use Rattle.run_loops.specs.Loops.{Counted, LoopsOf};

use rules::{ALL, LoopCount, MOST, TURNS};
use table::Shape;

// What stands past the last loop.
pub const NO_COUNT: LoopCount = LoopCount {
    row: 0,
    all: 0,
    most: 0,
};

// At most 16 loops, with their counts in row order.
#[derive(Clone, Copy, Debug, PartialEq, Eq)]
pub struct Loops {
    pub count: usize,
    pub counts: [LoopCount; 16],
}

// Does row i begin a loop?
pub fn is_loop(rows: &[u32], i: usize) -> bool
    requires { 4 * i + 3 < length rows.now }
    ensures { (text : List ℕ) → result ≡ is_loop_row (view_of (kind_of text (kind_at (rows_of rows.now) i))) }
{
    matches!(table::shape_at(rows, i), Shape::Loop)
}

// The counts of the loop at a row: the current entry is added to those before it.
fn count_of(row: usize, c: [u64; 3]) -> LoopCount
    requires { get_or c 1 0 + get_or c 0 0 < 2 ^ 63 }
    ensures { result ≡ record { row = row; all = get_or c 1 0 + get_or c 0 0; most = max (get_or c 2 0) (get_or c 0 0) } }
{
    LoopCount {
        row,
        all: c[ALL] + c[TURNS],
        most: c[MOST].max(c[TURNS]),
    }
}

// The loops of the first `count` rows.
pub fn loops_of(rows: &[u32], count: usize, counts: &[[u64; 3]; 16]) -> Loops
    requires { (text : List ℕ) × Counted text rows.now count counts.now }
    ensures { LoopsOf rows.now count counts.now result }
{
    let mut listed = [NO_COUNT; 16];
    let mut k: usize = 0;
    for j in 0..count {
        if is_loop(rows, j) {
            listed[k] = count_of(j, counts[k]);
            k += 1;
        }
    }
    Loops {
        count: k,
        counts: listed,
    }
}
