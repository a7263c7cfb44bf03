// The only row of a block that assigns a variable. The text is not read, as in analysis_steps.
ghost use Rattle.std.specs.Prelude.{◌≡◌, List, ℕ, ◌<◌};
ghost use Rattle.table.specs.Code.{rows_of};
ghost use Rattle.analysis_steps.specs.Tree.{Ready};
ghost use Rattle.analysis_steps.specs.Soles.{AtRow, AtRead, ReadAt, SoleAt};

use crate::variable_set::VariableSet;
use crate::{moves_of, sets_it};
use rules::{Comparison, Kind, Operand};
use table::{Shape, kind_at, past_else, shape_at};

// What a row that assigns a variable reads another one for: to copy it, or to compare it with a constant (off).
#[derive(Clone, Copy)]
pub enum Read {
    Copy,
    Off(Comparison, i32),
}

// What the only row that assigns a variable in a block, directly in it, reads: another variable, what for, and whether rows before and
// after that row assign it.
#[derive(Clone, Copy)]
pub struct SoleRead {
    pub other: u8,
    pub read: Read,
    pub before: bool,
    pub after: bool,
}

// At the row i, which assigns v and reads w, behind rows that assign a set.
fn read_at(
    rows: &[u32],
    count: usize,
    i: usize,
    v: u8,
    w: u8,
    read: Read,
    before: VariableSet,
) -> Option<SoleRead>
    requires { (text : List ℕ) × AtRead text (rows_of rows.now) count i v w read }
    ensures { ((text : List ℕ) → AtRead text (rows_of rows.now) count i v w read → ReadAt text
        (rows_of rows.now) count i v before result) }
{
    if w == v {
        return None;
    }
    let mut rest = VariableSet::new();
    moves_of(rows, count, i + 1, v, &mut rest);
    if rest.contains(v) {
        return None;
    }
    if before.contains(v) {
        return None;
    }
    Some(SoleRead {
        other: w,
        read,
        before: before.contains(w),
        after: rest.contains(w),
    })
}

// At the row i, which assigns v, behind rows that assign a set.
fn sole_at(rows: &[u32], count: usize, i: usize, v: u8, before: VariableSet) -> Option<SoleRead>
    requires { (text : List ℕ) × AtRow text (rows_of rows.now) count i v }
    ensures { ((text : List ℕ) → AtRow text (rows_of rows.now) count i v → ReadAt text
        (rows_of rows.now) count i v before result) }
{
    match kind_at(rows, i) {
        Kind::Set(_, x) => match x {
            Operand::Variable(w) => read_at(rows, count, i, v, w, Read::Copy, before),
            _ => None,
        },
        Kind::Off(_, w, c, k) => read_at(rows, count, i, v, w, Read::Off(c, k), before),
        _ => None,
    }
}

// The only assignment of v in the block that starts at row `at`.
pub fn sole_of(rows: &[u32], count: usize, at: usize, v: u8) -> Option<SoleRead>
    requires { ((text : List ℕ) × Ready text (rows_of rows.now) count at) × (v < 16) }
    ensures { ((text : List ℕ) → Ready text (rows_of rows.now) count at → SoleAt text (rows_of rows.now)
        count at v result) }
{
    let mut set = VariableSet::new();
    let mut i = at;
    // i goes past a whole block at a time
    while i < count {
        match shape_at(rows, i) {
            Shape::Plain => {
                if sets_it(rows, i, v) {
                    return sole_at(rows, count, i, v, set);
                }
                set.insert_assigned(rows, i);
                i += 1;
            }
            Shape::Branch => {
                let first = moves_of(rows, count, i + 1, v, &mut set);
                let second = moves_of(rows, count, past_else(rows, first.next), v, &mut set);
                i = second.next + 1;
            }
            Shape::Loop => {
                let body = moves_of(rows, count, i + 1, v, &mut set);
                set.insert_assigned(rows, i);
                i = body.next + 1;
            }
            Shape::Close => {
                return None;
            }
        }
    }
    None
}
