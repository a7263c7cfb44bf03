// How a variable moves in one turn: walks over the rows of a block, nested blocks first. No walk reads the text that the rows'
// expressions stand in: its answer is that for each text with which the rows are a tree.
#![tactic(auto)]

pub mod only_rows;
pub mod rows;
pub mod variable_set;

ghost use Rattle.std.specs.Prelude.{◌≡◌, List, ℕ, ◌+◌, ◌*◌, ◌<◌, length};
ghost use Rattle.rules.specs.Steps.{sets, row_step};
ghost use Rattle.rules.specs.Bounds.{Fine};
ghost use Rattle.table.specs.Code.{kind_at, rows_of};
ghost use Rattle.table.specs.Shapes.{plain_of};
ghost use Rattle.analysis_steps.specs.Tree.{Ready};
ghost use Rattle.analysis_steps.specs.Body.{AtLoop, MovesOf, BodyMoves};

use crate::rows::{change_step, only};
use crate::variable_set::VariableSet;
use rules_steps::Step;
use table::{Shape, Tag, assigns, change_at, past_else, shape_at, tag_at, variable_at};

// Does a plain row assign v, or a for's step row?
pub fn sets_it(rows: &[u32], i: usize, v: u8) -> bool
    requires { 4 * i + 3 < length rows.now }
    ensures { (text : List ℕ) → result ≡ sets v (plain_of text (kind_at (rows_of rows.now) i)) }
{
    assigns(rows, i) && v == variable_at(rows, i)
}

// The step of a row; of a for, the step of its step row.
fn row_step(rows: &[u32], i: usize, v: u8) -> Step
    requires { (4 * i + 3 < length rows.now) × Fine (kind_at (rows_of rows.now) i) }
    ensures { (text : List ℕ) → result ≡ row_step v (plain_of text (kind_at (rows_of rows.now) i)) }
{
    if !sets_it(rows, i, v) {
        return Step::STILL;
    }
    match tag_at(rows, i) {
        Tag::Set | Tag::Off => Step::Unknown,
        _ => change_step(change_at(rows, i)),
    }
}

// The step of one variable over some rows, and the row after them.
#[derive(Clone, Copy, Debug, PartialEq, Eq)]
pub struct StepOver {
    pub step: Step,
    pub next: usize,
}

// What the block that starts at row `at` does: its variables are added to the set; the step of v, and the row that closes the block.
pub fn moves_of(rows: &[u32], count: usize, at: usize, v: u8, set: &mut VariableSet) -> StepOver
    requires { ((text : List ℕ) × Ready text (rows_of rows.now) count at) × (v < 16) }
    ensures { ((text : List ℕ) → Ready text (rows_of rows.now) count at → MovesOf text
        (rows_of rows.now) count at v set.old set.new result) }
{
    let mut step = Step::STILL;
    let mut i = at;
    // i goes past a whole block at a time
    while i < count {
        match shape_at(rows, i) {
            Shape::Plain => {
                set.insert_assigned(rows, i);
                if sets_it(rows, i, v) {
                    step = step.then(row_step(rows, i, v));
                }
                i += 1;
            }
            Shape::Branch => {
                let first = moves_of(rows, count, i + 1, v, set);
                let second = moves_of(rows, count, past_else(rows, first.next), v, set);
                step = step.then(first.step.either(second.step));
                i = second.next + 1;
            }
            Shape::Loop => {
                let mut inner = VariableSet::new();
                let body = moves_of(rows, count, i + 1, v, &mut inner);
                inner.insert_assigned(rows, i);
                step = step.then(only(inner.contains(v), Step::Unknown));
                set.extend(inner);
                i = body.next + 1;
            }
            Shape::Close => {
                return StepOver { step, next: i };
            }
        }
    }
    StepOver { step, next: i }
}

// What a loop's body does: the variables that it assigns, and the step of one variable.
#[derive(Clone, Copy, Debug, PartialEq, Eq)]
pub struct Moves {
    pub set: VariableSet,
    pub step: Step,
}

// What the body of the loop at row i does, a for's step row included, with the step of v.
pub fn body_moves(rows: &[u32], count: usize, i: usize, v: u8) -> Moves
    requires { ((text : List ℕ) × AtLoop text (rows_of rows.now) count i) × (v < 16) }
    ensures { ((text : List ℕ) → AtLoop text (rows_of rows.now) count i → BodyMoves text
        (rows_of rows.now) count i v result) }
{
    let mut set = VariableSet::new();
    let body = moves_of(rows, count, i + 1, v, &mut set);
    set.insert_assigned(rows, i);
    let step = body.step.then(row_step(rows, i, v));
    Moves { set, step }
}
