// How a loop's turns are counted: by its own step, by a copied or a watched variable, or by a difference. Only the answer to question 10
// reads the text.
ghost use Rattle.std.specs.Prelude.{◌≡◌, List, ℕ, ◌<◌, take, drop};
ghost use Rattle.rules.specs.Parse.{parse, expr_in};
ghost use Rattle.rules.specs.Blocks.{Block, expr_of};
ghost use Rattle.rules.specs.Written.{InText, WrittenOperand};
ghost use Rattle.rules.specs.Steps.{assigns};
ghost use Rattle.rules.specs.Ranges.{is_do, is_hold};
ghost use Rattle.rules.specs.Trips as trips;
ghost use Rattle.rules.specs.Bounds.{Fine, FineOperand};
ghost use Rattle.table.specs.Code.{rows_of};
ghost use Rattle.analysis_steps.specs.Tree.{form_of};
ghost use Rattle.analysis_steps.specs.Sets.{set_of};
ghost use Rattle.analysis_steps.specs.Body.{AtLoop};
ghost use Rattle.analysis_loops.specs.Heads.{HeadOf, is_for};
ghost use Rattle.analysis_loops.specs.Ways.{CopiedAt, WatchedAt, SoleFrom, HoldAt, ChaseAt, LimitAt, WayFrom, WayAt};

use analysis_intervals::comparisons::{chases, copies, difference, known, watches};
use analysis_steps::body_moves;
use analysis_steps::only_rows::{Read, sole_of};
use analysis_steps::variable_set::VariableSet;
use expressions::names::keeps_in;
use rules::{Comparison, Kind, Operand};
use rules_steps::Step;
use table::kind_at;

// The test of a loop.
#[derive(Clone, Copy)]
pub struct LoopTest {
    pub tested: u8,
    pub comparison: Comparison,
    pub limit: Operand,
}

// The test of a loop's head; any other row gives what is not read.
pub fn head_of(kind: Kind) -> LoopTest
    requires { Fine kind }
    ensures { (text : List ℕ) → HeadOf text kind result }
{
    match kind {
        Kind::While(tested, comparison, limit)
        | Kind::Do(tested, comparison, limit)
        | Kind::For(tested, _, comparison, limit, _) => LoopTest {
            tested,
            comparison,
            limit,
        },
        Kind::Hold(tested) => LoopTest {
            tested,
            comparison: Comparison::Different,
            limit: Operand::Constant(0),
        },
        _ => NO_HEAD,
    }
}

const NO_HEAD: LoopTest = LoopTest {
    tested: 0,
    comparison: Comparison::Less,
    limit: Operand::Constant(0),
};

// A do is tested after its body.
#[tactic(auto, unfolding(analysis_steps::specs::Tree::head_of, rules::specs::Blocks::view_of, rules::specs::Blocks::kind_of))]
pub fn is_do(kind: Kind) -> bool
    ensures { (text : List ℕ) → result ≡ is_do (form_of text kind) }
{
    matches!(kind, Kind::Do(_, _, _))
}

// 10: is no variable of an expression assigned in the body?
fn word_keeps(text: &[u8], at: u16, n: u16, set: VariableSet) -> bool
    requires { InText text.now at n }
    ensures { ((body : Block) → ((w : ℕ) → set_of set w ≡ assigns w body) → result ≡ trips.keeps
        (expr_in (parse (take n (drop at text.now)))) body) }
{
    let from = at as usize;
    keeps_in(&text[from..from + n as usize], set.has)
}

// 10: is no variable of the limit assigned in the body?
pub fn keeps(text: &[u8], limit: Operand, set: VariableSet) -> bool
    requires { FineOperand limit × WrittenOperand text.now limit }
    ensures { ((body : Block) → ((w : ℕ) → set_of set w ≡ assigns w body) → result ≡ trips.keeps (expr_of text.now limit)
        body) }
{
    match limit {
        Operand::Constant(_) => true,
        Operand::Variable(w) => !set.contains(w),
        Operand::Expression(at, n) => word_keeps(text, at, n, set),
    }
}

// A for.
#[tactic(auto, unfolding(analysis_steps::specs::Tree::head_of, rules::specs::Blocks::view_of, rules::specs::Blocks::kind_of))]
fn is_for(kind: Kind) -> bool
    ensures { (text : List ℕ) → result ≡ is_for (form_of text kind) }
{
    matches!(kind, Kind::For(_, _, _, _, _))
}

// A hold.
#[tactic(auto, unfolding(analysis_steps::specs::Tree::head_of, rules::specs::Blocks::view_of, rules::specs::Blocks::kind_of))]
pub fn is_hold(kind: Kind) -> bool
    ensures { (text : List ℕ) → result ≡ is_hold (form_of text kind) }
{
    matches!(kind, Kind::Hold(_))
}

// How turns are counted: by the tested variable's own step; by that of a variable copied into it, whose rows come before the copy or not;
// by that of its difference from the limit; by that of a variable that an off compares, whose rows come before the off or not; or not at
// all, of a hold that breaks its terms.
#[derive(Clone, Copy)]
pub enum Way {
    Own,
    Copied(u8, bool, Step),
    Chase(u8, Step),
    Watched(u8, Comparison, i32, bool, Step),
    Broken,
}

// The tested variable's only row copies w.
fn copied_way(
    rows: &[u32],
    count: usize,
    i: usize,
    comparison: Comparison,
    w: u8,
    before: bool,
    after: bool,
) -> Way
    requires { ((text : List ℕ) × AtLoop text (rows_of rows.now) count i) × (w < 16) }
    ensures { ((text : List ℕ) → AtLoop text (rows_of rows.now) count i → CopiedAt text
        (rows_of rows.now) count i comparison w before after result) }
{
    let step = body_moves(rows, count, i, w).step;
    if copies(comparison, step, before, after) {
        Way::Copied(w, before, step)
    } else {
        Way::Own
    }
}

// Which way the while, do or for at row i goes, by the only row of its tested variable, which has no step of its own.
fn sole_way(rows: &[u32], count: usize, i: usize) -> Way
    requires { (text : List ℕ) × SoleFrom text (rows_of rows.now) count i }
    ensures { ((text : List ℕ) → SoleFrom text (rows_of rows.now) count i → WayAt text
        (rows_of rows.now) count i result) }
{
    let kind = kind_at(rows, i);
    if is_for(kind) {
        return Way::Own;
    }
    let head = head_of(kind);
    match sole_of(rows, count, i + 1, head.tested) {
        None => Way::Own,
        Some(only) => match only.read {
            Read::Copy => copied_way(
                rows,
                count,
                i,
                head.comparison,
                only.other,
                only.before,
                only.after,
            ),
            Read::Off(_, _) => Way::Own,
        },
    }
}

// The flag's only row is an off that compares w with k.
fn watched_way(
    rows: &[u32],
    count: usize,
    i: usize,
    w: u8,
    comparison: Comparison,
    k: i32,
    before: bool,
    after: bool,
) -> Way
    requires { ((text : List ℕ) × AtLoop text (rows_of rows.now) count i) × (w < 16) }
    ensures { ((text : List ℕ) → AtLoop text (rows_of rows.now) count i → WatchedAt text
        (rows_of rows.now) count i w comparison k before after result) }
{
    let step = body_moves(rows, count, i, w).step;
    if watches(comparison, step, before, after) {
        Way::Watched(w, comparison, k, before, step)
    } else {
        Way::Broken
    }
}

// Which way the hold at row i goes, by the only row of its flag.
fn hold_way(rows: &[u32], count: usize, i: usize) -> Way
    requires { (text : List ℕ) × HoldAt text (rows_of rows.now) count i }
    ensures { ((text : List ℕ) → HoldAt text (rows_of rows.now) count i → WayAt text
        (rows_of rows.now) count i result) }
{
    let kind = kind_at(rows, i);
    let flag = head_of(kind).tested;
    match sole_of(rows, count, i + 1, flag) {
        None => Way::Broken,
        Some(only) => match only.read {
            Read::Copy => Way::Broken,
            Read::Off(c, k) => watched_way(
                rows,
                count,
                i,
                only.other,
                c,
                k,
                only.before,
                only.after,
            ),
        },
    }
}

// The limit is the variable w, which the body assigns; step: the tested variable's own.
fn chased_way(rows: &[u32], count: usize, i: usize, head: LoopTest, step: Step, w: u8) -> Way
    requires { (text : List ℕ) × ChaseAt text (rows_of rows.now) count i head step w }
    ensures { ((text : List ℕ) → ChaseAt text (rows_of rows.now) count i head step w → WayAt text
        (rows_of rows.now) count i result) }
{
    if w == head.tested {
        return Way::Own;
    }
    let other = body_moves(rows, count, i, w).step;
    if chases(head.comparison, step, other) {
        Way::Chase(w, difference(step, other))
    } else {
        Way::Own
    }
}

// Which way the loop at row i goes, by its limit, which the body assigns; step: the tested variable's own, which is known.
fn limit_way(rows: &[u32], count: usize, i: usize, step: Step) -> Way
    requires { (text : List ℕ) × LimitAt text (rows_of rows.now) count i step }
    ensures { ((text : List ℕ) → LimitAt text (rows_of rows.now) count i step → WayAt text
        (rows_of rows.now) count i result) }
{
    let kind = kind_at(rows, i);
    let head = head_of(kind);
    match head.limit {
        Operand::Variable(w) => chased_way(rows, count, i, head, step, w),
        Operand::Constant(_) | Operand::Expression(_, _) => Way::Own,
    }
}

// Which way the loop at row i goes; held: it is a hold; step: its tested variable's own; kept: the answer to question 10.
pub fn way_of(rows: &[u32], count: usize, i: usize, held: bool, step: Step, kept: bool) -> Way
    requires { (text : List ℕ) × WayFrom text (rows_of rows.now) count i held step kept }
    ensures { ((text : List ℕ) → WayFrom text (rows_of rows.now) count i held step kept → WayAt text
        (rows_of rows.now) count i result) }
{
    if held {
        return hold_way(rows, count, i);
    }
    if !known(step) {
        return sole_way(rows, count, i);
    }
    if kept {
        return Way::Own;
    }
    limit_way(rows, count, i, step)
}
