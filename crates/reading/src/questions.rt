// What the reader asks of a word as an expression: the questions 3, 17, 4 and 5.
ghost use Rattle.std.specs.Prelude.{◌≡◌, true, false, cond, ◌≤◌};
ghost use Rattle.rules.specs.Parse.{parse};
ghost use Rattle.rules.specs.File.{asks_expr, asks_leaves};
ghost use Rattle.expressions.specs.Leaves.{leaf_expr};
ghost use Rattle.reading.specs.Asking.{due, shut as after_factor, sizes_of, end_question, MayScan, ScanStep};
ghost use Rattle.reading.specs.Asking.{operates};
ghost use Rattle.reading.specs.Answers.{answer_number};

use crate::order::{Answer, LineQuestion, first_refusal};
use expressions::leaves::{Leaf, leaf_at};
use expressions::operators::within;

// A walk over a word, whose shape is good so far: whether a factor is due, the open parentheses, the most of them at a leaf, the
// operators, the leaves' first no, and the next byte.
#[derive(Clone, Copy)]
struct Scan {
    due: bool,
    depth: usize,
    deep: usize,
    ops: usize,
    asks: Answer,
    at: usize,
}

// The most parentheses open together, and the most operators of an expression: question 17.
const DEEPEST: usize = 8;

const MOST_OPERATORS: usize = 15;

// Before the first byte.
const START: Scan = Scan {
    due: true,
    depth: 0,
    deep: 0,
    ops: 0,
    asks: Ok(()),
    at: 0,
};

// The question that a leaf has no to.
fn asks_leaf(leaf: Leaf, vars: u32) -> Answer
    ensures { answer_number result ≡ asks_leaves vars (leaf_expr leaf) }
{
    match leaf {
        Leaf::Variable(v) if v < vars => Ok(()),
        Leaf::Variable(_) => Err(LineQuestion::Variable),
        Leaf::Constant(k) if within(k as i64) => Ok(()),
        Leaf::Constant(_) => Err(LineQuestion::Limits),
    }
}

// Where a factor is due: a parenthesis, or a constant or a variable.
fn step_due(word: &[u8], vars: u32, c: Scan) -> Result<Scan, LineQuestion>
    requires { (vars ≤ 16) × (c.due ≡ true) × MayScan word.now c }
    ensures { ScanStep vars word.now c result }
{
    if word[c.at] == b'(' {
        return Ok(Scan {
            depth: c.depth + 1,
            at: c.at + 1,
            ..c
        });
    }
    let Some(found) = leaf_at(word, c.at) else {
        return Err(LineQuestion::Shape);
    };
    Ok(Scan {
        due: false,
        deep: c.deep.max(c.depth),
        asks: first_refusal(c.asks, asks_leaf(found.leaf, vars)),
        at: found.next,
        ..c
    })
}

// * + -
#[tactic(auto, unfolding(crate::specs::Asking::operates, expressions::specs::Operators::is_sum))]
fn operates(b: u8) -> bool
    ensures { result ≡ operates b }
{
    matches!(b, b'*' | b'+' | b'-')
}

// After a factor: an operator, or a parenthesis.
fn step_after(word: &[u8], vars: u32, c: Scan) -> Result<Scan, LineQuestion>
    requires { (c.due ≡ false) × MayScan word.now c }
    ensures { ScanStep vars word.now c result }
{
    let b = word[c.at];
    if operates(b) {
        return Ok(Scan {
            due: true,
            ops: c.ops + 1,
            at: c.at + 1,
            ..c
        });
    }
    if b == b')' && 0 < c.depth {
        return Ok(Scan {
            depth: c.depth - 1,
            at: c.at + 1,
            ..c
        });
    }
    Err(LineQuestion::Shape)
}

// After the last byte: 3 if a factor is due or a parenthesis is open, then 17, 4 and 5.
fn verdict(c: Scan) -> Answer
    ensures { answer_number result ≡ end_question (cond c.due due after_factor) c.depth (sizes_of c) }
{
    if c.due || 0 < c.depth {
        return Err(LineQuestion::Shape);
    }
    if c.deep <= DEEPEST && c.ops <= MOST_OPERATORS {
        return c.asks;
    }
    first_refusal(Err(LineQuestion::Size), c.asks)
}

// The first of the questions 3, 17, 4 and 5 that a word has no to as an expression.
pub fn question(word: &[u8], vars: u32) -> Answer
    requires { vars ≤ 16 }
    ensures { answer_number result ≡ asks_expr vars (parse word.now) }
{
    let mut c = START;
    while c.at < word.len() {
        c = if c.due {
            step_due(word, vars, c)?
        } else {
            step_after(word, vars, c)?
        };
    }
    verdict(c)
}
