// Where an expression breaks.
ghost use Rattle.std.specs.Prelude.{◌≡◌, cond, ◌+◌, ◌≤◌, ◌<◌, length, drop, IfSome};
ghost use Rattle.rules.specs.Parse.{is_mark};
ghost use Rattle.line_causes.specs.Breaks.{to_mark, leaf_text, is_leaf, on, mark_turn, turn_of, broken_at};

use crate::shapes::is_variable;
use program_words::is_number;

// A number, a variable or `(` is due; inside a number or a variable; after `)`.
#[derive(Clone, Copy, Debug, PartialEq, Eq)]
pub enum Mode {
    Due,
    Inside,
    Shut,
}

// How an expression goes on, with so many parentheses open.
#[derive(Clone, Copy)]
pub struct Turn {
    pub mode: Mode,
    pub depth: usize,
}

// ( ) * + -
#[tactic(auto, unfolding(rules::specs::Parse::is_mark))]
fn is_mark(b: u8) -> bool
    ensures { result ≡ is_mark b }
{
    matches!(b, b'('..=b'+' | b'-')
}

// How many bytes stand before the first mark.
fn to_mark(s: &[u8]) -> usize
    ensures value { result ≡ to_mark s.now }
    ensures upper_bound { result ≤ length s.now }
{
    s.iter().position(|b| is_mark(*b)).unwrap_or(s.len())
}

// Is it a number or a variable?
#[tactic(auto, unfolding(crate::specs::Breaks::is_leaf))]
fn is_leaf(t: &[u8]) -> bool
    ensures { result ≡ is_leaf t.now }
{
    is_number(t) || is_variable(t)
}

// Does one begin at a byte, and go on to the next mark?
fn leaf_at(t: &[u8], at: usize) -> bool
    requires { at < length t.now }
    ensures { result ≡ is_leaf (leaf_text (drop at t.now)) }
{
    let rest = at + 1;
    let end = rest + to_mark(&t[rest..]);
    is_leaf(&t[at..end])
}

// After a number, a variable or a parenthesis.
#[tactic(auto, unfolding(crate::specs::Breaks::mark_turn, crate::specs::Breaks::operates))]
fn mark_turn(depth: usize, b: u8) -> Option<Turn>
    ensures value { result ≡ mark_turn depth b }
    ensures open { IfSome result (λ turn. turn.depth ≤ depth) }
{
    match b {
        b'*' | b'+' | b'-' => Some(Turn {
            mode: Mode::Due,
            depth,
        }),
        b')' if depth > 0 => Some(Turn {
            mode: Mode::Shut,
            depth: depth - 1,
        }),
        _ => None,
    }
}

// Where a number, a variable or `(` is due.
#[tactic(auto, using(crate::proofs::Laws::head_at), unfolding(crate::specs::Breaks::turn_of))]
fn due_turn(t: &[u8], at: usize, depth: usize) -> Option<Turn>
    requires { (at < length t.now) × (depth ≤ at) }
    ensures value { result ≡ turn_of Mode.Due depth (drop at t.now) }
    ensures open { IfSome result (λ turn. turn.depth ≤ at + 1) }
{
    if t[at] == b'(' {
        return Some(Turn {
            mode: Mode::Due,
            depth: depth + 1,
        });
    }
    if leaf_at(t, at) {
        return Some(Turn {
            mode: Mode::Inside,
            depth,
        });
    }
    None
}

// Inside a number or a variable.
fn inside_turn(depth: usize, b: u8) -> Option<Turn>
    ensures value { result ≡ cond (is_mark b) (mark_turn depth b) (on Mode.Inside depth) }
    ensures open { IfSome result (λ turn. turn.depth ≤ depth) }
{
    if is_mark(b) {
        return mark_turn(depth, b);
    }
    Some(Turn {
        mode: Mode::Inside,
        depth,
    })
}

// What the byte `at` of an expression does, if it goes on there.
#[tactic(auto, using(crate::proofs::Laws::head_at), unfolding(crate::specs::Breaks::turn_of))]
fn turn_at(t: &[u8], at: usize, turn: Turn) -> Option<Turn>
    requires { (at < length t.now) × (turn.depth ≤ at) }
    ensures value { result ≡ turn_of turn.mode turn.depth (drop at t.now) }
    ensures open { IfSome result (λ next. next.depth ≤ at + 1) }
{
    match turn.mode {
        Mode::Due => due_turn(t, at, turn.depth),
        Mode::Inside => inside_turn(turn.depth, t[at]),
        Mode::Shut => mark_turn(turn.depth, t[at]),
    }
}

// How many bytes of a word may be the beginning of an expression.
pub fn broken_at(t: &[u8]) -> usize
    ensures value { result ≡ broken_at t.now }
    ensures upper_bound { result ≤ length t.now }
{
    let mut turn = Turn {
        mode: Mode::Due,
        depth: 0,
    };
    for at in 0..t.len() {
        let Some(next) = turn_at(t, at, turn) else {
            return at;
        };
        turn = next;
    }
    t.len()
}
