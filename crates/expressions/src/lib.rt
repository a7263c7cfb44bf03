// Expressions: what a word comes to, in ranges and in a run.
#![tactic(auto)]

pub mod leaves;
pub mod names;
pub mod operators;

ghost use Rattle.std.specs.Prelude.{◌≡◌, ℕ, length, drop, pos, Some};
ghost use Rattle.rules.specs.Expressions.{Numbers};
ghost use Rattle.rules.specs.Values.{value};
ghost use Rattle.rules.specs.Parse.{atom, read_expression, read_term, read_factor, expr_in, parse};
ghost use Rattle.rules.specs.Evaluate.{range_in, evaluated};
ghost use Rattle.rules.specs.Ranges.{bounds};
ghost use Rattle.rules.specs.Scripts.{store_of};
ghost use Rattle.rules.specs.Written.{PassedWord};
ghost use Rattle.expressions.specs.Operators.{ranges, run_numbers, run_result, joined_by};
ghost use Rattle.expressions.specs.Evaluating.{entry, values_of, ends_of, shut, Gives};

use crate::leaves::digits_at;
use crate::operators::{combined, operated, sum_at, times_at};
use rules::{Operator, Value};

// What constants, variables and operators come to: ranges for the analysis, numbers for a run.
pub trait Evaluation {
    type Number: Copy;

    ghost numbers: { Numbers Self.Number };

    ghost variables: { Self → ℕ → Self.Number };

    fn constant(&self, value: i32) -> Self::Number
        ensures { result ≡ numbers.of_constant value };

    fn variable(&self, index: usize) -> Self::Number
        ensures { result ≡ variables self.now index };

    fn operated(&self, operator: Operator, a: Self::Number, b: Self::Number) -> Self::Number
        ensures { result ≡ numbers.of_operator operator a b };
}

// A number by its index, 0 past the last.
fn entry(s: &[i32], i: usize) -> i32
    ensures { result ≡ entry s.now i }
{
    if i < s.len() { s[i] } else { 0 }
}

// Each variable's least and greatest number.
#[derive(Clone, Copy)]
struct Ends<'a> {
    los: &'a [i32],
    his: &'a [i32],
}

impl<'a> Evaluation for Ends<'a> {
    type Number = Value;

    ghost numbers = { ranges };

    ghost variables = { λ s. values_of s.los.now s.his.now };

    fn constant(&self, value: i32) -> Value {
        Value {
            lo: value,
            hi: value,
            past: false,
        }
    }

    fn variable(&self, index: usize) -> Value {
        Value {
            lo: entry(self.los, index),
            hi: entry(self.his, index),
            past: false,
        }
    }

    fn operated(&self, operator: Operator, a: Value, b: Value) -> Value {
        combined(operator, a, b)
    }
}

// Each variable's number in a run.
#[derive(Clone, Copy)]
struct Store<'a> {
    numbers: &'a [i32],
}

impl<'a> Evaluation for Store<'a> {
    type Number = Option<i32>;

    ghost numbers = { run_numbers };

    ghost variables = { λ s w. Some (entry s.numbers.now w) };

    fn constant(&self, value: i32) -> Option<i32> {
        Some(value)
    }

    fn variable(&self, index: usize) -> Option<i32> {
        Some(entry(self.numbers, index))
    }

    fn operated(&self, operator: Operator, a: Option<i32>, b: Option<i32>) -> Option<i32> {
        operated(operator, a, b)
    }
}

// What part of a text comes to, and the byte after it.
#[derive(Clone, Copy)]
struct Part<N> {
    value: N,
    next: usize,
}

// The constant or variable at `at`, from its digits alone: the questions have passed.
fn operand<E: Evaluation>(text: &[u8], at: usize, e: &E) -> Part<E::Number>
    ensures { Gives E.numbers (E.variables e.now) text.now (atom (drop at text.now)) at result.value result.next }
{
    if at >= text.len() {
        return Part {
            value: e.constant(0),
            next: at,
        };
    }
    match text[at] {
        b'v' => {
            let digits = digits_at(text, at + 1);
            Part {
                value: e.variable(digits.value as usize),
                next: digits.next,
            }
        }
        b'-' => {
            let digits = digits_at(text, at + 1);
            Part {
                value: e.constant(-(digits.value as i32)),
                next: digits.next,
            }
        }
        _ => {
            let digits = digits_at(text, at);
            Part {
                value: e.constant(digits.value as i32),
                next: digits.next,
            }
        }
    }
}

// A byte further, if there is one.
#[tactic(auto, unfolding(crate::specs::Evaluating::shut))]
fn shut(next: usize, end: usize) -> usize
    ensures { result ≡ shut next end }
{
    if next < end { next + 1 } else { next }
}

// The value of the factor at `at`: "A factor may hold a whole expression in parentheses".
#[cycle(expression_factor_term)]
fn factor<E: Evaluation>(text: &[u8], at: usize, e: &E) -> Part<E::Number>
    ensures { Gives E.numbers (E.variables e.now) text.now (read_factor (drop at text.now)) at result.value result.next }
{
    if at < text.len() && text[at] == b'(' {
        let got = expression(text, at + 1, e);
        return Part {
            value: got.value,
            next: shut(got.next, text.len()),
        };
    }
    operand(text, at, e)
}

// A number joined to what stands before it with its operator.
fn joined<E: Evaluation>(
    e: &E,
    before: Option<(Operator, E::Number)>,
    value: E::Number,
) -> E::Number
    ensures { result ≡ joined_by E.numbers before value }
{
    match before {
        Some((operator, a)) => e.operated(operator, a, value),
        None => value,
    }
}

// The value of the term at `at`: factors, from the left. One call of `factor`, so that it is inlined.
#[cycle(expression_factor_term)]
fn term<E: Evaluation>(text: &[u8], at: usize, e: &E) -> Part<E::Number>
    ensures { Gives E.numbers (E.variables e.now) text.now (read_term (λ x. x) (drop at text.now)) at result.value result.next }
{
    let mut before = None;
    let mut from = at;
    loop {
        let part = factor(text, from, e);
        let next = part.next;
        let value = joined(e, before, part.value);
        match times_at(text, next) {
            Some(operator) => {
                before = Some((operator, value));
                from = next + 1;
            }
            None => return Part { value, next },
        }
    }
}

// The value of the expression at `at`: terms, from the left.
#[cycle(expression_factor_term)]
fn expression<E: Evaluation>(text: &[u8], at: usize, e: &E) -> Part<E::Number>
    ensures { Gives E.numbers (E.variables e.now) text.now (read_expression (λ x. x) (drop at text.now)) at result.value result.next }
{
    let mut before = None;
    let mut from = at;
    loop {
        let part = term(text, from, e);
        let next = part.next;
        let value = joined(e, before, part.value);
        match sum_at(text, next) {
            Some(operator) => {
                before = Some((operator, value));
                from = next + 1;
            }
            None => return Part { value, next },
        }
    }
}

// The range of an expression that the questions 3, 17, 4 and 5 have passed: each variable lies between two numbers.
pub fn evaluate(text: &[u8], los: &[i32], his: &[i32]) -> Value
    requires { PassedWord text.now }
    ensures { result ≡ evaluated (values_of los.now his.now) (expr_in (parse text.now)) }
{
    expression(text, 0, &Ends { los, his }).value
}

// The range of such an expression, from the variables' ranges.
pub fn bounds_in(text: &[u8], ranges: &[[i32; 2]; 16]) -> Value
    requires { PassedWord text.now × (length ranges.now ≡ 16) }
    ensures { range_in result ≡ bounds (ends_of ranges.now) (expr_in (parse text.now)) }
{
    let mut los = [0i32; 16];
    let mut his = [0i32; 16];
    for i in 0..16 {
        los[i] = ranges[i][0];
        his[i] = ranges[i][1];
    }
    evaluate(text, &los, &his)
}

// What such an expression comes to in a run, from the store's numbers; none is past ±L.
pub fn value_in(text: &[u8], store: &[i32]) -> Option<i32>
    requires { PassedWord text.now }
    ensures { run_result result ≡ value (expr_in (parse text.now)) (store_of store.now) }
{
    expression(text, 0, &Store { numbers: store }).value
}
