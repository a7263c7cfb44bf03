// Arithmetic on one value: operands, arithmetic rows, limits.
#![tactic(auto)]

ghost use Rattle.std.specs.Prelude.{◌≡◌, ◌≤◌, ◌<◌, length, take, drop};
ghost use Rattle.ints.specs.Ints.{floor_z};
ghost use Rattle.rules.specs.Values.{value, quotient, applied};
ghost use Rattle.rules.specs.Scripts.{store_of, ExprBelow, ChangeLimits};
ghost use Rattle.rules.specs.Blocks.{expr_of};
ghost use Rattle.rules.specs.Parse.{expr_in, parse};
ghost use Rattle.rules.specs.Written.{InText, WrittenOperand};
ghost use Rattle.values.specs.Results.{result_in};

use rules::{Change, Operand};

// What stands for a result past ±L: more than any 32-bit number. No Option: with one number, constants and variables take the short way
// (docs/SPEED.md).
pub const PAST: i64 = 4_000_000_000;

// The number of a variable.
pub fn stored(v: u8, store: &[i32]) -> i32
    requires { v < length store.now }
    ensures { result ≡ store_of store.now v }
{
    store[v as usize]
}

// What the expression at `at`, n bytes long, comes to, or PAST.
fn come_to(text: &[u8], at: u16, n: u16, store: &[i32]) -> i64
    requires { InText text.now at n }
    ensures { result_in result ≡ value (expr_in (parse (take n (drop at text.now)))) (store_of store.now) }
{
    let from = at as usize;
    let to = from + n as usize;
    match expressions::value_in(&text[from..to], store) {
        Some(v) => v as i64,
        None => PAST,
    }
}

// The value of an operand, or PAST.
pub fn value_of(text: &[u8], x: Operand, store: &[i32]) -> i64
    requires { WrittenOperand text.now x × ExprBelow (length store.now) (expr_of text.now x) }
    ensures { result_in result ≡ value (expr_of text.now x) (store_of store.now) }
{
    match x {
        Operand::Expression(at, n) => come_to(text, at, n, store),
        Operand::Constant(k) => k as i64,
        Operand::Variable(w) => stored(w, store) as i64,
    }
}

// z over k, rounded down: `/` cuts toward zero.
pub fn floor(z: i64, k: u64) -> i64
    requires { (1 ≤ k) × (k ≤ 4_000_000_000_000) }
    ensures { result ≡ floor_z z k }
{
    z.div_euclid(k as i64)
}

// The quotient of a `div` row: the next lower whole number.
fn quotient_of(x: i32, c: u32) -> i64
    requires { 1 ≤ c }
    ensures { result ≡ quotient x c }
{
    floor(x as i64, c as u64)
}

// An arithmetic row, applied to a value.
pub fn changed(change: Change, x: i32) -> i64
    requires { ChangeLimits change }
    ensures { result ≡ applied change x }
{
    match change {
        Change::Add(c) => x as i64 + c as i64,
        Change::Sub(c) => x as i64 - c as i64,
        Change::Mul(c) => x as i64 * c as i64,
        Change::Div(c) => quotient_of(x, c),
    }
}
