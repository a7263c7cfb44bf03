// What a word of a row is asked, the questions 3, 17, 4 and 5, and what it says.
ghost use Rattle.std.specs.Prelude.{◌≡◌, ℕ, ◌≤◌, ◌<◌, length, pos, nat_abs};
ghost use Rattle.rules.specs.Values.{highest};
ghost use Rattle.rules.specs.File.{asks_end, asks_number, asks_variable, asks_expr, asks_comparison, asks_ordered, asks_change, asks_step};
ghost use Rattle.rules.specs.File.{asks_one, asks_order, number_of, variable_of, comparison_of, change_of, step_of};
ghost use Rattle.rules.specs.Parse.{parse};
ghost use Rattle.reading.specs.Answers.{answer_number};
ghost use Rattle.reading.specs.Words.{text_in};
ghost use Rattle.reading.specs.Meaning.{line_expr, Meant, OperandFits, line_operand};

use crate::order::{Answer, LineQuestion};
use crate::questions::question;
use crate::text::{LineWords, word};
use rules::{Change, Comparison, Name, Operand, Word};

// Question 4 of a number.
fn inside(lo: i32, hi: i32, z: i32) -> Answer
    ensures { answer_number result ≡ asks_number lo hi (Word.Number z) }
{
    if lo <= z && z <= hi {
        return Ok(());
    }
    Err(LineQuestion::Limits)
}

// A number from lo to hi.
pub fn asks_number(lo: i32, hi: i32, w: Word) -> Answer
    ensures { answer_number result ≡ asks_number lo hi w }
{
    match w {
        Word::Number(z) => inside(lo, hi, z),
        _ => Err(LineQuestion::Shape),
    }
}

// Question 5 of a variable.
fn below(vars: u32, v: u32) -> Answer
    ensures { answer_number result ≡ asks_variable vars (Word.Variable v) }
{
    if v < vars {
        return Ok(());
    }
    Err(LineQuestion::Variable)
}

// A variable below V.
pub fn asks_variable(vars: u32, w: Word) -> Answer
    ensures { answer_number result ≡ asks_variable vars w }
{
    match w {
        Word::Variable(v) => below(vars, v),
        _ => Err(LineQuestion::Shape),
    }
}

// The questions of a word that is to be an expression: the bytes from `at + 1` to `end`.
fn asks_text(s: &[u8], at: usize, end: usize, vars: u32) -> Answer
    requires { (end ≤ length s.now) × (vars ≤ 16) }
    ensures { answer_number result ≡ asks_expr vars (parse (text_in s.now at end)) }
{
    if at < end {
        return question(&s[at + 1..end], vars);
    }
    Err(LineQuestion::Shape)
}

// The same of word k of a line: a constant or a variable alone is not read again.
pub fn asks_expression(s: &[u8], line: LineWords, k: usize, vars: u32) -> Answer
    requires { Meant s.now vars line × (k < 8) }
    ensures { answer_number result ≡ asks_expr vars (line_expr s.now line k) }
{
    match word(line, k) {
        Word::Number(z) => inside(-1_000_000_000, 1_000_000_000, z),
        Word::Variable(v) => below(vars, v),
        _ => asks_text(s, line.ends[k], line.ends[k + 1], vars),
    }
}

// A comparison.
pub fn asks_comparison(w: Word) -> Answer
    ensures { answer_number result ≡ asks_comparison w }
{
    match w {
        Word::Compares(_) => Ok(()),
        _ => Err(LineQuestion::Shape),
    }
}

// < <= > or >=.
pub fn asks_ordered(w: Word) -> Answer
    ensures { answer_number result ≡ asks_ordered w }
{
    match w {
        Word::Compares(
            Comparison::Less | Comparison::AtMost | Comparison::Greater | Comparison::AtLeast,
        ) => Ok(()),
        _ => Err(LineQuestion::Shape),
    }
}

// The number 1.
pub fn asks_one(w: Word) -> Answer
    ensures { answer_number result ≡ asks_one w }
{
    match w {
        Word::Number(1) => Ok(()),
        _ => Err(LineQuestion::Shape),
    }
}

// The number that a word says.
pub fn number_of(w: Word) -> i32
    ensures { result ≡ number_of w }
{
    match w {
        Word::Number(z) => z,
        _ => 0,
    }
}

// LO at most HI.
pub fn asks_order(lo: Word, hi: Word) -> Answer
    ensures { answer_number result ≡ asks_order lo hi }
{
    if number_of(lo) <= number_of(hi) {
        return Ok(());
    }
    Err(LineQuestion::Limits)
}

// A number that is not below 0.
pub fn amount(w: Word) -> u32
    requires { asks_number (pos 0) highest w ≡ 0 }
    ensures { result ≡ nat_abs (number_of w) }
{
    number_of(w) as u32
}

// The variable that a word says.
pub fn variable_of(w: Word) -> u8
    requires { (vars : ℕ) × (vars ≤ 16) × (asks_variable vars w ≡ 0) }
    ensures { result ≡ variable_of w }
{
    match w {
        Word::Variable(v) => v as u8,
        _ => 0,
    }
}

// The operand that word k of a line says: an expression by its place and length in the file, where the line's text begins at `base`.
pub fn operand_of(base: usize, line: LineWords, k: usize) -> Operand
    requires { (k < 8) × OperandFits base line k }
    ensures { result ≡ line_operand base line k }
{
    match word(line, k) {
        Word::Number(z) => Operand::Constant(z),
        Word::Variable(v) => Operand::Variable(v as u8),
        _ => {
            let begin = line.ends[k] + 1;
            let end = line.ends[k + 1];
            Operand::Expression((base + begin) as u16, (end - begin) as u16)
        }
    }
}

// The comparison that a word says.
pub fn comparison_of(w: Word) -> Comparison
    ensures { result ≡ comparison_of w }
{
    match w {
        Word::Compares(c) => c,
        _ => Comparison::Less,
    }
}

// The constant of an arithmetic row.
pub fn asks_change(name: Name, w: Word) -> Answer
    ensures { answer_number result ≡ asks_change name w }
{
    match name {
        Name::Add | Name::Sub => asks_number(0, 1_000_000_000, w),
        Name::Mul => asks_number(1, 1_000_000_000, w),
        Name::Div => asks_number(1, 1_000_000_000, w),
        _ => Err(LineQuestion::Shape),
    }
}

// The change of an arithmetic row.
pub fn change_of(name: Name, w: Word) -> Change
    requires { asks_change name w ≡ 0 }
    ensures { result ≡ change_of name w }
{
    match name {
        Name::Add => Change::Add(amount(w)),
        Name::Sub => Change::Sub(amount(w)),
        Name::Mul => Change::Mul(amount(w)),
        Name::Div => Change::Div(amount(w)),
        _ => Change::Add(0),
    }
}

// A for's step row.
pub fn asks_step(x: Word, w: Word) -> Answer
    ensures { answer_number result ≡ asks_step x w }
{
    match x {
        Word::Keyword(n) => asks_change(n, w),
        _ => Err(LineQuestion::Shape),
    }
}

// A for's step.
pub fn step_of(x: Word, w: Word) -> Change
    requires { asks_step x w ≡ 0 }
    ensures { result ≡ step_of x w }
{
    match x {
        Word::Keyword(n) => change_of(n, w),
        _ => Change::Add(0),
    }
}

// No word: nothing stands after the last.
pub fn asks_end(w: Word) -> Answer
    ensures { answer_number result ≡ asks_end w }
{
    match w {
        Word::Missing => Ok(()),
        _ => Err(LineQuestion::Shape),
    }
}
