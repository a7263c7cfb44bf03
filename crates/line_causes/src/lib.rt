// The one cause for which a line has not the shape that its place wants (refusal 3), and the byte where it breaks: read from the left, the
// first word that is not what is wanted there.
#![tactic(auto)]

mod breaks;
mod shapes;

ghost use Rattle.std.specs.Prelude.{◌≡◌, cond, None, Some, ltb, ◌+◌, ◌≤◌, ◌<◌, length, drop};
ghost use Rattle.rules.specs.Text.{space, split};
ghost use Rattle.line_causes.specs.Causes.{to_odd, odd_fault, is_comment, leads_zero, signed_zero, takes_number, number_cause};
ghost use Rattle.line_causes.specs.Causes.{plain_cause, no_word, word_cause, end_cause, cause_in, words_cause, agree, empty_cause};
ghost use Rattle.line_causes.specs.Causes.{cause_at, wanted, key_cause, keyed_cause, cause_of};

use breaks::broken_at;
use reading::text::position;
pub use shapes::Wanted;
use shapes::{fits, shape_of};

// The lines of a script file.
#[derive(Clone, Copy, Debug, PartialEq, Eq)]
pub enum LineKind {
    Script,
    Vars,
    Range,
    Rows,
    Row,
}

// What is wrong: nothing; the file ends before the line; an empty line, a comment, a byte order mark, another key; a space too many, a
// space after the last word, a tab, a carriage return, another byte that is not plain; a number with `+` or with a leading zero; a word
// that is not the one that is wanted; an expression that breaks; a word missing or too many; no LF at the end.
#[derive(Clone, Copy, Debug, PartialEq, Eq)]
pub enum Fault {
    Nothing,
    Ended,
    Empty,
    Comment,
    ByteMark,
    Key,
    Space,
    SpaceAtEnd,
    Tab,
    Return,
    Foreign,
    Plus,
    Zero,
    Other,
    Broken,
    Missing,
    TooMany,
    NoLineFeed,
}

// A fault, what is wanted in its place, and the byte of the line, from 0.
#[derive(Clone, Copy)]
pub struct Cause {
    pub fault: Fault,
    pub wants: Wanted,
    pub at: usize,
}

fn caused(fault: Fault, wants: Wanted, at: usize) -> Cause
    ensures { result ≡ cause_at fault wants at }
{
    Cause { fault, wants, at }
}

// The first byte that is not plain ASCII, or a space.
fn to_odd(s: &[u8]) -> Option<usize>
    ensures { result ≡ cond (ltb (to_odd s.now) (length s.now)) (Some (to_odd s.now)) None }
{
    s.iter().position(|b| !b.is_ascii_graphic())
}

#[tactic(auto, unfolding(crate::specs::Causes::odd_fault))]
fn odd_fault(b: u8) -> Fault
    ensures { result ≡ odd_fault b }
{
    match b {
        b'\t' => Fault::Tab,
        b'\r' => Fault::Return,
        _ => Fault::Foreign,
    }
}

#[tactic(auto, unfolding(crate::specs::Causes::is_comment))]
fn is_comment(t: &[u8]) -> bool
    ensures { result ≡ is_comment t.now }
{
    t.starts_with(b"#") || t.starts_with(b"//")
}

// A 0 before another digit.
#[tactic(auto, unfolding(crate::specs::Causes::leads_zero, rules::specs::Text::is_digit))]
fn leads_zero(t: &[u8]) -> bool
    ensures { result ≡ leads_zero t.now }
{
    match t {
        [b'0', next, ..] => next.is_ascii_digit(),
        _ => false,
    }
}

// The same after `-` or `v`, and -0.
#[tactic(auto, unfolding(crate::specs::Causes::signed_zero))]
fn signed_zero(t: &[u8]) -> bool
    ensures { result ≡ signed_zero t.now }
{
    match t {
        b"-0" => true,
        [b'-' | b'v', number @ ..] => leads_zero(number),
        _ => false,
    }
}

#[tactic(auto, unfolding(crate::specs::Causes::takes_number))]
fn takes_number(w: Wanted) -> bool
    ensures { result ≡ takes_number w }
{
    matches!(
        w,
        Wanted::Number | Wanted::One | Wanted::Variable | Wanted::Expression
    )
}

// A word that is no number, variable or expression, where one is wanted.
#[tactic(auto, unfolding(crate::specs::Causes::number_cause))]
fn number_cause(w: Wanted, t: &[u8], at: usize) -> Cause
    requires { (0 < length t.now) × (at + length t.now ≤ 18_446_744_073_709_551_615) }
    ensures { result ≡ number_cause w t.now at }
{
    if t.starts_with(b"+") {
        return caused(Fault::Plus, w, at);
    }
    if leads_zero(t) {
        return caused(Fault::Zero, w, at);
    }
    if signed_zero(t) {
        return caused(Fault::Zero, w, at + 1);
    }
    if w == Wanted::Expression {
        return caused(Fault::Broken, w, at + broken_at(t));
    }
    caused(Fault::Other, w, at)
}

// A plain word where another is wanted, or none.
#[tactic(auto, unfolding(crate::specs::Causes::plain_cause))]
fn plain_cause(w: Wanted, t: &[u8], at: usize) -> Cause
    requires { (0 < length t.now) × (at + length t.now ≤ 18_446_744_073_709_551_615) }
    ensures { result ≡ plain_cause w t.now at }
{
    if is_comment(t) {
        return caused(Fault::Comment, w, at);
    }
    if w == Wanted::Nothing {
        return caused(Fault::TooMany, w, at);
    }
    if takes_number(w) {
        return number_cause(w, t, at);
    }
    caused(Fault::Other, w, at)
}

// No word.
#[tactic(auto, unfolding(crate::specs::Causes::no_word))]
fn no_word(w: Wanted, at: usize, last: bool) -> Cause
    requires { 0 < at }
    ensures { result ≡ no_word w at last }
{
    if last {
        caused(Fault::SpaceAtEnd, w, at - 1)
    } else {
        caused(Fault::Space, w, at)
    }
}

// A word that begins at the byte `at` and is not what is wanted.
#[tactic(auto, unfolding(crate::specs::Causes::word_cause))]
fn word_cause(w: Wanted, t: &[u8], at: usize, last: bool) -> Cause
    requires { (0 < at) × (at + length t.now ≤ 18_446_744_073_709_551_615) }
    ensures { result ≡ word_cause w t.now at last }
{
    if t.is_empty() {
        return no_word(w, at, last);
    }
    match to_odd(t) {
        Some(odd) => caused(odd_fault(t[odd]), w, at + odd),
        None => plain_cause(w, t, at),
    }
}

// What word k is to be.
#[tactic(auto, unfolding(crate::specs::Causes::wanted))]
fn wanted(shape: &[Wanted], k: usize) -> Wanted
    ensures { result ≡ wanted shape.now k }
{
    shape.get(k).copied().unwrap_or(Wanted::Nothing)
}

// After the last word, if there are k.
#[tactic(auto, unfolding(crate::specs::Causes::end_cause))]
fn end_cause(shape: &[Wanted], k: usize, at: usize, lf: bool) -> Cause
    ensures { result ≡ end_cause shape.now k at lf }
{
    if k < shape.len() {
        return caused(Fault::Missing, wanted(shape, k), at);
    }
    let fault = if lf {
        Fault::Nothing
    } else {
        Fault::NoLineFeed
    };
    caused(fault, Wanted::Nothing, at)
}

// The words from byte `from` on.
fn cause_in(shape: &[Wanted], lf: bool, line: &[u8], from: usize) -> Cause
    requires { (0 < from) × (from ≤ length line.now) }
    ensures { result ≡ cause_in shape.now lf (split space (drop from line.now)) 0 from }
{
    let mut at = from;
    let mut count = 0;
    for word in line[from..].split(|b| *b == b' ') {
        let w = wanted(shape, count);
        let end = at + word.len();
        if !fits(w, word) {
            return word_cause(w, word, at, end == line.len());
        }
        at = end + 1;
        count += 1;
    }
    end_cause(shape, count, line.len(), lf)
}

// The words after the key.
#[tactic(auto, unfolding(crate::specs::Causes::words_cause))]
fn words_cause(shape: &[Wanted], lf: bool, from: usize, line: &[u8]) -> Cause
    requires { (0 < from) × (from ≤ length line.now) }
    ensures { result ≡ words_cause shape.now lf from line.now }
{
    if line.len() == from {
        return caused(Fault::Missing, wanted(shape, 0), from);
    }
    cause_in(shape, lf, line, from)
}

// How many bytes of a text are those of the key.
pub fn agree(key: &[u8], s: &[u8]) -> usize
    ensures { result ≡ agree key.now s.now }
{
    let both = key.len().min(s.len());
    for i in 0..both {
        if s[i] != key[i] {
            return i;
        }
    }
    both
}

// A line without a byte.
#[tactic(auto, unfolding(crate::specs::Causes::empty_cause))]
fn empty_cause(lf: bool) -> Cause
    ensures { result ≡ empty_cause lf }
{
    caused(
        if lf { Fault::Empty } else { Fault::Ended },
        Wanted::Nothing,
        0,
    )
}

// A line with another key.
#[tactic(auto, unfolding(crate::specs::Causes::key_cause))]
fn key_cause(key: &[u8], lf: bool, line: &[u8]) -> Cause
    ensures { result ≡ key_cause key.now lf line.now }
{
    if line.is_empty() {
        return empty_cause(lf);
    }
    if line.starts_with(b"\xef\xbb\xbf") {
        return caused(Fault::ByteMark, Wanted::Nothing, 0);
    }
    if is_comment(line) {
        return caused(Fault::Comment, Wanted::Nothing, 0);
    }
    if line.starts_with(b" ") {
        return caused(Fault::Space, Wanted::Nothing, 0);
    }
    if line.starts_with(b"\t") {
        return caused(Fault::Tab, Wanted::Nothing, 0);
    }
    caused(Fault::Key, Wanted::Nothing, agree(key, line))
}

// A line of a key and words of a shape.
#[tactic(auto, unfolding(crate::specs::Causes::keyed_cause))]
fn keyed_cause(key: &[u8], shape: &[Wanted], lf: bool, line: &[u8]) -> Cause
    requires { 0 < length key.now }
    ensures { result ≡ keyed_cause key.now shape.now lf line.now }
{
    if line.starts_with(key) {
        words_cause(shape, lf, key.len(), line)
    } else {
        key_cause(key, lf, line)
    }
}

// A row.
#[tactic(auto, unfolding(crate::specs::Causes::cause_of))]
fn row_cause(lf: bool, line: &[u8]) -> Cause
    ensures { result ≡ cause_of LineKind.Row lf line.now }
{
    if line.len() < 4 {
        return keyed_cause(b"row=", shape_of(b""), lf, line);
    }
    let end = 4 + position(&line[4..], b' ');
    keyed_cause(b"row=", shape_of(&line[4..end]), lf, line)
}

// The cause of a line of its kind; `lf`: whether an LF ends it.
#[tactic(auto, unfolding(crate::specs::Causes::cause_of))]
pub fn cause_of(kind: LineKind, lf: bool, line: &[u8]) -> Cause
    ensures { result ≡ cause_of kind lf line.now }
{
    match kind {
        LineKind::Script => keyed_cause(b"script=", &[Wanted::One], lf, line),
        LineKind::Vars => keyed_cause(b"vars=", &[Wanted::Number], lf, line),
        LineKind::Range => keyed_cause(b"range=", &[Wanted::Number, Wanted::Number], lf, line),
        LineKind::Rows => keyed_cause(b"rows=", &[Wanted::Number], lf, line),
        LineKind::Row => row_cause(lf, line),
    }
}
