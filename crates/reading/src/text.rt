// The words of a line.
ghost use Rattle.std.specs.Prelude.{◌≡◌, false, cond, pos, neg_ℤ, ◌≤◌, ◌<◌, length, drop};
ghost use Rattle.rules.specs.Text.{starts_with, is_natural, plain_word, word_of};
ghost use Rattle.reading.specs.Words.{before, marks, stops, stop, front, cut_word, natural_of};
ghost use Rattle.reading.specs.Words.{word_in, HasEnd, Reads, LineRead, line_word};

use expressions::leaves::{Digits, digits_at};
use rules::{Comparison, Name, Word};

// How many bytes stand before the first b, or all.
pub fn position(s: &[u8], b: u8) -> usize
    ensures { result ≡ before b s.now }
{
    s.iter().position(|x| *x == b).unwrap_or(s.len())
}

// Whether s starts with the key.
pub fn starts_with(s: &[u8], key: &[u8]) -> bool
    ensures { result ≡ starts_with key.now s.now }
{
    s.starts_with(key)
}

// Whether a word ends before b: a space or LF.
#[tactic(auto, unfolding(crate::specs::Words::stops))]
fn stops(b: u8) -> bool
    ensures { result ≡ stops b }
{
    matches!(b, b' ' | b'\n')
}

// How many bytes the word at the front has.
fn stop(s: &[u8]) -> usize
    ensures { result ≡ stop s.now }
{
    s.iter().position(|x| stops(*x)).unwrap_or(s.len())
}

// The word at the front as a number not below 0: digits only, no leading zero.
fn natural(s: &[u8]) -> Option<Digits>
    ensures { result ≡ natural_of (front s.now) }
{
    let digits = digits_at(s, 0);
    let length = digits.next;
    if length == 0 {
        return None;
    }
    if length < s.len() && !stops(s[length]) {
        return None;
    }
    let leading_zero = s[0] == b'0';
    if leading_zero && 1 < length {
        return None;
    }
    Some(digits)
}

// What a word is: none there, a keyword, a comparison, a number, a variable, or anything else.
#[derive(Debug, Clone, Copy)]
pub enum Tag {
    Missing,
    Set,
    Add,
    Sub,
    Mul,
    Div,
    Cue,
    Off,
    For,
    While,
    Do,
    End,
    Else,
    Pick,
    Hold,
    Less,
    AtMost,
    Greater,
    AtLeast,
    Equal,
    Different,
    Number,
    Variable,
    Other,
}

// The word that a tag and a value say.
fn said(tag: Tag, value: i32) -> Word
    ensures { result ≡ word_in tag value }
{
    match tag {
        Tag::Set => Word::Keyword(Name::Set),
        Tag::Add => Word::Keyword(Name::Add),
        Tag::Sub => Word::Keyword(Name::Sub),
        Tag::Mul => Word::Keyword(Name::Mul),
        Tag::Div => Word::Keyword(Name::Div),
        Tag::Cue => Word::Keyword(Name::Cue),
        Tag::Off => Word::Keyword(Name::Off),
        Tag::For => Word::Keyword(Name::For),
        Tag::While => Word::Keyword(Name::While),
        Tag::Do => Word::Keyword(Name::Do),
        Tag::End => Word::Keyword(Name::End),
        Tag::Else => Word::Keyword(Name::Else),
        Tag::Pick => Word::Keyword(Name::Pick),
        Tag::Hold => Word::Keyword(Name::Hold),
        Tag::Less => Word::Compares(Comparison::Less),
        Tag::AtMost => Word::Compares(Comparison::AtMost),
        Tag::Greater => Word::Compares(Comparison::Greater),
        Tag::AtLeast => Word::Compares(Comparison::AtLeast),
        Tag::Equal => Word::Compares(Comparison::Equal),
        Tag::Different => Word::Compares(Comparison::Different),
        Tag::Missing => Word::Missing,
        Tag::Number => Word::Number(value),
        Tag::Variable if 0 <= value => Word::Variable(value as u32),
        _ => Word::Other,
    }
}

// set, add, .. and < <= ..
#[tactic(auto, unfolding(rules::specs::Text::plain_word, rules::specs::Text::block_word, rules::specs::Text::comparison_word, rules::specs::Text::equals))]
fn plain_word(s: &[u8]) -> Tag
    ensures { word_in result (pos 0) ≡ plain_word s.now }
{
    match s {
        b"set" => Tag::Set,
        b"add" => Tag::Add,
        b"sub" => Tag::Sub,
        b"mul" => Tag::Mul,
        b"div" => Tag::Div,
        b"cue" => Tag::Cue,
        b"off" => Tag::Off,
        b"for" => Tag::For,
        b"while" => Tag::While,
        b"do" => Tag::Do,
        b"end" => Tag::End,
        b"else" => Tag::Else,
        b"pick" => Tag::Pick,
        b"hold" => Tag::Hold,
        b"<" => Tag::Less,
        b"<=" => Tag::AtMost,
        b">" => Tag::Greater,
        b">=" => Tag::AtLeast,
        b"==" => Tag::Equal,
        b"!=" => Tag::Different,
        _ => Tag::Other,
    }
}

// A number with its sign.
fn signed(negative: bool, v: u32) -> i32
    requires { v ≤ 2_000_000_001 }
    ensures { result ≡ cond negative (neg_ℤ (pos v)) (pos v) }
{
    let z = v as i32;
    if negative { -z } else { z }
}

// A word by its tag and value, and the byte where it ends. No enum: that would be stored in pieces and then copied whole, which is slow.
#[derive(Clone, Copy)]
struct WordFound {
    tag: Tag,
    value: i32,
    end: usize,
}

// The keyword or comparison at the front.
fn other_word(s: &[u8]) -> WordFound
    requires { plain_word (front s.now) ≡ cut_word (word_of (front s.now)) }
    ensures { Reads s.now result }
{
    let end = stop(s);
    let tag = plain_word(&s[..end]);
    WordFound { tag, value: 0, end }
}

// Whether b stands before the digits of a variable or of a number below 0.
#[tactic(auto, unfolding(crate::specs::Words::marks))]
fn marks(b: u8) -> bool
    ensures { result ≡ marks b }
{
    matches!(b, b'v' | b'-')
}

// The word at the front, which is no number without a sign.
fn marked(s: &[u8]) -> WordFound
    requires { (0 < stop s.now) × (is_natural (front s.now) ≡ false) }
    ensures { Reads s.now result }
{
    let first = s[0];
    if !marks(first) {
        return other_word(s);
    }
    match natural(&s[1..]) {
        Some(digits) if first == b'v' => WordFound {
            tag: Tag::Variable,
            value: signed(false, digits.value),
            end: digits.next + 1,
        },
        Some(digits) if digits.value != 0 => WordFound {
            tag: Tag::Number,
            value: signed(true, digits.value),
            end: digits.next + 1,
        },
        _ => other_word(s),
    }
}

// The word at the front.
fn word_of(s: &[u8]) -> WordFound
    ensures { Reads s.now result }
{
    if let Some(digits) = natural(s) {
        return WordFound {
            tag: Tag::Number,
            value: signed(false, digits.value),
            end: digits.next,
        };
    }
    if s.is_empty() || stops(s[0]) {
        return WordFound {
            tag: Tag::Other,
            value: 0,
            end: 0,
        };
    }
    marked(s)
}

// The first eight words of a line by their tags and values: word k stands between the bytes ends[k] and ends[k + 1].
// The line's LF is the byte `end`.
#[derive(Clone, Copy)]
pub struct LineWords {
    pub tags: [Tag; 8],
    pub values: [i32; 8],
    pub ends: [usize; 9],
    pub end: usize,
}

// The words of a line after the byte `at`.
pub fn line_words(s: &[u8], at: usize) -> LineWords
    requires { HasEnd (drop at s.now) }
    ensures { LineRead s.now at result }
{
    let mut tags = [Tag::Missing; 8];
    let mut values: [i32; 8] = [0; 8];
    let mut ends: [usize; 9] = [0; 9];
    ends[0] = at;
    let mut end = at;
    for i in 0..8 {
        if s[end] == b'\n' {
            return LineWords {
                tags,
                values,
                ends,
                end,
            };
        }
        let begin = end + 1;
        let found = word_of(&s[begin..]);
        tags[i] = found.tag;
        values[i] = found.value;
        end = begin + found.end;
        ends[i + 1] = end;
    }
    end += position(&s[end..], b'\n');
    LineWords {
        tags,
        values,
        ends,
        end,
    }
}

// Word k of a line.
pub fn word(line: LineWords, k: usize) -> Word
    requires { k < 8 }
    ensures { result ≡ line_word line k }
{
    said(line.tags[k], line.values[k])
}
