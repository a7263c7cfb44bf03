// What a line's words are to be.
ghost use Rattle.std.specs.Prelude.{◌≡◌};
ghost use Rattle.line_causes.specs.Shapes.{is_variable, is_ordered, is_comparison, is_step, is_bare, is_test};
ghost use Rattle.line_causes.specs.Shapes.{is_expression, shape_of, fits};

use program_words::is_number;
use reading::order::LineQuestion;
use reading::questions::question;

// The name of a row, known or not; a number, the number 1, a variable; a comparison, one of < <= > >=; an expression; the name of a
// step; no word.
#[derive(Clone, Copy, Debug, PartialEq, Eq)]
pub enum Wanted {
    Known,
    Name,
    Number,
    One,
    Variable,
    Comparison,
    Ordered,
    Expression,
    Step,
    Nothing,
}

// `v` and a number that is not below 0.
#[tactic(auto, unfolding(crate::specs::Shapes::is_variable))]
pub fn is_variable(t: &[u8]) -> bool
    ensures { result ≡ is_variable t.now }
{
    match t.strip_prefix(b"v") {
        Some(number) => !number.starts_with(b"-") && is_number(number),
        None => false,
    }
}

// < <= > >=
#[tactic(auto, unfolding(crate::specs::Shapes::is_ordered))]
fn is_ordered(t: &[u8]) -> bool
    ensures { result ≡ is_ordered t.now }
{
    matches!(t, b"<" | b"<=" | b">" | b">=")
}

// The same, == and !=.
#[tactic(auto, unfolding(crate::specs::Shapes::is_comparison))]
fn is_comparison(t: &[u8]) -> bool
    ensures { result ≡ is_comparison t.now }
{
    is_ordered(t) || matches!(t, b"==" | b"!=")
}

#[tactic(auto, unfolding(crate::specs::Shapes::is_step))]
fn is_step(t: &[u8]) -> bool
    ensures { result ≡ is_step t.now }
{
    matches!(t, b"add" | b"sub" | b"mul" | b"div")
}

#[tactic(auto, unfolding(crate::specs::Shapes::is_bare))]
fn is_bare(t: &[u8]) -> bool
    ensures { result ≡ is_bare t.now }
{
    matches!(t, b"pick" | b"else" | b"end")
}

#[tactic(auto, unfolding(crate::specs::Shapes::is_test))]
fn is_test(t: &[u8]) -> bool
    ensures { result ≡ is_test t.now }
{
    matches!(t, b"while" | b"do")
}

#[tactic(auto, unfolding(crate::specs::Shapes::is_expression))]
fn is_expression(t: &[u8]) -> bool
    ensures { result ≡ is_expression t.now }
{
    !matches!(question(t, 16), Err(LineQuestion::Shape))
}

// Whether a word is what is wanted.
#[tactic(auto, unfolding(crate::specs::Shapes::fits))]
pub fn fits(w: Wanted, t: &[u8]) -> bool
    ensures { result ≡ fits w t.now }
{
    match w {
        Wanted::Known => true,
        Wanted::Number => is_number(t),
        Wanted::One => t == b"1".as_slice(),
        Wanted::Variable => is_variable(t),
        Wanted::Comparison => is_comparison(t),
        Wanted::Ordered => is_ordered(t),
        Wanted::Expression => is_expression(t),
        Wanted::Step => is_step(t),
        Wanted::Name | Wanted::Nothing => false,
    }
}

// The shape of a row, by its name.
#[tactic(auto, unfolding(crate::specs::Shapes::shape_of))]
pub fn shape_of(name: &[u8]) -> &'static [Wanted]
    ensures { result.now ≡ shape_of name.now }
{
    if is_step(name) {
        return &[Wanted::Known, Wanted::Variable, Wanted::Number];
    }
    if is_bare(name) {
        return &[Wanted::Known];
    }
    if is_test(name) {
        return &[
            Wanted::Known,
            Wanted::Variable,
            Wanted::Comparison,
            Wanted::Expression,
        ];
    }
    match name {
        b"set" => &[Wanted::Known, Wanted::Variable, Wanted::Expression],
        b"cue" => &[Wanted::Known, Wanted::Number],
        b"hold" => &[Wanted::Known, Wanted::Variable],
        b"off" => &[
            Wanted::Known,
            Wanted::Variable,
            Wanted::Variable,
            Wanted::Ordered,
            Wanted::Number,
        ],
        b"for" => &[
            Wanted::Known,
            Wanted::Variable,
            Wanted::Expression,
            Wanted::Comparison,
            Wanted::Expression,
            Wanted::Step,
            Wanted::Number,
        ],
        _ => &[Wanted::Name],
    }
}
