// Which variables an expression names: question 10, by its bytes.
ghost use Rattle.std.specs.Prelude.{◌≡◌, false, ◌&&◌, ℕ, ◌+◌, ◌<◌, eqb, length, drop, get_or};
ghost use Rattle.rules.specs.Parse.{expr_in, parse};
ghost use Rattle.rules.specs.Blocks.{Block};
ghost use Rattle.rules.specs.Steps.{assigns};
ghost use Rattle.rules.specs.Trips.{keeps};
ghost use Rattle.expressions.specs.Leaves.{digit_value};
ghost use Rattle.rules.specs.Written.{PassedWord};

use crate::leaves::digits_at;

// Is a number in the set?
fn member(set: [bool; 16], w: u32) -> bool
    ensures { result ≡ get_or set w false }
{
    let i = w as usize;
    i < 16 && set[i]
}

// Does a variable of the set stand at i: a `v` and its number?
#[tactic(auto, using(crate::proofs::Keeping::names_variable, crate::proofs::Keeping::names_nothing))]
fn names(word: &[u8], i: usize, set: [bool; 16]) -> bool
    requires { i < length word.now }
    ensures { result ≡ eqb (get_or word.now i 0) 118 && get_or set (digit_value 0 (drop (i + 1) word.now)) false }
{
    word[i] == b'v' && member(set, digits_at(word, i + 1).value)
}

// 10: is no variable of such an expression in the set that a body assigns?
pub fn keeps_in(word: &[u8], set: [bool; 16]) -> bool
    requires { PassedWord word.now }
    ensures { (body : Block) → ((w : ℕ) → get_or set w false ≡ assigns w body) → result ≡ keeps (expr_in (parse word.now)) body }
{
    for i in 0..word.len() {
        if names(word, i, set) {
            return false;
        }
    }
    true
}
