// The numbers and variables of an expression, from its bytes.
ghost use Rattle.std.specs.Prelude.{◌≡◌, true, ◌+◌, ◌*◌, ◌-◌, ◌≤◌, min, drop, Some, neg_ℤ, pos, MatchOption, false, cond, eqb, None};
ghost use Rattle.rules.specs.Text.{is_digit, is_natural};
ghost use Rattle.rules.specs.Parse.{is_mark, up_to_mark};
ghost use Rattle.expressions.specs.Leaves.{at_mark, DigitsAt, WholeAt, LeafAt, variable_leaf, constant_leaf, negative_leaf};

// Whether b is a byte from '0' to '9'.
#[tactic(auto, unfolding(rules::specs::Text::is_digit))]
pub fn is_digit(b: u8) -> bool
    ensures { result ≡ is_digit b }
{
    b.is_ascii_digit()
}

// ( ) * + -
#[tactic(auto, unfolding(rules::specs::Parse::is_mark))]
fn is_mark(b: u8) -> bool
    ensures { result ≡ is_mark b }
{
    matches!(b, b'(' | b')' | b'*' | b'+' | b'-')
}

// Past every limit of a number.
const CEILING: u64 = 2_000_000_001;

// One digit more, cut off past every limit.
pub fn more(value: u64, b: u8) -> u64
    requires { (value ≤ 2_000_000_001) × (is_digit b ≡ true) }
    ensures { result ≡ min (value * 10 + (b - 48)) 2_000_000_001 }
{
    (value * 10 + (b - b'0') as u64).min(CEILING)
}

// The value of digits, and the byte after them.
#[derive(Debug, Clone, Copy)]
pub struct Digits {
    pub value: u32,
    pub next: usize,
}

// The digits from `at` on.
pub fn digits_at(s: &[u8], at: usize) -> Digits
    ensures { DigitsAt (drop at s.now) at result }
{
    let mut value: u64 = 0;
    for i in at..s.len() {
        if !is_digit(s[i]) {
            return Digits {
                value: value as u32,
                next: i,
            };
        }
        value = more(value, s[i]);
    }
    Digits {
        value: value as u32,
        next: at.max(s.len()),
    }
}

// Is the text at its end, or at a mark?
fn at_mark(s: &[u8], at: usize) -> bool
    ensures { result ≡ at_mark (drop at s.now) }
{
    at >= s.len() || is_mark(s[at])
}

// The number up to the next mark: digits only, no leading zero.
fn whole_at(s: &[u8], at: usize) -> Option<Digits>
    ensures { WholeAt s.now at result }
{
    let digits = digits_at(s, at);
    if digits.next == at || !at_mark(s, digits.next) {
        return None;
    }
    if s[at] == b'0' && at + 1 < digits.next {
        return None;
    }
    Some(digits)
}

// A constant or a variable.
#[derive(Debug, Clone, Copy)]
pub enum Leaf {
    Constant(i32),
    Variable(u32),
}

// A constant or a variable, and the byte after it.
#[derive(Debug, Clone, Copy)]
pub struct LeafFound {
    pub leaf: Leaf,
    pub next: usize,
}

// `v` and digits.
fn variable(digits: Digits) -> LeafFound
    ensures { result ≡ variable_leaf digits }
{
    LeafFound {
        leaf: Leaf::Variable(digits.value),
        next: digits.next,
    }
}

// Digits alone.
fn constant(digits: Digits) -> LeafFound
    requires { digits.value ≤ 2_000_000_001 }
    ensures { result ≡ constant_leaf digits }
{
    LeafFound {
        leaf: Leaf::Constant(digits.value as i32),
        next: digits.next,
    }
}

// `-` and digits: not `-0`.
fn negative(digits: Digits) -> Option<LeafFound>
    requires { digits.value ≤ 2_000_000_001 }
    ensures { result ≡ negative_leaf digits }
{
    if digits.value == 0 {
        return None;
    }
    Some(LeafFound {
        leaf: Leaf::Constant(-(digits.value as i32)),
        next: digits.next,
    })
}

// The constant or variable at `at`.
pub fn leaf_at(s: &[u8], at: usize) -> Option<LeafFound>
    ensures { LeafAt s.now at result }
{
    if at >= s.len() {
        return None;
    }
    match s[at] {
        b'v' => whole_at(s, at + 1).map(variable),
        b'-' => whole_at(s, at + 1).and_then(negative),
        _ => whole_at(s, at).map(constant),
    }
}
