// Ticks: sums and products that stop just past the limit of question 13, the ticks of a loop, the first block over the limit.
#![tactic(auto)]

pub mod passes;

ghost use Rattle.std.specs.Prelude.{◌≡◌, List, ℕ, ◌+◌, ◌*◌, ◌≤◌, ◌<◌};
ghost use Rattle.rules.specs.Bounds.{FinePrices};
ghost use Rattle.analysis_steps.specs.Tree.{form_of};
ghost use Rattle.analysis_ticks.specs.Capped.{capped, once, OverOf};

use rules::{Kind, Prices};

// The first number over the limit.
pub const MOST: u64 = 1_000_000_000_001;

// A number, or the first one over the limit.
pub fn cap(n: u64) -> u64
    ensures { result ≡ capped n }
{
    n.min(MOST)
}

// A sum, or the first number over the limit.
pub fn plus(x: u64, y: u64) -> u64
    requires { (x ≤ 1_000_000_000_001) × (y ≤ 1_000_000_000_001) }
    ensures { result ≡ capped (x + y) }
{
    cap(x + y)
}

// A product, or the first number over the limit.
pub fn times(n: u64, b: u64) -> u64
    requires { b ≤ 1_000_000_000_001 }
    ensures { result ≡ capped (n * b) }
{
    cap(n.saturating_mul(b))
}

// What an entry takes beside its turns: a while or a hold its last test, a for its start too, a do nothing.
fn besides(kind: Kind, prices: Prices) -> u64
    requires { FinePrices prices }
    ensures { (text : List ℕ) → result ≡ once prices (form_of text kind) }
{
    match kind {
        Kind::Do(_, _, _) => 0,
        Kind::For(_, _, _, _, _) => prices.arithmetic + prices.test,
        _ => prices.test,
    }
}

// The ticks of n entries of a loop: m times b, the passes with their tests, and what each entry takes beside them.
pub fn loop_ticks(kind: Kind, prices: Prices, n: u64, m: u64, b: u64) -> u64
    requires { FinePrices prices × (n ≤ 4_096) × (b ≤ 1_000_000_000_001) }
    ensures { (text : List ℕ) (B : ℕ) → b ≡ capped B → result ≡ capped (m * B + n * once prices (form_of text kind)) }
{
    plus(times(m, b), n * besides(kind, prices))
}

// The limit of question 13.
pub const LIMIT: u64 = 1_000_000_000_000;

// The first `end` row over the limit of question 13, with a block of these ticks that ends at row e.
pub fn first_over(over: Option<usize>, e: usize, ticks: u64) -> Option<usize>
    requires { ticks ≤ 1_000_000_000_001 }
    ensures { OverOf over e ticks result }
{
    match over {
        Some(_) => over,
        None => { if ticks <= LIMIT { None } else { Some(e) } }
    }
}
