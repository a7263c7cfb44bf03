// The four prices that a caller lends, in this order: arithmetic, cue, pick, test. Question 16.
ghost use Rattle.std.specs.Prelude.{◌≡◌, ◌&&◌, leb, length, drop};
ghost use Rattle.rules.specs.Verdicts.{verdict_of, refused};
ghost use Rattle.rules.specs.Calls.{prices_of, prices_verdict};
ghost use Rattle.calls.specs.First.{fine_first};

use rules::{Prices, Refusal, Verdict};

// Is it 1 to 1,000?
fn fine(price: u32) -> bool
    ensures { result ≡ (leb 1 price && leb price 1_000) }
{
    1 <= price && price <= 1_000
}

// Is price i there, and fine?
fn fine_at(prices: &[u32], i: usize) -> bool
    ensures { result ≡ fine_first (drop i prices.now) }
{
    if i < prices.len() {
        return fine(prices[i]);
    }
    false
}

// No to 16, at an index of the prices.
fn wrong_at(place: usize) -> Verdict
    ensures { verdict_of result ≡ refused 16 place }
{
    Err(Refusal { number: 16, place })
}

// 16: the first price, from 0, that is wrong, missing or extra.
pub fn ask_prices(prices: &[u32]) -> Verdict
    ensures { verdict_of result ≡ prices_verdict 4 0 prices.now }
{
    for i in 0..4 {
        if !fine_at(prices, i) {
            return wrong_at(i);
        }
    }
    if 4 < prices.len() {
        return wrong_at(4);
    }
    Ok(())
}

// The struct of four prices.
pub fn prices_of(prices: &[u32]) -> Prices
    requires { length prices.now ≡ 4 }
    ensures { result ≡ prices_of prices.now }
{
    Prices {
        arithmetic: u64::from(prices[0]),
        cue: u64::from(prices[1]),
        pick: u64::from(prices[2]),
        test: u64::from(prices[3]),
    }
}
