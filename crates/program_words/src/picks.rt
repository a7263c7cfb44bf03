// Picks that a program finds itself: drawn from a seed, or asked for.
ghost use Rattle.std.specs.Prelude.{◌≡◌, ◌<◌, length};
ghost use Rattle.program_words.specs.Picks.{picks_by, next_drawn, seed_picks};

use crate::read_number;

// How a word says the picks: it is a word of them; they are drawn from a seed; or they are asked for.
#[derive(Clone, Copy)]
pub enum PicksBy {
    Word,
    Seed(u64),
    Ask,
}

// How this word says them; none if its seed is no number.
pub fn picks_by(word: &[u8]) -> Option<PicksBy>
    ensures { result ≡ picks_by word.now }
{
    if word == b"picks=ask".as_slice() {
        return Some(PicksBy::Ask);
    }
    match word.strip_prefix(b"picks=random:") {
        Some(seed) => Some(PicksBy::Seed(read_number(seed)?)),
        None => Some(PicksBy::Word),
    }
}

// The generator's next number.
fn next_drawn(x: u64) -> u64
    requires { x < 2_147_483_648 }
    ensures { (result ≡ next_drawn x) × (result < 2_147_483_648) }
{
    (x * 1_103_515_245 + 12_345) % 2_147_483_648
}

// Puts the picks of a seed.
pub fn put_drawn(seed: u64, picks: &mut [u8])
    ensures { picks.new ≡ seed_picks seed (length picks.old) }
{
    let mut x = seed % 2_147_483_648;
    for pick in picks {
        x = next_drawn(x);
        *pick = (x / 1_073_741_824) as u8;
    }
}
