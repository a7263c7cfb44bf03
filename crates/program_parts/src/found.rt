// Picks that a program finds itself, drawn from a seed or asked for, and prints as a word: `picks=0110..`, or `picks=-` for none.
ghost use Rattle.std.specs.Prelude.{◌≤◌, length};

use crate::arguments::WORD;
use crate::asks::ask_picks;
use crate::print::print_text;
use crate::steps::{Terms, started};
use crate::store::Store;
use host::Host;
use loader::SCRATCH;
use program_words::picks::{PicksBy, put_drawn};

// Prints picks as a word that can be given in their place.
fn print_picks(host: &impl Host, picks: &[u8]) {
    let mut text = [0u8; WORD];
    for (digit, pick) in text.iter_mut().zip(picks) {
        *digit = if *pick == 0 { b'0' } else { b'1' };
    }
    print!(host; "picks=");
    if picks.is_empty() {
        print!(host; "-");
    }
    print_text(host, &text[..picks.len().min(WORD)]);
    println!(host; "");
}

// Draws picks from a seed and answers how many of them the run uses.
fn draw_picks(terms: Terms<'_>, seed: u64, store: &mut [i32], picks: &mut [u8]) -> usize
    ensures { result ≤ length picks.old }
{
    put_drawn(seed, picks);
    let mut scratch = [0u32; SCRATCH];
    let answer = loader::run(
        terms.file,
        terms.prices,
        &mut scratch,
        store,
        picks,
        terms.allowed,
    );
    match answer {
        Ok(o) => o.used.min(picks.len()),
        Err(_) => 0,
    }
}

// Finds the picks of a run from a store, and prints them; of a run that is refused there are none. A word of them stands in picks already.
pub fn find_picks(
    host: &impl Host,
    terms: Terms<'_>,
    by: PicksBy,
    store: Store,
    picks: &mut [u8],
) -> usize
    ensures { result ≤ length picks.old }
{
    if let PicksBy::Word = by {
        return picks.len();
    }
    let Ok(mut state) = started(terms, store.as_slice()) else {
        return 0;
    };
    let mut after = store;
    let values = &mut after.values[..store.count];
    let count = if let PicksBy::Seed(seed) = by {
        draw_picks(terms, seed, values, picks)
    } else {
        ask_picks(host, terms, values, &mut state, picks)
    };
    print_picks(host, &picks[..count]);
    count
}
