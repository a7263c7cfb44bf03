// The arguments of a program.
ghost use Rattle.std.specs.Prelude.{◌≡◌, ◌≤◌, length, IfSome};

use crate::store::{STORE, Store};
use crate::wrong::{Expected, print_unexpected, print_wrong_price};
use host::Host;
use program_words::keep_value;
use program_words::lists::lend_prices;

// As many bytes as an argument can have.
pub const WORD: usize = 131_072;

// Whether argument i is this word, of at most 15 bytes.
pub fn is_argument(host: &impl Host, i: usize, word: &[u8]) -> bool {
    let mut buffer = [0u8; 16];
    host.argument(i, &mut buffer) == word
}

// Whether the first argument asks for help.
pub fn asks_help(host: &impl Host) -> bool {
    is_argument(host, 1, b"--help")
}

// The prices that are lent, and the argument after them.
#[derive(Clone, Copy)]
pub struct PricesRead<'a> {
    pub prices: &'a [u32],
    pub next: usize,
}

// Keeps the prices of the first argument, `prices=A,C,P,T`; without it there are four, as they are lent. Says so of one that is no number.
pub fn read_prices<'a>(host: &impl Host, prices: &'a mut [u32; 5]) -> Option<PricesRead<'a>>
    ensures { IfSome result (λ read. (length read.prices.now ≤ 5) × (read.next ≤ 2)) }
{
    let mut buffer = [0u8; WORD];
    let word = host.argument(1, &mut buffer);
    match lend_prices(word, prices) {
        Ok(None) => Some(PricesRead {
            prices: &prices[..4],
            next: 1,
        }),
        Ok(Some(count)) => Some(PricesRead {
            prices: &prices[..count],
            next: 2,
        }),
        Err(at) => {
            print_wrong_price(host, at, word);
            None
        }
    }
}

// Keeps argument i as the store's value at `at`, if it is one. No value has more than 11 bytes, and a longer word is read as empty.
fn keep_argument(host: &impl Host, i: usize, values: &mut [i32], at: usize) -> Option<()> {
    let mut buffer = [0u8; 11];
    keep_value(host.argument(i, &mut buffer), values, at)
}

// Says that argument i, value `at` of the store, is none.
fn refuse_value(host: &impl Host, i: usize, at: usize) {
    let mut buffer = [0u8; WORD];
    print_unexpected(host, Expected::Value(at), host.argument(i, &mut buffer));
}

// Reads the store's values: argument `first` and all after it. Says so of one that is none.
pub fn read_arguments(host: &impl Host, first: usize, arguments: usize) -> Option<Store> {
    let mut values = [0i32; STORE];
    for i in first..arguments {
        if keep_argument(host, i, &mut values, i - first).is_none() {
            refuse_value(host, i, i - first);
            return None;
        }
    }
    Some(Store::new(values, arguments.saturating_sub(first)))
}
