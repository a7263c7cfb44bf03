// Lists of numbers as words: the prices of a run, and the values of a store. An error is the index of the first word that is none.

ghost use Rattle.std.specs.Prelude.{◌≡◌, map, length};
ghost use Rattle.rules.specs.Text.{split};
ghost use Rattle.program_words.specs.Lists.{comma, values_in, values_kept};
ghost use Rattle.program_words.specs.Lists.{line_words, comma_words, price_of, count_by, lent_by, prices_by, prices_lent, LentAs, ListLent};

use crate::keep_value;

// Keeps the values of a list, with a separator between them, as far as the store has places, and answers how many they are.
pub fn read_values(list: &[u8], separator: u8, store: &mut [i32]) -> Result<usize, usize>
    ensures value { result ≡ values_in 0 (split separator list.now) }
    ensures store_after { store.new ≡ values_kept (split separator list.now) 0 store.old }
{
    let mut count = 0;
    for word in list.split(|b| *b == separator) {
        keep_value(word, store, count).ok_or(count)?;
        count += 1;
    }
    Ok(count)
}

// Keeps the values that end a line: none of an empty text, and a space may stand after the last.
pub fn read_line_values(words: &[u8], store: &mut [i32]) -> Result<usize, usize>
    ensures value { result ≡ values_in 0 (line_words words.now) }
    ensures store_after { store.new ≡ values_kept (line_words words.now) 0 store.old }
{
    if words.is_empty() {
        return Ok(0);
    }
    read_values(words.strip_suffix(b" ").unwrap_or(words), b' ', store)
}

// Keeps the values of a word with commas between them, or none for `-`.
pub fn read_word_values(word: &[u8], store: &mut [i32]) -> Result<usize, usize>
    ensures value { result ≡ values_in 0 (comma_words word.now) }
    ensures store_after { store.new ≡ values_kept (comma_words word.now) 0 store.old }
{
    if word == b"-".as_slice() {
        return Ok(0);
    }
    read_values(word, b',', store)
}

// A number as a price: one below 0 is lent as 0, which 16 refuses too.
#[tactic(auto, unfolding(crate::specs::Lists::price_of))]
fn as_price(v: i32) -> u32
    ensures { result ≡ price_of v }
{
    u32::try_from(v).unwrap_or(0)
}

// Puts five numbers as prices.
fn put_five(values: &[i32], prices: &mut [u32])
    requires { (length values.now ≡ 5) × (length prices.old ≡ 5) }
    ensures { prices.new ≡ map price_of values.now }
{
    for (i, value) in values.iter().enumerate() {
        prices[i] = as_price(*value);
    }
}

// Keeps the prices of a list with commas between them, and answers how many they are, five for more, since 16 refuses the fifth.
fn keep_prices(list: &[u8], prices: &mut [u32]) -> Result<usize, usize>
    requires { length prices.old ≡ 5 }
    ensures { ListLent (count_by (split comma list.now)) (prices_by (split comma list.now)) result prices.new }
{
    let mut values = [1i32; 5];
    let kept = read_values(list, b',', &mut values);
    put_five(&values, prices);
    Ok(kept?.min(5))
}

// Keeps the prices of a first word that is `prices=A,C,P,T`, or a list of more or fewer, and answers how many are lent, five for more;
// nothing if it is another word: then the prices are as they were.
pub fn lend_prices(word: &[u8], prices: &mut [u32]) -> Result<Option<usize>, usize>
    requires { length prices.old ≡ 5 }
    ensures { LentAs (lent_by word.now) (prices_lent word.now prices.old) result prices.new }
{
    let Some(list) = word.strip_prefix(b"prices=") else {
        return Ok(None);
    };
    Ok(Some(keep_prices(list, prices)?))
}
