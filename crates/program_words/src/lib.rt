// Numbers, prices and picks as words. A number is written as in a script: no plus, no leading zeros, `-` only before a non-zero number.
#![tactic(auto)]

pub mod lists;
pub mod picks;

ghost use Rattle.std.specs.Prelude.{◌≡◌, None, Some, cond, ◌≤◌, min, length};
ghost use Rattle.rules.specs.Text.{is_digit, all_digits, is_natural};
ghost use Rattle.program_words.specs.Words.{digit_of, spelled_in, number_in, is_number, upward_of, downward_of, value_in, kept_in};
ghost use Rattle.program_words.specs.Words.{is_value, done_if, allowance_in, is_none, bit_in, PutBits, PutPicks};

// The value of a digit.
#[tactic(auto, using(crate::proofs::Digits::digit_in, crate::proofs::Digits::digit_low, crate::proofs::Digits::digit_high))]
fn digit(b: u8) -> Option<u8>
    ensures { result ≡ cond (is_digit b) (Some (digit_of b)) None }
{
    match b {
        b'0'..=b'9' => Some(b - b'0'),
        _ => None,
    }
}

// The number that digits spell, if it has 64 bits.
fn spelled(word: &[u8]) -> Option<u64>
    ensures { result ≡ spelled_in word.now }
{
    let mut n: u64 = 0;
    for b in word {
        let d = digit(*b)?;
        n = n.checked_mul(10)?.checked_add(u64::from(d))?;
    }
    Some(n)
}

// The number that a word is.
#[tactic(auto, using(crate::proofs::Words::none_number, crate::proofs::Words::zero_number, crate::proofs::Words::word_number))]
pub fn read_number(word: &[u8]) -> Option<u64>
    ensures { result ≡ number_in word.now }
{
    match word {
        [] => None,
        [b'0', _, ..] => None,
        _ => spelled(word),
    }
}

// Whether a word has digits only.
fn all_digits(word: &[u8]) -> bool
    ensures { result ≡ all_digits word.now }
{
    word.iter().all(|b| b.is_ascii_digit())
}

// Whether a word is a number from 0 on, of any size.
#[tactic(auto, using(crate::proofs::Words::none_natural, crate::proofs::Words::zero_natural, crate::proofs::Words::other_natural))]
fn is_natural(word: &[u8]) -> bool
    ensures { result ≡ is_natural word.now }
{
    match word {
        [] => false,
        [b'0', _, ..] => false,
        _ => all_digits(word),
    }
}

// Whether a word is a number, of any size.
pub fn is_number(word: &[u8]) -> bool
    ensures { result ≡ is_number word.now }
{
    match word.strip_prefix(b"-") {
        Some(digits) => digits != b"0".as_slice() && is_natural(digits),
        None => is_natural(word),
    }
}

// A value from 0 on.
fn upward(n: u64) -> Option<i32>
    ensures { result ≡ upward_of (Some n) }
{
    match n {
        0..=2_147_483_647 => Some(n as i32),
        _ => None,
    }
}

// A value below 0.
fn downward(n: u64) -> Option<i32>
    ensures { result ≡ downward_of (Some n) }
{
    match n {
        1..=2_147_483_648 => Some((0 - (n as i64)) as i32),
        _ => None,
    }
}

// The value of the store that a word is.
fn read_value(word: &[u8]) -> Option<i32>
    ensures { result ≡ value_in word.now }
{
    match word.strip_prefix(b"-") {
        Some(digits) => downward(read_number(digits)?),
        None => upward(read_number(word)?),
    }
}

// Keeps the value that the word is, if it is one and the store has the place.
pub fn keep_value(word: &[u8], store: &mut [i32], at: usize) -> Option<()>
    ensures value { result ≡ done_if (is_value (value_in word.now)) }
    ensures store_after { store.new ≡ kept_in (value_in word.now) store.old at }
{
    let value = read_value(word)?;
    if at < store.len() {
        store[at] = value;
    }
    Some(())
}

// An allowance: a number, or `plan`. A plan's run is made with the largest allowance: an accepted file's run answers the same with
// every allowance from its report's ticks on (the law `run_capped` of the rules), and a refusal reads no allowance.
pub fn allowance(word: &[u8]) -> Option<u64>
    ensures { result ≡ allowance_in word.now }
{
    if word == b"plan".as_slice() {
        Some(u64::MAX)
    } else {
        read_number(word)
    }
}

// Whether the word is `-`, which stands for no picks.
fn is_none(word: &[u8]) -> bool
    ensures { result ≡ is_none word.now }
{
    word == b"-".as_slice()
}

// How many picks a word has, as far as there is room.
pub fn pick_count(word: &[u8], room: &[u8]) -> usize
    ensures value { result ≡ cond (is_none word.now) 0 (min (length word.now) (length room.now)) }
    ensures upper_bound { result ≤ length room.now }
{
    if is_none(word) {
        0
    } else {
        word.len().min(room.len())
    }
}

// The number of a digit 0 or 1.
#[tactic(auto, using(crate::proofs::Bits::bit_here, crate::proofs::Bits::bit_other))]
fn bit(b: u8) -> Option<u8>
    ensures { result ≡ bit_in b }
{
    match b {
        b'0'..=b'1' => Some(b - b'0'),
        _ => None,
    }
}

// Puts the number of each digit of a word of 0 and 1 in its place; none of any other word.
fn put_bits(word: &[u8], bits: &mut [u8]) -> Option<()>
    requires { length word.now ≡ length bits.old }
    ensures { PutBits word.now bits.new result }
{
    for (i, b) in word.iter().enumerate() {
        bits[i] = bit(*b)?;
    }
    Some(())
}

// Puts the picks of a word of 0 and 1, or of `-`, into picks, which has a byte for each; none of any other word.
pub fn put_picks(word: &[u8], picks: &mut [u8]) -> Option<()>
    ensures { PutPicks word.now picks.old picks.new result }
{
    if is_none(word) {
        return picks.is_empty().then_some(());
    }
    if word.is_empty() || word.len() != picks.len() {
        return None;
    }
    put_bits(word, picks)
}
