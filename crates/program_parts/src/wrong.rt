// Lines `error=..` about an argument or a word: what was expected, and the word that is not it.
use crate::print::print_text;
use host::Host;
use program_words::is_number;

// How many bytes of a word are shown.
const SHOWN: usize = 60;

// A byte as it is shown: `?` for one that would end the line or move the place on the page.
fn shown(b: u8) -> u8 {
    if b.is_ascii_control() { b'?' } else { b }
}

// Prints a word, cut where it is long.
fn print_word(host: &impl Host, word: &[u8]) {
    let mut text = [0u8; SHOWN];
    for (place, b) in text.iter_mut().zip(word) {
        *place = shown(*b);
    }
    print_text(host, &text[..word.len().min(SHOWN)]);
    if word.len() > SHOWN {
        print!(host; "..");
    }
}

// A line about a word that was expected to be something else.
pub fn print_wrong(host: &impl Host, expected: &str, word: &[u8]) {
    print!(host; "{expected}: ");
    print_word(host, word);
    println!(host; "");
}

// What a word was expected to be: value `at` of the store, price `at`, an allowance, the ticks of a frame, picks, or a seed.
#[derive(Clone, Copy, Debug, PartialEq, Eq)]
pub enum Expected {
    Value(usize),
    Price(usize),
    Allowance,
    Ticks,
    Picks,
    Seed,
}

// The same of a word that is none of these, or a number out of its range.
pub fn print_unexpected(host: &impl Host, expected: Expected, word: &[u8]) {
    let number = is_number(word);
    let other = match expected {
        Expected::Value(at) => {
            print!(host; "error=value {at}");
            if number {
                " is not from -2147483648 to 2147483647"
            } else {
                " is not a number"
            }
        }
        Expected::Price(at) => {
            print!(host; "error=price {at}");
            if number {
                " is not from 1 to 1000"
            } else {
                " is not a number"
            }
        }
        Expected::Allowance if number => "error=allowance is not from 0 to 18446744073709551615",
        Expected::Allowance => "error=allowance is not a number or plan",
        Expected::Ticks if number => "error=Q is not from 1 to 1000000",
        Expected::Ticks => "error=Q is not a number",
        Expected::Picks => "error=picks are not 0 and 1, or -",
        Expected::Seed => "error=the seed is not from 0 to 18446744073709551615",
    };
    print_wrong(host, other, word);
}

// Word `at` of a list with separators between them, if it has so many.
fn listed(list: &[u8], separator: u8, at: usize) -> &[u8] {
    list.split(|b| *b == separator).nth(at).unwrap_or(b"")
}

// Value `at` of a list with separators between them.
pub fn print_wrong_listed(host: &impl Host, at: usize, list: &[u8], separator: u8) {
    print_unexpected(host, Expected::Value(at), listed(list, separator, at));
}

// Price `at` of a word `prices=..`.
pub fn print_wrong_price(host: &impl Host, at: usize, word: &[u8]) {
    let list = word.strip_prefix(b"prices=").unwrap_or(word);
    print_unexpected(host, Expected::Price(at), listed(list, b',', at));
}

// A file that cannot be read, by its name.
pub fn print_unread(host: &impl Host, name: &[u8]) {
    print_wrong(host, "error=cannot read the file", name);
}
