// Lists on standard input, one file or one run a line.
use crate::input::read_all;
use crate::print::print_text;
use crate::script::{Rehearsal, rehearse_file};
use crate::store::{STORE, Store};
use crate::wrong::{print_wrong_listed, print_wrong_price};
use host::Host;
use program_words::lists::{lend_prices, read_line_values};

// A text before its first space, and after it.
fn cut(text: &[u8]) -> (&[u8], &[u8]) {
    match text.iter().position(|b| *b == b' ') {
        Some(at) => (&text[..at], &text[at + 1..]),
        None => (text, b""),
    }
}

// Makes the run of a line under prices: a name, an allowance, picks, and values.
fn run_words(host: &impl Host, line: &[u8], prices: &[u32]) {
    let (path, rest) = cut(line);
    let (allowance, rest) = cut(rest);
    let (picks, words) = cut(rest);
    let mut values = [0i32; STORE];
    match read_line_values(words, &mut values) {
        Ok(count) => {
            let store = Store::new(values, count);
            let run = Rehearsal {
                path,
                prices,
                allowance,
                picks,
                store,
                cues: false,
            };
            rehearse_file(host, run);
        }
        Err(at) => print_wrong_listed(host, at, words, b' '),
    }
}

// Makes the run of a line `[prices=A,C,P,T] NAME ALLOWANCE PICKS VALUE ..`.
pub fn run_line(host: &impl Host, line: &[u8]) {
    let mut prices = [1u32; 5];
    let (word, rest) = cut(line);
    match lend_prices(word, &mut prices) {
        Ok(None) => run_words(host, line, &prices[..4]),
        Ok(Some(count)) => run_words(host, rest, &prices[..count]),
        Err(at) => print_wrong_price(host, at, word),
    }
}

// Prints each line of standard input, and answers it.
pub fn answer_input<H: Host, F: Fn(&H, &[u8])>(host: &H, answer: F)
    requires { F.IsAlwaysCallable answer }
{
    let mut buffer = io::large_buffer();
    let list = match read_all(&mut host.reader(), &mut buffer) {
        Ok(list) | Err(list) => list,
    };
    if list.is_empty() {
        return;
    }
    for line in list
        .strip_suffix(b"\n")
        .unwrap_or(list)
        .split(|b| *b == b'\n')
    {
        print_text(host, line);
        println!(host; "");
        answer(host, line);
    }
}
