// explain [prices=A,C,P,T] [run=PICKS [values=V,..]] [FILE ..]: prints each script, or the one on standard input, row by row with its
// figures in a margin; of a refused file the row or line, the cause and the remedy. With run= it prints the run of each, and draws its
// cues over its ticks. The prices are four ones if they are not given. explain refused=NUMBER prints the cause and the remedy of a refusal.
#![tactic(auto)]

mod blocks;
mod drawing;
mod faults;
mod known;
mod limits;
mod marked;
mod picture;
mod refusal;
mod refusals;
mod rows;
mod show;
mod terms;

ghost use Rattle.std.specs.Prelude.{◌≤◌, length};
ghost use Rattle.rules.specs.Calls.{Priced};
ghost use Rattle.calls.specs.Held.{Given};
ghost use Rattle.explain.specs.Asked.{Asked};

use calls::prices::{ask_prices, prices_of};
use drawing::{Shown, draw_file};
use host::{Host, System};
use program_parts::{
    Expected, STORE, Store, WORD, print_text, print_unexpected, print_wrong_listed,
};
use program_words::lists::read_word_values;
use program_words::{pick_count, put_picks};
use reader::{Loaded, load};
use refusal::print_refused;
use rules::Prices;
use show::print_script;
use std::process::ExitCode;

fn help(host: &impl Host) {
    println!(host; "explain [prices=A,C,P,T] [run=PICKS [values=V,..]] [FILE ..]");
    println!(host;
        "prints each script, FILE or standard input, row by row with its turns and ticks in a margin"
    );
    println!(host;
        "of a refused one the line or row, the cause and the remedy; prices are 1 if they are not given"
    );
    println!(host;
        "with run= the run by these picks, 0 and 1 or - for none, and its cues drawn over its ticks"
    );
    println!(host;
        "values=V,..: the store, v0 first; without it each is 0, or the low end of a range without 0"
    );
    println!(host; "explain refused=NUMBER prints the cause and the remedy of a refusal");
    println!(host; "example: explain examples/listing.eff");
    println!(host; "example: explain run=- values=0,1 examples/listing.eff");
}

// Prints a script that has been read, from its table of rows.
fn explain_rows(
    host: &impl Host,
    file: &[u8],
    rows: &[u32],
    count: usize,
    ranges: [[i32; 2]; 16],
    vars: usize,
    prices: Prices,
)
    requires { Asked file.now ranges vars rows.now count prices }
{
    let mut lines = [[0u64; 7]; 16];
    let mut own = [0u64; 256];
    match analysis::analyse(file, rows, count, ranges, prices, &mut lines, &mut own) {
        Ok(found) => {
            let mut figures = [[0u64; 4]; 256];
            explain_margin::put_lines(&lines, found.loops, &mut figures);
            explain_margin::put_ticks(&own, &mut figures);
            print_script(host, file, vars, rows, count, &figures, found.ticks, ranges);
        }
        Err(refusal) => rows::print_refused_rows(host, file, vars, rows, count, refusal),
    }
}

// Prints a script that has been read.
fn explain_script(
    host: &impl Host,
    file: &[u8],
    rows: &[u32],
    script: Loaded,
    ranges: [[i32; 2]; 16],
    prices: &[u32],
)
    requires { Given file.now rows.now script ranges × Priced prices.now }
{
    let by_kind = prices_of(prices);
    explain_rows(host, file, rows, script.count, ranges, script.vars, by_kind);
}

// Prints a file's script under prices that 16 has passed, or its refusal.
fn explain_priced(host: &impl Host, file: &[u8], prices: &[u32])
    requires { Priced prices.now }
{
    let mut ranges = [[0i32; 2]; 16];
    let mut table = [0u32; 1024];
    match load(file, &mut ranges, &mut table) {
        Ok(script) => explain_script(host, file, &table, script, ranges, prices),
        Err(refusal) => print_refused(host, file, refusal),
    }
}

// Prints a file's script, or its refusal.
pub fn explain_file(host: &impl Host, file: &[u8], prices: &[u32]) {
    match ask_prices(prices) {
        Ok(()) => explain_priced(host, file, prices),
        Err(refusal) => print_refused(host, file, refusal),
    }
}

// Prints what is to be shown of a file; none if it cannot be read.
fn show_file(host: &impl Host, file: Option<&[u8]>, prices: &[u32], shown: Shown<'_>) {
    let Some(file) = file else {
        println!(host; "error=cannot read the file");
        return;
    };
    match shown {
        Shown::Figures => explain_file(host, file, prices),
        Shown::Run(picks, given) => draw_file(host, file, prices, picks, given),
    }
}

// The file on standard input.
fn explain_input(host: &impl Host, prices: &[u32], shown: Shown<'_>) {
    let mut buffer = [0u8; 16385];
    let file = program_parts::read_all(&mut host.reader(), &mut buffer).ok();
    show_file(host, file, prices, shown);
}

// The file of that name, after its name.
fn explain_named(host: &impl Host, name: &[u8], prices: &[u32], shown: Shown<'_>) {
    print_text(host, name);
    println!(host; "");
    let mut buffer = [0u8; 16385];
    let file = program_parts::read_file(host, name, &mut buffer);
    show_file(host, file, prices, shown);
}

// What argument i asks for: the words of a refusal, or the file of that name.
fn explain_argument(host: &impl Host, i: usize, prices: &[u32], shown: Shown<'_>) {
    let mut buffer = [0u8; WORD];
    let word = host.argument(i, &mut buffer);
    match word.strip_prefix(b"refused=") {
        Some(number) => refusal::print_words(host, number),
        None => explain_named(host, word, prices, shown),
    }
}

// The arguments from `first` on, an empty line between two; standard input if there is none.
fn explain_all(host: &impl Host, first: usize, arguments: usize, prices: &[u32], shown: Shown<'_>) {
    if arguments <= first {
        explain_input(host, prices, shown);
        return;
    }
    for i in first..arguments {
        if i > first {
            println!(host; "");
        }
        explain_argument(host, i, prices, shown);
    }
}

// Draws the run by picks of each file from argument `first` on, from the values that this argument has, if it has them.
fn draw_all(host: &impl Host, first: usize, arguments: usize, prices: &[u32], picks: &[u8])
    requires { first ≤ 3 }
{
    let mut buffer = [0u8; WORD];
    let word = host.argument(first, &mut buffer);
    let Some(list) = word.strip_prefix(b"values=") else {
        explain_all(host, first, arguments, prices, Shown::Run(picks, None));
        return;
    };
    let mut values = [0i32; STORE];
    match read_word_values(list, &mut values) {
        Ok(count) => {
            let given = Some(Store::new(values, count));
            explain_all(host, first + 1, arguments, prices, Shown::Run(picks, given));
        }
        Err(at) => print_wrong_listed(host, at, list, b','),
    }
}

// The same by a word of picks, whose bytes go into picks.
fn draw_word(
    host: &impl Host,
    first: usize,
    arguments: usize,
    prices: &[u32],
    word: &[u8],
    picks: &mut [u8],
)
    requires { first ≤ 3 }
{
    match put_picks(word, picks) {
        Some(()) => draw_all(host, first, arguments, prices, picks),
        None => print_unexpected(host, Expected::Picks, word),
    }
}

// The same with room for as many picks as an argument can have.
fn draw_by(host: &impl Host, first: usize, arguments: usize, prices: &[u32], word: &[u8])
    requires { first ≤ 3 }
{
    let mut picks = [0u8; WORD];
    let count = pick_count(word, &picks);
    draw_word(host, first, arguments, prices, word, &mut picks[..count]);
}

// Explains the files from argument `first` on, or draws them if this argument is `run=PICKS`.
fn explain_words(host: &impl Host, first: usize, arguments: usize, prices: &[u32])
    requires { first ≤ 2 }
{
    let mut buffer = [0u8; WORD];
    let word = host.argument(first, &mut buffer);
    match word.strip_prefix(b"run=") {
        Some(picks) => draw_by(host, first + 1, arguments, prices, picks),
        None => explain_all(host, first, arguments, prices, Shown::Figures),
    }
}

// What the arguments ask for.
fn run(host: &impl Host) {
    if program_parts::asks_help(host) {
        help(host);
        return;
    }
    let arguments = host.argument_count();
    let mut prices = [1u32; 5];
    if let Some(read) = program_parts::read_prices(host, &mut prices) {
        explain_words(host, read.next, arguments, read.prices);
    }
}

fn main(rt: HostRuntime) -> ExitCode {
    let host = System::new(rt);
    run(&host);
    host.status()
}
