// A script file, reported and run. A byte more than a file may have is read, so that a longer file is told.
ghost use Rattle.std.specs.Prelude.{◌≡◌, take};
ghost use Rattle.rules.specs.Calls.{four_ones, scratch_size, judged, run_reply};
ghost use Rattle.answer_text.specs.Texts.{reply_text};
ghost use Rattle.answer_text.specs.Printed.{printed};

use crate::arguments::WORD;
use crate::cues::print_cues;
use crate::found::find_picks;
use crate::input::{read_all, read_file};
use crate::print::print_text;
use crate::steps::Terms;
use crate::store::Store;
use crate::wrong::{Expected, print_unexpected, print_unread};
use answer_text::reports::{TEXT, put_report};
use host::Host;
use program_words::picks::{PicksBy, picks_by};
use program_words::{allowance, pick_count, put_picks};

// Writes what is printed of a file.
fn write_report(host: &impl Host, file: &[u8], text: &[u8])
    requires { text.now ≡ printed four_ones file.now }
{
    print_text(host, text);
}

// Prints the report of a file's bytes under four ones, or its refusal.
fn print_report(host: &impl Host, file: &[u8]) {
    let ones = [1u32; 4];
    let mut text = [0u8; TEXT];
    let n = put_report(file, &ones, &mut text);
    write_report(host, file, &text[..n]);
}

// Prints the report of the file on standard input.
pub fn report_input(host: &impl Host) {
    let mut buffer = [0u8; 16385];
    match read_all(&mut host.reader(), &mut buffer) {
        Ok(file) => print_report(host, file),
        Err(_) => println!(host; "error=cannot read the file"),
    }
}

// Prints the report of the file of that name.
pub fn report_file(host: &impl Host, path: &[u8]) {
    let mut buffer = [0u8; 16385];
    match read_file(host, path, &mut buffer) {
        Some(file) => print_report(host, file),
        None => print_unread(host, path),
    }
}

// Writes what is printed of a run from a store.
fn write_run(host: &impl Host, terms: Terms<'_>, picks: &[u8], store: Store, text: &[u8])
    requires { text.now ≡ reply_text (run_reply terms.prices.now (judged terms.prices.now scratch_size terms.file.now)
        (take store.count store.values) picks.now terms.allowed) (take store.count store.values) }
{
    print_text(host, text);
}

// Runs a file's bytes from a store and prints what the call answers.
fn print_run(host: &impl Host, terms: Terms<'_>, picks: &[u8], store: Store) {
    let mut after = store;
    let mut text = [0u8; answer_text::runs::TEXT];
    let n = answer_text::runs::put_answer(
        terms.file,
        terms.prices,
        &mut after.values[..store.count],
        picks,
        terms.allowed,
        &mut text,
    );
    write_run(host, terms, picks, store, &text[..n]);
}

// A run that is asked for: the name of its file, the prices, the words of its allowance and of its picks, its store, and whether its cues
// are printed.
#[derive(Clone, Copy)]
pub struct Rehearsal<'a> {
    pub path: &'a [u8],
    pub prices: &'a [u32],
    pub allowance: &'a [u8],
    pub picks: &'a [u8],
    pub store: Store,
    pub cues: bool,
}

// Makes the run with picks that are given, or for which there is room, and prints its cues, if they are asked for, and what the call
// answers.
fn run_file(host: &impl Host, run: Rehearsal<'_>, allowed: u64, by: PicksBy, picks: &mut [u8]) {
    let mut buffer = [0u8; 16385];
    let Some(file) = read_file(host, run.path, &mut buffer) else {
        print_unread(host, run.path);
        return;
    };
    let terms = Terms {
        file,
        prices: run.prices,
        allowed,
    };
    let count = find_picks(host, terms, by, run.store, picks);
    if run.cues {
        print_cues(host, terms, &picks[..count], run.store);
    }
    print_run(host, terms, &picks[..count], run.store);
}

// The same by its word of picks, whose bytes go into picks.
fn run_word(host: &impl Host, run: Rehearsal<'_>, allowed: u64, picks: &mut [u8]) {
    match put_picks(run.picks, picks) {
        Some(()) => run_file(host, run, allowed, PicksBy::Word, picks),
        None => print_unexpected(host, Expected::Picks, run.picks),
    }
}

// The same with room for as many picks as an argument of a program can have, or for those of the word.
fn run_picks(host: &impl Host, run: Rehearsal<'_>, allowed: u64, by: PicksBy) {
    let mut room = [0u8; WORD];
    match by {
        PicksBy::Word => {
            let count = pick_count(run.picks, &room);
            run_word(host, run, allowed, &mut room[..count]);
        }
        _ => run_file(host, run, allowed, by, &mut room),
    }
}

// Makes a run, and prints the outcome or what is wrong; before it the cues, if they are asked for.
pub fn rehearse_file(host: &impl Host, run: Rehearsal<'_>) {
    let Some(allowed) = allowance(run.allowance) else {
        print_unexpected(host, Expected::Allowance, run.allowance);
        return;
    };
    match picks_by(run.picks) {
        Some(by) => run_picks(host, run, allowed, by),
        None => print_unexpected(host, Expected::Seed, run.picks),
    }
}
