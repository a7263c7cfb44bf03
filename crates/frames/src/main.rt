// frames [prices=A,C,P,T] Q [FILE PICKS VALUES] ..: runs up to 8 script files together, Q ticks a frame, and prints of each the frame that
// it finished in and its run as `rehearse` does, and the most ticks that all together took in one frame. The prices are four ones if they
// are not given. PICKS is a word of 0 and 1 or `-`, and VALUES the store, numbers with commas between them, or `-`.
#![tactic(auto)]

ghost use Rattle.std.specs.Prelude.{◌≡◌, ◌≤◌, length, IfOk, IfSome};

use calls_frames::{Frames, Played};
use calls_scripts::ScriptRefusal;
use host::{Host, System};
use loader::SCRATCH;
use program_parts::{Expected, WORD, print_unexpected};
use program_words::lists::read_word_values;
use program_words::{pick_count, put_picks, read_number};
use rules::Refusal;
use std::process::ExitCode;

// A call is lent no more scripts.
const SCRIPTS: usize = 8;

// Which of a script's words is wrong: its file cannot be read, its picks are none or too many, or a value is none.
#[derive(Clone, Copy)]
enum Wrong {
    File,
    Picks,
    ManyPicks,
    Value(usize),
}

// How much of what is lent one script takes, or all.
#[derive(Clone, Copy)]
struct Share {
    file: usize,
    picks: usize,
    values: usize,
}

// What a call is lent: 8 files, a byte more than a file may have each, and as many picks in all as an argument can have, with the length
// of each script's part.
#[derive(Drop)]
struct Room {
    files: [u8; 131_080],
    file_lengths: [usize; SCRIPTS],
    picks: [u8; WORD],
    pick_lengths: [usize; SCRIPTS],
    stores: [i32; 136],
    store_lengths: [usize; SCRIPTS],
}

// Reads the file that argument i names.
fn read_path(host: &impl Host, i: usize, file: &mut [u8]) -> Result<usize, Wrong>
    ensures { IfOk result (λ n. n ≤ length file.old) }
{
    let mut buffer = [0u8; WORD];
    let path = host.argument(i, &mut buffer);
    match program_parts::read_file(host, path, file) {
        Some(read) => Ok(read.len()),
        None => Err(Wrong::File),
    }
}

// Reads the picks of argument i, as far as there is room.
fn read_picks(host: &impl Host, i: usize, picks: &mut [u8]) -> Result<usize, Wrong>
    ensures { IfOk result (λ count. count ≤ length picks.old) }
{
    let mut buffer = [0u8; WORD];
    let word = host.argument(i, &mut buffer);
    let count = pick_count(word, picks);
    let many = word.len() > picks.len();
    match put_picks(word, &mut picks[..count]) {
        Some(()) => Ok(count),
        None if many => Err(Wrong::ManyPicks),
        None => Err(Wrong::Picks),
    }
}

// Reads the values of argument i; the store's 17 places do, as for `rehearse`.
fn read_values(host: &impl Host, i: usize, store: &mut [i32]) -> Result<usize, Wrong>
    ensures { IfOk result (λ count. count ≤ length store.old) }
{
    let mut buffer = [0u8; WORD];
    let room = store.len();
    match read_word_values(host.argument(i, &mut buffer), store) {
        Ok(count) => Ok(count.min(room)),
        Err(at) => Err(Wrong::Value(at)),
    }
}

// Reads a script's three words, from argument i on.
fn read_script(
    host: &impl Host,
    i: usize,
    file: &mut [u8],
    picks: &mut [u8],
    store: &mut [i32],
) -> Result<Share, Wrong>
    requires { i ≤ 99 }
    ensures { IfOk result (λ share. (share.file ≤ length file.old) × (share.picks ≤ length picks.old)
        × (share.values ≤ length store.old)) }
{
    Ok(Share {
        file: read_path(host, i, file)?,
        picks: read_picks(host, i + 1, picks)?,
        values: read_values(host, i + 2, store)?,
    })
}

// Prints which script it is.
fn print_which(host: &impl Host, k: usize) {
    println!(host; "script={k}");
}

// Says of a script's words, from argument i on, which is wrong.
fn print_wrong_word(host: &impl Host, i: usize, wrong: Wrong)
    requires { i ≤ 99 }
{
    let mut buffer = [0u8; WORD];
    match wrong {
        Wrong::File => program_parts::print_unread(host, host.argument(i, &mut buffer)),
        Wrong::Picks => print_unexpected(host, Expected::Picks, host.argument(i + 1, &mut buffer)),
        Wrong::ManyPicks => println!(host; "error=too many picks: 131072 are taken in all"),
        Wrong::Value(at) => program_parts::print_wrong_listed(
            host,
            at,
            host.argument(i + 2, &mut buffer),
            b',',
        ),
    }
}

// Reads the words of all scripts, from argument `first` on, one after the other into what is lent, and answers what they take in all; none
// if a word is wrong, of which it says so.
fn read_scripts(host: &impl Host, first: usize, scripts: usize, room: &mut Room) -> Option<Share>
    requires { (first ≤ 3) × (scripts ≤ 8) }
    ensures { IfSome result (λ all. (all.file ≤ 131_080) × (all.picks ≤ 131_072) × (all.values ≤ 136)) }
{
    let mut all = Share {
        file: 0,
        picks: 0,
        values: 0,
    };
    for k in 0..scripts {
        let files = &mut room.files[..];
        let picks = &mut room.picks[..];
        let stores = &mut room.stores[..];
        let script = read_script(
            host,
            first + 3 * k,
            &mut files[all.file..all.file + 16_385],
            &mut picks[all.picks..],
            &mut stores[all.values..all.values + 17],
        );
        match script {
            Ok(share) => {
                room.file_lengths[k] = share.file;
                room.pick_lengths[k] = share.picks;
                room.store_lengths[k] = share.values;
                all = Share {
                    file: all.file + share.file,
                    picks: all.picks + share.picks,
                    values: all.values + share.values,
                };
            }
            Err(wrong) => {
                print_which(host, k);
                print_wrong_word(host, first + 3 * k, wrong);
                return None;
            }
        }
    }
    Some(all)
}

// Prints script k's answer: its number, its frame, and its run.
fn print_script(host: &impl Host, k: usize, p: Played, store: &[i32]) {
    print_which(host, k);
    let frame = p.frame;
    println!(host; "frame={frame}");
    program_parts::print_outcome(host, p.outcome, store);
}

// Prints the scripts' answers one after the other, each with its part of the stores, and the most ticks.
fn print_scripts(host: &impl Host, f: Frames, stores: &[i32], lengths: &[usize]) {
    let mut rest = stores;
    for k in 0..lengths.len().min(SCRIPTS) {
        let (store, others) = rest.split_at(lengths[k].min(rest.len()));
        print_script(host, k, f.scripts[k], store);
        rest = others;
    }
    let most = f.most;
    println!(host; "most={most}");
}

// Prints a refusal. Where it is of a script, which it is stands before it.
fn print_refused(host: &impl Host, refused: ScriptRefusal) {
    if refused.script > 0 {
        print_which(host, refused.script - 1);
    }
    program_parts::print_refusal(host, refused.refusal);
}

// The call for so many scripts, which take so much of what is lent, and what it prints.
fn play(host: &impl Host, scripts: usize, all: Share, room: &mut Room, prices: &[u32], q: u64)
    requires { (scripts ≤ 8) × (all.file ≤ 131_080) × (all.picks ≤ 131_072) × (all.values ≤ 136) }
{
    let mut scratch = [0u32; SCRATCH];
    let stores = &mut room.stores[..];
    let answer = loader::frames(
        &room.files[..all.file],
        &room.file_lengths[..scripts],
        &mut stores[..all.values],
        &room.store_lengths[..scripts],
        &room.picks[..all.picks],
        &room.pick_lengths[..scripts],
        prices,
        q,
        &mut scratch,
    );
    match answer {
        Ok(f) => print_scripts(
            host,
            f,
            &stores[..all.values],
            &room.store_lengths[..scripts],
        ),
        Err(refused) => print_refused(host, refused),
    }
}

// Reads the words of so many scripts from argument `first` on, and plays them.
fn with_room(host: &impl Host, first: usize, scripts: usize, prices: &[u32], q: u64)
    requires { (first ≤ 3) × (scripts ≤ 8) }
{
    let mut room = Room {
        files: [0; 131_080],
        file_lengths: [0; SCRIPTS],
        picks: [0; WORD],
        pick_lengths: [0; SCRIPTS],
        stores: [0; 136],
        store_lengths: [0; SCRIPTS],
    };
    if let Some(all) = read_scripts(host, first, scripts, &mut room) {
        play(host, scripts, all, &mut room, prices, q);
    }
}

fn form(host: &impl Host) {
    println!(host; "frames [prices=A,C,P,T] Q [FILE PICKS VALUES] ..");
}

fn usage(host: &impl Host) {
    print!(host; "error=usage: ");
    form(host);
}

fn help(host: &impl Host) {
    form(host);
    println!(host;
        "runs up to 8 scripts together, Q ticks a frame, 1 to 1000000, and prints of each its frame and its run"
    );
    println!(host;
        "PICKS: a word of 0 and 1, or - for none; VALUES: the store, numbers with commas between them, or -"
    );
    println!(host;
        "example: frames 20 examples/listing.eff - 0,1 examples/lantern.eff 1111111111 1,100"
    );
}

// Plays the scripts whose words are the arguments from `first` on, three a script; more than a call can be lent are refused, as it would.
fn start(host: &impl Host, first: usize, arguments: usize, prices: &[u32], q: u64)
    requires { first ≤ 3 }
{
    let words = arguments.saturating_sub(first);
    let scripts = words / 3;
    if scripts * 3 != words {
        usage(host);
    } else if SCRIPTS < scripts {
        program_parts::print_refusal(
            host,
            Refusal {
                number: 20,
                place: 0,
            },
        );
    } else {
        with_room(host, first, scripts, prices, q);
    }
}

// Reads Q, argument `at`.
fn read_q(host: &impl Host, at: usize, arguments: usize, prices: &[u32])
    requires { at ≤ 2 }
{
    if arguments <= at {
        usage(host);
        return;
    }
    let mut buffer = [0u8; WORD];
    let word = host.argument(at, &mut buffer);
    match read_number(word) {
        Some(q) => start(host, at + 1, arguments, prices, q),
        None => print_unexpected(host, Expected::Ticks, word),
    }
}

// What the arguments ask for.
fn run(host: &impl Host) {
    if program_parts::asks_help(host) {
        help(host);
        return;
    }
    let arguments = host.argument_count();
    let mut prices = [1u32; 5];
    if let Some(read) = program_parts::read_prices(host, &mut prices) {
        read_q(host, read.next, arguments, read.prices);
    }
}

fn main(rt: HostRuntime) -> ExitCode {
    let host = System::new(rt);
    run(&host);
    host.status()
}
