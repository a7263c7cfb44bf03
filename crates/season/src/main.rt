// season [files] [FILE ..]: prints the season's sheet of the files that are named, as arguments or on standard input, one a line; with
// `files` first a line for each name. For no name or more than 64 it prints `refused=18 0`.
#![tactic(auto)]

ghost use Rattle.std.specs.Prelude.{◌≡◌, ◌≤◌, ◌<◌, length, IfSome};
ghost use Rattle.season.specs.Listed.{Listed, SheetOf};

use host::{Host, System};
use program_parts::{WORD, is_argument, print_refusal, print_text, read_file};
use season_sheet::files::{CUES, FILES, REPORTS, add_file};
use season_sheet::names::{LINE, LINES, ROOM};
use season_sheet::sheet::{Sheet, TEXT};
use std::io::Read;
use std::process::ExitCode;

// What came of a read: there may be more; there is no need of more; or it failed.
#[derive(Clone, Copy, Debug, PartialEq, Eq)]
enum Came {
    More,
    End,
    Failed,
}

// The names so far: the line that is open, and what came of the last read.
#[derive(Clone, Copy)]
struct Listing {
    line: usize,
    came: Came,
}

// What came of a read of so many bytes. After 65 lines there is no need of more.
fn came_of(n: usize, line: usize) -> Came {
    if n > 0 && line < LINES {
        Came::More
    } else {
        Came::End
    }
}

// Reads a block of standard input.
fn read_block(
    host: &impl Host,
    line: usize,
    names: &mut [u8; ROOM],
    lengths: &mut [usize; 66],
) -> Listing
    ensures { (Listed line names.old lengths.old → Listed result.line names.new lengths.new) }
{
    let mut block = io::large_buffer();
    let Ok(n) = host.reader().read(&mut block) else {
        return Listing {
            line,
            came: Came::Failed,
        };
    };
    let next = season_sheet::names::push_all(line, &block[..n], names, lengths);
    Listing {
        line: next,
        came: came_of(n, next),
    }
}

// Reads the names. A proved loop has to end, and nothing says that standard input does: the loop counts its turns up to a number that no
// run reaches.
fn read_names(host: &impl Host, names: &mut [u8; ROOM], lengths: &mut [usize; 66]) -> Listing
    ensures { Listed result.line names.new lengths.new }
{
    let mut list = Listing {
        line: season_sheet::names::start(names, lengths),
        came: Came::More,
    };
    for _ in 0..u64::MAX {
        list = read_block(host, list.line, names, lengths);
        if list.came != Came::More {
            break;
        }
    }
    list
}

// Keeps argument i as a name.
fn keep_argument(
    host: &impl Host,
    i: usize,
    line: usize,
    names: &mut [u8; ROOM],
    lengths: &mut [usize; 66],
) -> usize
    ensures { (Listed line names.old lengths.old → Listed result names.new lengths.new) }
{
    let mut buffer = [0u8; WORD];
    let word = host.argument(i, &mut buffer);
    let next = season_sheet::names::push_all(line, word, names, lengths);
    season_sheet::names::push_all(next, b"\n", names, lengths)
}

// Takes the names from the arguments, `first` and all after it. After 65 names there is no need of more.
fn argument_names(
    host: &impl Host,
    first: usize,
    arguments: usize,
    names: &mut [u8; ROOM],
    lengths: &mut [usize; 66],
) -> usize
    ensures { Listed result names.new lengths.new }
{
    let mut line = season_sheet::names::start(names, lengths);
    for i in first..arguments {
        line = keep_argument(host, i, line, names, lengths);
    }
    line
}

// Reads the file of name k; none of a name that is not to be opened, and of a file that cannot be opened or read.
fn read_named<'a>(
    host: &impl Host,
    k: usize,
    names: &[u8],
    lengths: &[usize; 66],
    file: &'a mut [u8],
) -> Option<&'a [u8]>
    requires { (k < 64) × (length names.now ≡ 16_640) }
    ensures { IfSome result (λ all. length all.now ≤ length file.old) }
{
    let n = season_sheet::names::opened(k, names, lengths);
    if n == 0 {
        return None;
    }
    let from = k * LINE;
    read_file(host, &names[from..from + n], file)
}

// Prints what is found of a file: its ticks, or its refusal.
fn print_figures(host: &impl Host, file: &[u8]) {
    let mut report = [0u8; 2_089];
    let mut cues = [0u32; 256];
    let found = season_sheet::files::measure(file, &mut report, &mut cues);
    match found.reply {
        Ok(_) => println!(host; "ticks={}", found.ticks),
        Err(refusal) => print_refusal(host, refusal),
    }
}

// Prints the line of name k: the name, and its file's ticks or refusal, or that it cannot be read.
fn print_line(host: &impl Host, k: usize, names: &[u8], lengths: &[usize; 66], file: Option<&[u8]>)
    requires { (k < 64) × (length names.now ≡ 16_640) }
{
    let from = k * LINE;
    print_text(host, &names[from..from + lengths[k].min(LINE)]);
    print!(host; ": ");
    match file {
        Some(file) => print_figures(host, file),
        None => println!(host; "unreadable"),
    }
}

// The sheet of the first `count` names; with `listing` it prints a line for each.
fn sheet_of(
    host: &impl Host,
    count: usize,
    names: &[u8],
    lengths: &[usize; 66],
    listing: bool,
    counts: &mut [u64; 21],
) -> Sheet
    requires { (count ≤ 64) × (length names.now ≡ 16_640) }
    ensures { SheetOf count result counts.new }
{
    let mut firsts = [0usize; FILES];
    let mut reports = [0u8; REPORTS];
    let mut fired = [0usize; FILES];
    let mut cues = [0u32; CUES];
    let mut sheet = season_sheet::sheet::empty(counts);
    for k in 0..count {
        let mut buffer = [0u8; 16_385];
        let file = read_named(host, k, names, lengths, &mut buffer);
        if listing {
            print_line(host, k, names, lengths, file);
        }
        sheet = add_file(
            file.unwrap_or(b""),
            sheet,
            counts,
            &mut firsts,
            &mut reports,
            &mut fired,
            &mut cues,
        );
    }
    sheet
}

fn print_sheet(host: &impl Host, count: usize, names: &[u8], lengths: &[usize; 66], listing: bool)
    requires { (count ≤ 64) × (length names.now ≡ 16_640) }
{
    let mut counts = [0u64; 21];
    let mut text = [0u8; TEXT];
    let sheet = sheet_of(host, count, names, lengths, listing, &mut counts);
    let n = season_sheet::sheet::put_sheet(sheet, &counts, &mut text);
    print_text(host, &text[..n.min(TEXT)]);
}

fn print_no_sheet(host: &impl Host) {
    let mut text = [0u8; 64];
    let n = season_sheet::sheet::put_refusal(&mut text);
    print_text(host, &text[..n.min(64)]);
}

// Prints the sheet of the names that are kept, if no read of them failed.
fn print_season(host: &impl Host, list: Listing, names: &[u8], lengths: &[usize; 66], listing: bool)
    requires { length names.now ≡ 16_640 }
{
    let count = season_sheet::names::count(list.line, lengths);
    if count == 0 {
        print_no_sheet(host);
    } else if list.came == Came::Failed {
        println!(host; "error=cannot read the names");
    } else {
        print_sheet(host, count, names, lengths, listing);
    }
}

// Says so of an argument that holds a line feed: it is no name of a line.
fn refuse_name(host: &impl Host, i: usize) -> bool {
    let mut buffer = [0u8; WORD];
    let word = host.argument(i, &mut buffer);
    let broken = word.contains(&b'\n');
    if broken {
        program_parts::print_wrong(host, "error=a name holds a line feed", word);
    }
    broken
}

// The names that the arguments from `first` on are.
fn from_arguments(host: &impl Host, first: usize, arguments: usize, listing: bool) {
    for i in first..arguments {
        if refuse_name(host, i) {
            return;
        }
    }
    let mut names = [0u8; ROOM];
    let mut lengths = [0usize; 66];
    let list = Listing {
        line: argument_names(host, first, arguments, &mut names, &mut lengths),
        came: Came::End,
    };
    print_season(host, list, &names, &lengths, listing);
}

// The names on standard input.
fn from_input(host: &impl Host, listing: bool) {
    let mut names = [0u8; ROOM];
    let mut lengths = [0usize; 66];
    let list = read_names(host, &mut names, &mut lengths);
    print_season(host, list, &names, &lengths, listing);
}

fn help(host: &impl Host) {
    println!(host; "season [files] [FILE ..]");
    println!(host;
        "prints one sheet for up to 64 scripts: how many are accepted and refused, their ticks and groups"
    );
    println!(host;
        "their names are arguments, or stand on standard input, one a line; a file called files is ./files"
    );
    println!(host; "files: first a line for each name, with its ticks, its refusal or unreadable");
    println!(host; "example: season files examples/rain.eff examples/stuck.eff");
}

// What the arguments ask for: names, or those on standard input if there is none; with `files` before them a line for each.
fn run(host: &impl Host) {
    if program_parts::asks_help(host) {
        help(host);
        return;
    }
    let arguments = host.argument_count();
    let listing = is_argument(host, 1, b"files");
    let first = if listing { 2 } else { 1 };
    if first < arguments {
        from_arguments(host, first, arguments, listing);
    } else {
        from_input(host, listing);
    }
}

fn main(rt: HostRuntime) -> ExitCode {
    let host = System::new(rt);
    run(&host);
    host.status()
}
