// verify [prices=A,C,P,T] FILE REPORT: finds the report of a script file, and prints `same` if the file REPORT holds just that; else the
// first line that differs, as it is found here, or the refusal.
#![tactic(auto)]

ghost use Rattle.std.specs.Prelude.{◌≡◌, ◌≤◌, length};

use answer_text::reports::{TEXT, put_report};
use host::{Host, System};
use program_parts::{WORD, print_text, print_unread, read_file};
use std::process::ExitCode;

fn form(host: &impl Host) {
    println!(host; "verify [prices=A,C,P,T] FILE REPORT");
}

fn help(host: &impl Host) {
    form(host);
    println!(host;
        "prints same, if REPORT is the report of the script FILE as print_report prints it"
    );
    println!(host;
        "else differs=LINE and that line as it is found here, or the refusal; the prices are 1 if they are not given"
    );
    println!(host; "example: verify examples/rain.eff archive/rain.report");
}

// A line of a text: its number, from 1, and where it starts.
#[derive(Clone, Copy)]
struct Line {
    number: usize,
    start: usize,
}

// The line in which two texts differ first, or in which the shorter one ends.
fn differ(here: &[u8], there: &[u8]) -> Line
    requires { length here.now ≤ 2_089 }
    ensures { result.start ≤ length here.now }
{
    let mut line = Line {
        number: 1,
        start: 0,
    };
    for at in 0..here.len().min(there.len()) {
        if here[at] != there[at] {
            break;
        }
        if here[at] == b'\n' {
            line = Line {
                number: line.number + 1,
                start: at + 1,
            };
        }
    }
    line
}

// Prints a line of a text, with its number.
fn print_line(host: &impl Host, line: Line, text: &[u8])
    requires { line.start ≤ length text.now }
{
    let number = line.number;
    let rest = &text[line.start..];
    if rest.is_empty() {
        println!(host; "differs={number} nothing");
        return;
    }
    print!(host; "differs={number} ");
    print_text(host, rest.split(|b| *b == b'\n').next().unwrap_or(rest));
    println!(host; "");
}

// Compares what is found here with what is kept there.
fn compare(host: &impl Host, here: &[u8], there: &[u8])
    requires { length here.now ≤ 2_089 }
{
    if here == there {
        println!(host; "same");
    } else if here.starts_with(b"refused=") {
        print_text(host, here);
    } else {
        print_line(host, differ(here, there), here);
    }
}

// The report of a file, beside another.
fn verify_report(host: &impl Host, file: &[u8], prices: &[u32], there: &[u8]) {
    let mut text = [0u8; TEXT];
    let n = put_report(file, prices, &mut text);
    compare(host, &text[..n], there);
}

// The file that argument i names, beside the report that the next one names. One byte more than a report can have is enough to tell it.
fn verify_named(host: &impl Host, i: usize, prices: &[u32])
    requires { i ≤ 2 }
{
    let mut name = [0u8; WORD];
    let script = host.argument(i, &mut name);
    let mut buffer = [0u8; 16_385];
    let Some(file) = read_file(host, script, &mut buffer) else {
        print_unread(host, script);
        return;
    };
    let mut other = [0u8; WORD];
    let report = host.argument(i + 1, &mut other);
    let mut room = [0u8; 2_090];
    match read_file(host, report, &mut room) {
        Some(kept) => verify_report(host, file, prices, kept),
        None => print_unread(host, report),
    }
}

// What the arguments ask for: just two names, after the prices.
fn run(host: &impl Host) {
    if program_parts::asks_help(host) {
        help(host);
        return;
    }
    let arguments = host.argument_count();
    let mut prices = [1u32; 5];
    let Some(read) = program_parts::read_prices(host, &mut prices) else {
        return;
    };
    if arguments == read.next + 2 {
        verify_named(host, read.next, read.prices);
    } else {
        print!(host; "error=usage: ");
        form(host);
    }
}

fn main(rt: HostRuntime) -> ExitCode {
    let host = System::new(rt);
    run(&host);
    host.status()
}
