// print_report [FILE]: prints the report of a script file, or of the one on standard input, or `refused=NUMBER PLACE`.
#![tactic(auto)]

use host::{Host, System};
use program_parts::WORD;
use std::process::ExitCode;

fn help(host: &impl Host) {
    println!(host; "print_report [FILE]");
    println!(host;
        "prints the report of a script, FILE or standard input, or its refusal, `refused=NUMBER PLACE`"
    );
    println!(host; "example: print_report examples/listing.eff");
}

// The file that argument 1 names.
fn report_named(host: &impl Host) {
    let mut buffer = [0u8; WORD];
    program_parts::report_file(host, host.argument(1, &mut buffer));
}

// Says that there is an argument too many.
fn refuse_more(host: &impl Host) {
    let mut buffer = [0u8; WORD];
    program_parts::print_wrong(
        host,
        "error=print_report takes one FILE, not also",
        host.argument(2, &mut buffer),
    );
}

// What the arguments ask for.
fn run(host: &impl Host) {
    if program_parts::asks_help(host) {
        help(host);
        return;
    }
    match host.argument_count() {
        0 | 1 => program_parts::report_input(host),
        2 => report_named(host),
        _ => refuse_more(host),
    }
}

fn main(rt: HostRuntime) -> ExitCode {
    let host = System::new(rt);
    run(&host);
    host.status()
}
