// rehearse [prices=A,C,P,T] [cues] FILE ALLOWANCE PICKS [VALUE ..]: runs a script file and prints how the run ended, its ticks, the picks
// it used, its store and the turns of its loops; with `cues` before it a line for each cue. The prices are four ones if they are not given.
// ALLOWANCE is a number or `plan`, PICKS a word of 0 and 1, `-`, `picks=random:SEED` or `picks=ask`, and the values are the store.
#![tactic(auto)]

ghost use Rattle.std.specs.Prelude.{◌≤◌};

use host::{Host, System};
use program_parts::{Rehearsal, Store, WORD, is_argument};
use std::process::ExitCode;

fn usage(host: &impl Host) {
    println!(host; "rehearse [prices=A,C,P,T] [cues] FILE ALLOWANCE PICKS [VALUE ..]");
}

fn help(host: &impl Host) {
    usage(host);
    println!(host;
        "runs a script and prints how it ended, its ticks, the picks it used, its store and the turns of its loops"
    );
    println!(host;
        "ALLOWANCE: ticks, or plan for those of the script's report; PICKS: a word of 0 and 1, or - for none,"
    );
    println!(host;
        "picks=random:SEED to draw them, picks=ask to be asked for each; cues: a line cue=N ROW TICK for each cue"
    );
    println!(host;
        "VALUE ..: the store, v0 first; prices of arithmetic, cue, pick and test are 1 if they are not given"
    );
    println!(host; "example: rehearse examples/listing.eff plan - 0 1");
}

// Runs the file that argument `file` names under prices, by the allowance and the picks after it, from a store.
fn rehearse(host: &impl Host, file: usize, prices: &[u32], store: Store, cues: bool)
    requires { file ≤ 3 }
{
    let mut path = [0u8; WORD];
    let mut allowance = [0u8; WORD];
    let mut picks = [0u8; WORD];
    let run = Rehearsal {
        path: host.argument(file, &mut path),
        prices,
        allowance: host.argument(file + 1, &mut allowance),
        picks: host.argument(file + 2, &mut picks),
        store,
        cues,
    };
    program_parts::rehearse_file(host, run);
}

// The same with the values, if there are enough arguments.
fn start(host: &impl Host, file: usize, arguments: usize, prices: &[u32], cues: bool)
    requires { file ≤ 3 }
{
    if arguments < file + 3 {
        print!(host; "error=usage: ");
        usage(host);
        return;
    }
    if let Some(store) = program_parts::read_arguments(host, file + 3, arguments) {
        rehearse(host, file, prices, store, cues);
    }
}

// What the arguments ask for.
fn run(host: &impl Host) {
    if program_parts::asks_help(host) {
        help(host);
        return;
    }
    let arguments = host.argument_count();
    let mut prices = [1u32; 5];
    let Some(read) = program_parts::read_prices(host, &mut prices) else {
        return;
    };
    let cues = is_argument(host, read.next, b"cues");
    let file = if cues { read.next + 1 } else { read.next };
    start(host, file, arguments, read.prices, cues);
}

fn main(rt: HostRuntime) -> ExitCode {
    let host = System::new(rt);
    run(&host);
    host.status()
}
