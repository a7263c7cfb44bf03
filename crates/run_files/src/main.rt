// Reads runs from standard input, one a line, `[prices=A,C,P,T] NAME ALLOWANCE PICKS VALUE ..`, and prints for each its line and what
// `rehearse` prints.
#![tactic(auto)]

use host::System;
use program_parts::{answer_input, run_line};
use std::process::ExitCode;

fn main(rt: HostRuntime) -> ExitCode {
    let host = System::new(rt);
    answer_input(&host, |host, line| run_line(host, line));
    host.status()
}
