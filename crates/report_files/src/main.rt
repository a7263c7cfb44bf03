// Reads names of script files from standard input, one a line, and prints for each its name and its report or refusal.
#![tactic(auto)]

use host::System;
use program_parts::{answer_input, report_file};
use std::process::ExitCode;

fn main(rt: HostRuntime) -> ExitCode {
    let host = System::new(rt);
    answer_input(&host, |host, name| report_file(host, name));
    host.status()
}
