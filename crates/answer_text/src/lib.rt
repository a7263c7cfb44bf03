// What is printed of a script file: its report, its run.
#![tactic(auto)]

pub mod reports;
pub mod runs;
pub mod steps;
