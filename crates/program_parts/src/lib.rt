// What the programs share: files by name, lists of lines, arguments, and what is printed.
#![tactic(auto)]

mod arguments;
mod asks;
mod cues;
mod found;
mod input;
mod lines;
mod print;
mod script;
mod steps;
mod store;
mod wrong;

pub use arguments::{PricesRead, WORD, asks_help, is_argument, read_arguments, read_prices};
pub use cues::{BEFORE_CUES, CuePlace, next_cue};
pub use input::{Line, read_all, read_file, read_line};
pub use lines::{answer_input, run_line};
pub use print::{print_outcome, print_refusal, print_text};
pub use script::{Rehearsal, rehearse_file, report_file, report_input};
pub use steps::{Terms, started};
pub use store::{STORE, Store};
pub use wrong::{
    Expected, print_unexpected, print_unread, print_wrong, print_wrong_listed, print_wrong_price,
};
