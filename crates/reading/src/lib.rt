// The words of a line: found in the text, and asked in order, expressions too.
#![tactic(auto)]

pub mod order;
pub mod questions;
pub mod text;
pub mod words;
