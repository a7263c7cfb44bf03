// The season: names, cues, groups, and the sheet of many files.
#![tactic(auto)]

pub mod cues;
pub mod files;
pub mod groups;
pub mod names;
pub mod sheet;
