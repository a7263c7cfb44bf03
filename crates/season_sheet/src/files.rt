// A season's files, one after the other: each is read, judged under four ones and counted on the sheet.
ghost use Rattle.std.specs.Prelude.{List, [], ◌∷◌, ◌++◌, ◌≤◌, length};
ghost use Rattle.rules.specs.Calls.{Judged, four_ones, judged};
ghost use Rattle.season_sheet.specs.Holds.{FoundAs, SeasonSoFar, SheetWithRoom};

use crate::cues::put_cues;
use crate::groups::{Kept, keep_first};
use crate::sheet::{Sheet, with_accepted, with_refused};
use calls::measure_script;
use reader::load;
use rules::Refusal;

// How many files a season has at most, the bytes of that many longest reports, and the cues of that many files of 256 rows.
pub const FILES: usize = 64;

pub const REPORTS: usize = 133_696;

pub const CUES: usize = 16_384;

// What is found of a file: the answer of a report call, the ticks, and how many cues it has.
#[derive(Clone, Copy)]
pub struct FileFigures {
    pub reply: Result<usize, Refusal>,
    pub ticks: u64,
    pub cues: usize,
}

// The report of a file under four ones and its cue numbers, each at the front of what is lent, and its ticks.
pub fn measure(file: &[u8], rest: &mut [u8], cues: &mut [u32]) -> FileFigures
    requires { 256 ≤ length cues.old }
    ensures { FoundAs (judged four_ones 1_024 file.now) rest.old rest.new cues.old cues.new result }
{
    let mut ranges = [[0i32; 2]; 16];
    let mut table = [0u32; 1024];
    match load(file, &mut ranges, &mut table) {
        Ok(script) => {
            let fired = put_cues(&table, script.count, cues);
            let measured = measure_script(file, &table, script, ranges, &[1; 4], rest);
            FileFigures {
                reply: measured.reply,
                ticks: measured.ticks,
                cues: fired,
            }
        }
        Err(refusal) => FileFigures {
            reply: Err(refusal),
            ticks: 0,
            cues: 0,
        },
    }
}

// A file more on the sheet: `counts` by refusal number, and of the groups' first files the reports with their lengths and the cue numbers
// with how many they are.
// The file's report and cue numbers are written behind them.
pub fn add_file(
    file: &[u8],
    sheet: Sheet,
    counts: &mut [u64; 21],
    lengths: &mut [usize],
    reports: &mut [u8],
    fired: &mut [usize],
    cues: &mut [u32],
) -> Sheet
    requires { SheetWithRoom sheet counts.old lengths.old reports.old fired.old cues.old }
    ensures { ((js : List Judged) → SeasonSoFar js sheet counts.old lengths.old reports.old
        fired.old cues.old → SeasonSoFar (js ++ (judged four_ones 1_024 file.now ∷ [])) result
        counts.new lengths.new reports.new fired.new cues.new) }
{
    let used = sheet.used;
    let cued = sheet.cued;
    let kept = Kept {
        groups: sheet.groups,
        used,
        cued,
    };
    let found = measure(file, &mut reports[used..], &mut cues[cued..]);
    match found.reply {
        Ok(len) => {
            let count = found.cues;
            let fresh = keep_first(kept, len, count, lengths, &reports[..], fired, &cues[..]);
            with_accepted(sheet, found.ticks, len, count, fresh)
        }
        Err(refusal) => with_refused(sheet, refusal.number, counts),
    }
}
