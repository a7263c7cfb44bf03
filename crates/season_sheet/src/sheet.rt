// The season's sheet as numbers: one file more, and its text.
ghost use Rattle.std.specs.Prelude.{◌≡◌, cond, [], ◌++◌, ℕ, ◌+◌, ◌≤◌, ◌<◌, length, get_or};
ghost use Rattle.rules.specs.Report.{decimal, key_line};
ghost use Rattle.rules_season.specs.Season.{refusal_text};
ghost use Rattle.report.specs.Pieces.{Wrote};
ghost use Rattle.season_sheet.specs.Figures.{SheetIs, Accepting, CounterRaised, Refusing, front_text, met_text, numbers_text};
ghost use Rattle.season_sheet.specs.Figures.{tail_text, SheetWritten};

// The figures, but for the refusals by number, which stand in an array of 21; and how many bytes the reports and how many numbers the cues
// of the groups' first files take.
#[derive(Clone, Copy)]
pub struct Sheet {
    pub accepted: u64,
    pub refused: u64,
    pub ticks: u64,
    pub greatest: u64,
    pub groups: usize,
    pub used: usize,
    pub cued: usize,
}

// The sheet of no file.
pub fn empty(counts: &mut [u64; 21]) -> Sheet
    ensures { SheetIs [] result counts.new × (result.groups ≡ 0) × (result.used ≡ 0) × (result.cued ≡ 0)
        × (length counts.new ≡ 21) }
{
    *counts = [0; 21];
    Sheet {
        accepted: 0,
        refused: 0,
        ticks: 0,
        greatest: 0,
        groups: 0,
        used: 0,
        cued: 0,
    }
}

// n, if the file is the first of a new group.
fn if_fresh(fresh: bool, n: usize) -> usize
    ensures { (result ≡ cond fresh n 0) × (result ≤ n) }
{
    if fresh {
        return n;
    }
    0
}

// An accepted file more: its ticks, its report's length, how many cues it has, and whether it is in a new group.
pub fn with_accepted(sheet: Sheet, ticks: u64, len: usize, count: usize, fresh: bool) -> Sheet
    requires { (sheet.accepted < 64) × (sheet.ticks ≤ 64_000_000_000_000) × (ticks ≤ 1_000_000_000_000) × (sheet.groups < 64)
        × (sheet.used + len ≤ 133_696) × (sheet.cued + count ≤ 16_384) }
    ensures { Accepting sheet ticks len count fresh result }
{
    let most = sheet.greatest.max(ticks);
    let one = if_fresh(fresh, 1);
    let bytes = if_fresh(fresh, len);
    let numbers = if_fresh(fresh, count);
    Sheet {
        accepted: sheet.accepted + 1,
        refused: sheet.refused,
        ticks: sheet.ticks + ticks,
        greatest: most,
        groups: sheet.groups + one,
        used: sheet.used + bytes,
        cued: sheet.cued + numbers,
    }
}

// Counts a refusal under its number.
fn count_refusal(number: u32, counts: &mut [u64; 21])
    requires { (length counts.old ≡ 21) × ((q : ℕ) → q < 21 → get_or counts.old q 0 < 64) }
    ensures { CounterRaised number counts.old counts.new }
{
    let q = number as usize;
    if q < 21 {
        counts[q] = counts[q] + 1;
    }
}

// A refused file more, by its number.
pub fn with_refused(sheet: Sheet, number: u32, counts: &mut [u64; 21]) -> Sheet
    requires { (sheet.refused < 64) × (length counts.old ≡ 21) × ((q : ℕ) → q < 21 → get_or counts.old q 0 < 64) }
    ensures { Refusing sheet number counts.old counts.new result }
{
    count_refusal(number, counts);
    Sheet {
        accepted: sheet.accepted,
        refused: sheet.refused + 1,
        ticks: sheet.ticks,
        greatest: sheet.greatest,
        groups: sheet.groups,
        used: sheet.used,
        cued: sheet.cued,
    }
}

// Writes a key and a number, and then a line of another key and number.
fn put_pair(first: &[u8], x: u64, second: &[u8], y: u64, out: &mut [u8]) -> usize
    requires { length ((first.now ++ decimal x) ++ key_line second.now y) ≤ length out.old }
    ensures { Wrote ((first.now ++ decimal x) ++ key_line second.now y) out.old out.new result }
{
    let at = report::pieces::put_number(first, x, out);
    at + report::pieces::put_entry(second, y, &mut out[at..])
}

// Writes the line of a refusal number that was met n times; nothing if it was not met.
fn put_met(number: usize, n: u64, out: &mut [u8]) -> usize
    requires { 50 ≤ length out.old }
    ensures { Wrote (met_text number n) out.old out.new result }
{
    if n == 0 {
        return 0;
    }
    put_pair(b"refused-", number as u64, b"=", n, out)
}

// Writes the lines of the refusal numbers, in rising order.
fn put_numbers(counts: &[u64; 21], out: &mut [u8]) -> usize
    requires { 1_000 ≤ length out.old }
    ensures { Wrote (numbers_text (λ q. get_or counts.now q 0)) out.old out.new result × (result ≤ 1_000) }
{
    let mut at: usize = 0;
    for q in 1..21 {
        at += put_met(q, counts[q], &mut out[at..]);
    }
    at
}

// Writes the lines before the refusal numbers.
fn put_front(sheet: Sheet, out: &mut [u8]) -> usize
    requires { 59 ≤ length out.old }
    ensures { Wrote (front_text sheet.accepted sheet.refused) out.old out.new result × (result ≤ 59) }
{
    let at = report::pieces::put_entry(b"accepted=", sheet.accepted, out);
    at + report::pieces::put_entry(b"refused=", sheet.refused, &mut out[at..])
}

// Writes the lines after them.
fn put_tail(sheet: Sheet, out: &mut [u8]) -> usize
    requires { 85 ≤ length out.old }
    ensures { Wrote (tail_text sheet.ticks sheet.greatest sheet.groups) out.old out.new result × (result ≤ 85) }
{
    let a = report::pieces::put_entry(b"ticks=", sheet.ticks, out);
    let b = a + report::pieces::put_entry(b"greatest=", sheet.greatest, &mut out[a..]);
    b + report::pieces::put_entry(b"groups=", sheet.groups as u64, &mut out[b..])
}

// How many bytes the sheet's text has at most.
pub const TEXT: usize = 1_144;

// Writes the sheet.
pub fn put_sheet(sheet: Sheet, counts: &[u64; 21], out: &mut [u8]) -> usize
    requires { 1_144 ≤ length out.old }
    ensures { SheetWritten sheet counts.now out.old out.new result }
{
    let a = put_front(sheet, out);
    let b = a + put_numbers(counts, &mut out[a..]);
    b + put_tail(sheet, &mut out[b..])
}

// Writes what is printed alone for no name or more than 64: `refused=18 0`.
pub fn put_refusal(out: &mut [u8]) -> usize
    requires { 50 ≤ length out.old }
    ensures { Wrote (refusal_text 18 0) out.old out.new result }
{
    put_pair(b"refused=", 18, b" ", 0, out)
}
