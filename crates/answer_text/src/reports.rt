// What document 01's program prints of a script file, written into a lent buffer: its report, or its refusal as `refused=NUMBER PLACE`.
ghost use Rattle.std.specs.Prelude.{◌≡◌, ◌≤◌, length};
ghost use Rattle.rules_season.specs.Season.{refusal_text};
ghost use Rattle.report.specs.Pieces.{Wrote};
ghost use Rattle.answer_text.specs.Printed.{PrintedIn, printed};

use loader::{REPORT, SCRATCH};
use rules::Refusal;

// How many bytes hold every report and every refusal.
pub const TEXT: usize = REPORT;

// Writes a refusal.
pub fn put_refusal(refusal: Refusal, out: &mut [u8]) -> usize
    requires { 50 ≤ length out.old }
    ensures { Wrote (refusal_text refusal.number refusal.place) out.old out.new result }
{
    let at = report::pieces::put_number(b"refused=", refusal.number as u64, out);
    at + report::pieces::put_entry(b" ", refusal.place as u64, &mut out[at..])
}

// Writes the report of a file under prices, or its refusal.
pub fn put_report(file: &[u8], prices: &[u32], out: &mut [u8]) -> usize
    requires { length out.old ≡ 2_089 }
    ensures { PrintedIn (printed prices.now file.now) out.old out.new result }
{
    let mut scratch = [0u32; SCRATCH];
    match loader::report(file, prices, &mut scratch, out) {
        Ok(length) => length,
        Err(refusal) => put_refusal(refusal, out),
    }
}
