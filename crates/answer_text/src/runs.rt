// What a program prints of a run's answer, written into a lent buffer: how it ended, its ticks, the picks it used, its store and the
// turns of its loops; or its refusal. The same of a live run: a step, a cue, and the answer so far.

ghost use Rattle.std.specs.Prelude.{◌≡◌, ◌++◌, ◌+◌, ◌*◌, ◌≤◌, length, take, IfOk};
ghost use Rattle.rules.specs.Report.{decimal, newline};
ghost use Rattle.rules.specs.Calls.{scratch_size, judged, run_reply};
ghost use Rattle.report.specs.Pieces.{Wrote};
ghost use Rattle.answer_text.specs.Texts.{ending_key, value_text, values_text, three_text, count_text, count_texts, front_text, run_text};
ghost use Rattle.answer_text.specs.Texts.{outcome_text, reply_text};
ghost use Rattle.answer_text.specs.Adding.{Adds};

use calls::Outcome;
use loader::SCRATCH;
use rules::{Ending, LoopCount, Refusal};

// How many bytes hold every answer of a run whose store has at most 17 numbers.
pub const TEXT: usize = 2_048;

// Writes a key and a number behind what is written.
pub fn add_number(key: &[u8], n: u64, at: usize, out: &mut [u8]) -> usize
    requires { at + (length key.now + 20) ≤ length out.old }
    ensures { Adds (key.now ++ decimal n) at out.old out.new result × (result ≤ at + (length key.now + 20)) }
{
    at + report::pieces::put_number(key, n, &mut out[at..])
}

// Ends a line.
pub fn end_line(at: usize, out: &mut [u8]) -> usize
    requires { at + 1 ≤ length out.old }
    ensures { Adds newline at out.old out.new result }
{
    out[at] = b'\n';
    at + 1
}

// Writes a value, with a space before it if it is not the first.
fn add_value(first: bool, v: i32, at: usize, out: &mut [u8]) -> usize
    requires { at + 22 ≤ length out.old }
    ensures { Adds (value_text first v) at out.old out.new result × (result ≤ at + 22) }
{
    let n = report::size(v as i64);
    if first {
        if v < 0 {
            return add_number(b"-", n, at, out);
        }
        return add_number(b"", n, at, out);
    }
    if v < 0 {
        return add_number(b" -", n, at, out);
    }
    add_number(b" ", n, at, out)
}

// Writes the values of a store, one space between two.
fn add_values(store: &[i32], at: usize, out: &mut [u8]) -> usize
    requires { (length store.now ≤ 17) × (at + 374 ≤ length out.old) }
    ensures { Adds (values_text store.now) at out.old out.new result × (result ≤ at + 374) }
{
    let mut end = at;
    for (i, value) in store.iter().enumerate() {
        end = add_value(i == 0, *value, end, out);
    }
    end
}

// Writes a line of three numbers under a key.
pub fn add_three(key: &[u8], x: u64, y: u64, z: u64, at: usize, out: &mut [u8]) -> usize
    requires { at + (length key.now + 63) ≤ length out.old }
    ensures { Adds (three_text key.now x y z) at out.old out.new result × (result ≤ at + (length key.now + 63)) }
{
    let a = add_number(key, x, at, out);
    let b = add_number(b" ", y, a, out);
    let c = add_number(b" ", z, b, out);
    end_line(c, out)
}

// Writes the line of a loop's counts.
fn add_count(count: LoopCount, at: usize, out: &mut [u8]) -> usize
    requires { at + 68 ≤ length out.old }
    ensures { Adds (count_text count) at out.old out.new result × (result ≤ at + 68) }
{
    add_three(b"loop=", count.row as u64, count.all, count.most, at, out)
}

// Writes the lines of the first `loops` counts.
fn add_counts(counts: [LoopCount; 16], loops: usize, at: usize, out: &mut [u8]) -> usize
    requires { (loops ≤ 16) × (at + 1_088 ≤ length out.old) }
    ensures { Adds (count_texts (take loops counts)) at out.old out.new result × (result ≤ at + 1_088) }
{
    let mut end = at;
    for i in 0..loops {
        end = add_count(counts[i], end, out);
    }
    end
}

// Writes how a run ended, and at which row.
fn add_ending(ending: Ending, row: usize, out: &mut [u8]) -> usize
    requires { 35 ≤ length out.old }
    ensures { Adds (ending_key ending ++ decimal row) 0 out.old out.new result × (result ≤ 35) }
{
    let n = row as u64;
    match ending {
        Ending::Ended => add_number(b"ending=ended ", n, 0, out),
        Ending::Spent => add_number(b"ending=spent ", n, 0, out),
        Ending::Range => add_number(b"ending=range ", n, 0, out),
        Ending::NoPick => add_number(b"ending=no-pick ", n, 0, out),
    }
}

// Writes a text behind what is written.
pub fn add_text(text: &[u8], at: usize, out: &mut [u8]) -> usize
    requires { at + length text.now ≤ length out.old }
    ensures { Adds text.now at out.old out.new result }
{
    at + byte_slices::copy(text, &mut out[at..])
}

// Writes what comes before the values.
fn add_front(ending: Ending, row: usize, ticks: u64, used: usize, out: &mut [u8]) -> usize
    requires { 100 ≤ length out.old }
    ensures { Adds (front_text ending row ticks used) 0 out.old out.new result × (result ≤ 100) }
{
    let a = add_ending(ending, row, out);
    let b = add_number(b"\nticks=", ticks, a, out);
    let c = add_number(b"\nused=", used as u64, b, out);
    add_text(b"\nstore=", c, out)
}

// Writes the answer of a run that was not refused.
fn put_run(o: Outcome, store: &[i32], out: &mut [u8]) -> usize
    requires { (o.loops ≤ 16) × (length store.now ≤ 17) × (length out.old ≡ 2_048) }
    ensures { Wrote (run_text o.ending o.row o.ticks o.used store.now (take o.loops o.counts))
        out.old out.new result × (result ≤ 2_048) }
{
    let a = add_front(o.ending, o.row, o.ticks, o.used, out);
    let b = add_values(store, a, out);
    let c = end_line(b, out);
    add_counts(o.counts, o.loops, c, out)
}

// Writes what a run call answers, the store as the call left it: the run, or its refusal.
pub fn put_outcome(answer: Result<Outcome, Refusal>, store: &[i32], out: &mut [u8]) -> usize
    requires { IfOk answer (λ o. o.loops ≤ 16) × (length store.now ≤ 17) × (length out.old ≡ 2_048) }
    ensures { Wrote (outcome_text answer store.now) out.old out.new result × (result ≤ 2_048) }
{
    match answer {
        Ok(o) => put_run(o, store, out),
        Err(refusal) => crate::reports::put_refusal(refusal, out),
    }
}

// Runs a file under prices and writes what the call answers; the store is overwritten as by the call.
pub fn put_answer(
    file: &[u8],
    prices: &[u32],
    store: &mut [i32],
    picks: &[u8],
    allowance: u64,
    out: &mut [u8],
) -> usize
    requires { (length store.old ≤ 17) × (length out.old ≡ 2_048) }
    ensures { Wrote (reply_text (run_reply prices.now (judged prices.now scratch_size file.now)
        store.old picks.now allowance) store.old)
        out.old out.new result × (result ≤ 2_048) }
{
    let mut scratch = [0u32; SCRATCH];
    let answer = loader::run(file, prices, &mut scratch, store, picks, allowance);
    put_outcome(answer, store, out)
}
