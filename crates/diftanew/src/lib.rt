// The calls for C and Rust: numbers and slices only.
#![tactic(auto)]

ghost use Rattle.std.specs.Prelude.{◌≡◌, ◌∷◌, ◌+◌, ◌≤◌, min, length, set, take};
ghost use Rattle.std.proofs.Math.Seq.{paste};
ghost use Rattle.rules.specs.Calls.{ending_number};
ghost use Rattle.loader.specs.Kept.{judgement, ScratchKept};
ghost use Rattle.calls_frames.specs.Answers.{frames_answer};
ghost use Rattle.calls_lists.specs.Parts.{lent_of};
ghost use Rattle.diftanew.specs.Numbers.{Reported-in-numbers, refused_numbers, loop_numbers, numbers_of, Told-in-numbers, frames_numbers};
ghost use Rattle.rules_live.specs.LiveCalls.{start_reply, step_reply};
ghost use Rattle.calls_live.specs.Told.{step_lent};
ghost use Rattle.diftanew.specs.Numbers.{Started-in-numbers, step_numbers, Stepped-in-numbers};
ghost use Rattle.diftanew.specs.Numbers.{Sevens, filled, in_a_row, Figured-in-numbers, Framed-in-numbers};

use calls::Outcome;
use calls::figures::Figures;
use calls_frames::Played;
use calls_live::StepDone;
use rules::{Ending, LoopCount, Refusal};

// The report of a file under four lent prices. Answers 0 for an accepted file, with the report's length in place, or the refusal's number
// with its place.
#[unsafe(no_mangle)]
pub extern "C" fn diftanew_report(
    file: &[u8],
    prices: &[u32],
    scratch: &mut [u32],
    buffer: &mut [u8],
    place: &mut u64,
) -> u32
    ensures answer { Reported-in-numbers prices.now (judgement prices.now scratch.old file.now)
        buffer.old buffer.new result place.new }
    ensures scratch { ScratchKept scratch.old scratch.new }
{
    match loader::report(file, prices, scratch, buffer) {
        Ok(length) => {
            *place = length as u64;
            0
        }
        Err(refusal) => {
            *place = refusal.place as u64;
            refusal.number
        }
    }
}

// The number of an ending.
fn ending_number(ending: Ending) -> u64
    ensures { result ≡ ending_number ending }
{
    match ending {
        Ending::Ended => 0,
        Ending::Spent => 1,
        Ending::Range => 2,
        Ending::NoPick => 3,
    }
}

// A refusal's place, and zeros behind it. Answers its number.
fn refuse<const N: usize>(refusal: Refusal, answer: &mut [u64; N]) -> u32
    requires { 1 ≤ N }
    ensures number { result ≡ refusal.number }
    ensures numbers { answer.new ≡ refused_numbers N refusal.place }
{
    answer.fill(0);
    answer[0] = refusal.place as u64;
    refusal.number
}

// The counts of up to 16 loops, each with its head row, from `first` on. A file has no more loops.
fn put_counts(counts: &[LoopCount; 16], loops: usize, first: usize, numbers: &mut [u64])
    requires { first + 48 ≤ length numbers.old }
    ensures { numbers.new ≡ loop_numbers first (min loops 16) counts.now numbers.old }
{
    for k in 0..loops.min(16) {
        let c = counts[k];
        numbers[first + 3 * k] = c.row as u64;
        numbers[first + 1 + 3 * k] = c.all;
        numbers[first + 2 + 3 * k] = c.most;
    }
}

// A run as numbers. They are put where they are told, and what is large is read where it stands: a copy would take stack while the files
// are read.
fn put_run(o: &Outcome, answer: &mut [u64; 53])
    ensures { answer.new ≡ numbers_of o.now }
{
    *answer = [0; 53];
    answer[0] = ending_number(o.ending);
    answer[1] = o.row as u64;
    answer[2] = o.ticks;
    answer[3] = o.used as u64;
    answer[4] = o.loops as u64;
    put_counts(&o.counts, o.loops, 5, &mut answer[..]);
}

// The run of a file under four lent prices. Answers 0, with the answer's numbers as the header lays them out, or the refusal's number, with
// its place first.
#[unsafe(no_mangle)]
pub extern "C" fn diftanew_run(
    file: &[u8],
    prices: &[u32],
    scratch: &mut [u32],
    store: &mut [i32],
    picks: &[u8],
    allowance: u64,
    answer: &mut [u64; 53],
) -> u32
    ensures answer { Told-in-numbers prices.now (judgement prices.now scratch.old file.now)
        store.old store.new picks.now allowance result answer.new }
    ensures scratch { ScratchKept scratch.old scratch.new }
{
    match &loader::run(file, prices, scratch, store, picks, allowance) {
        Ok(outcome) => {
            put_run(outcome, answer);
            0
        }
        Err(refusal) => refuse(*refusal, answer),
    }
}

// A loop's seven numbers, from `at` on.
fn put_line(told: [u64; 7], at: usize, answer: &mut [u64; 115])
    requires { (at + 7 ≤ 115) × (length answer.old ≡ 115) }
    ensures { answer.new ≡ paste answer.old at told 7 }
{
    answer[at..at + 7].copy_from_slice(&told);
}

// What a report says as numbers, its loops' one after the other.
#[inline(never)]
fn figures_numbers(f: Figures, lines: [[u64; 7]; 16]) -> [u64; 115]
    requires { (f.loops ≤ 16) × Sevens f.loops lines }
    ensures { result ≡ filled 115 (f.ticks ∷ f.vars ∷ f.loops ∷ in_a_row (take f.loops lines)) }
{
    let loops = f.loops;
    let mut a = [0u64; 115];
    a[0] = f.ticks;
    a[1] = f.vars as u64;
    a[2] = loops as u64;
    for k in 0..loops {
        let told = lines[k];
        put_line(told, 3 + 7 * k, &mut a);
    }
    a
}

// What the report of a file under four lent prices says, as numbers. Answers 0, with the numbers as the header lays them out, or the
// refusal's number, with its place first.
#[unsafe(no_mangle)]
pub extern "C" fn diftanew_figures(
    file: &[u8],
    prices: &[u32],
    scratch: &mut [u32],
    answer: &mut [u64; 115],
) -> u32
    ensures answer { Figured-in-numbers prices.now (judgement prices.now scratch.old file.now) result answer.new }
    ensures scratch { ScratchKept scratch.old scratch.new }
{
    let mut lines = [[0u64; 7]; 16];
    match loader::figures(file, prices, scratch, &mut lines) {
        Ok(figures) => {
            *answer = figures_numbers(figures, lines);
            0
        }
        Err(refusal) => refuse(refusal, answer),
    }
}

// One script's 54 numbers, from `at` on: its frame, then the numbers of a run's answer.
fn put_script(p: &Played, at: usize, answer: &mut [u64; 433])
    requires { (at + 54 ≤ 433) × (length answer.old ≡ 433) }
    ensures { answer.new ≡ paste (set answer.old at p.now.frame) (at + 1) (numbers_of p.now.outcome) 53 }
{
    let mut run = [0u64; 53];
    put_run(&p.outcome, &mut run);
    answer[at] = p.frame;
    answer[at + 1..at + 54].copy_from_slice(&run);
}

// A call of frames as numbers.
#[inline(never)]
fn put_frames(most: u64, scripts: &[Played; 8], answer: &mut [u64; 433])
    ensures { answer.new ≡ frames_numbers (frames_answer (Ok (record { most = most; scripts = scripts.now }))) }
{
    *answer = [0; 433];
    answer[0] = most;
    for k in 0..8 {
        put_script(&scripts[k], 1 + 54 * k, answer);
    }
}

// The frames of up to 8 scripts under four lent prices. Answers 0, with the answer's numbers as the header lays them out, or the refusal's
// number, with its place first and then the script that it is of, from 1, or 0.
#[unsafe(no_mangle)]
pub extern "C" fn diftanew_frames(
    files: &[u8],
    file_lengths: &[usize],
    stores: &mut [i32],
    store_lengths: &[usize],
    picks: &[u8],
    pick_lengths: &[usize],
    prices: &[u32],
    q: u64,
    scratch: &mut [u32],
    answer: &mut [u64; 433],
) -> u32
    ensures answer { Framed-in-numbers prices.now (length scratch.old)
        (lent_of files.now file_lengths.now stores.old store_lengths.now
        picks.now pick_lengths.now)
        q stores.new result answer.new }
    ensures scratch { scratch.new ≡ scratch.old }
{
    match &loader::frames(
        files,
        file_lengths,
        stores,
        store_lengths,
        picks,
        pick_lengths,
        prices,
        q,
        scratch,
    ) {
        Ok(frames) => {
            put_frames(frames.most, &frames.scripts, answer);
            0
        }
        Err(refused) => {
            let number = refuse(refused.refusal, answer);
            answer[1] = refused.script as u64;
            number
        }
    }
}

// The start of a live run under four lent prices. Answers 0, with the report's ticks and the number of loops, or the refusal's number,
// with its place first.
#[unsafe(no_mangle)]
pub extern "C" fn diftanew_start(
    file: &[u8],
    prices: &[u32],
    scratch: &mut [u32],
    store: &[i32],
    state: &mut [u64],
    answer: &mut [u64; 2],
) -> u32
    ensures answer { Started-in-numbers
        (start_reply prices.now (judgement prices.now scratch.old file.now)
        store.now state.old)
        state.old state.new result answer.new }
    ensures scratch { ScratchKept scratch.old scratch.new }
{
    match loader::start(file, prices, scratch, store, state) {
        Ok(started) => {
            *answer = [started.ticks, started.loops as u64];
            0
        }
        Err(refusal) => refuse(refusal, answer),
    }
}

// A step's answer as numbers.
fn step_numbers(s: StepDone) -> [u64; 56]
    ensures { result ≡ step_numbers s }
{
    let counts = s.counts;
    let mut a = [0u64; 56];
    a[0] = s.status;
    a[1] = s.row as u64;
    a[2] = s.ticks;
    a[3] = s.all_ticks;
    a[4] = s.used as u64;
    a[5] = s.all_used;
    a[6] = s.cues as u64;
    a[7] = s.loops as u64;
    put_counts(&counts, s.loops, 8, &mut a[..]);
    a
}

// One frame of one script. Answers 0, with the answer's numbers as the header lays them out, or the refusal's number, with its place first.
#[unsafe(no_mangle)]
pub extern "C" fn diftanew_step(
    file: &[u8],
    prices: &[u32],
    scratch: &mut [u32],
    store: &mut [i32],
    state: &mut [u64],
    q: u64,
    picks: &[u8],
    cues: &mut [u32],
    answer: &mut [u64; 56],
) -> u32
    ensures answer { Stepped-in-numbers
        (step_reply prices.now (judgement prices.now scratch.old file.now)
        store.old state.old (step_lent q picks.now (length cues.old)))
        store.old store.new state.old state.new cues.old cues.new
        result answer.new }
    ensures scratch { ScratchKept scratch.old scratch.new }
{
    match loader::step(file, prices, scratch, store, state, q, picks, cues) {
        Ok(done) => {
            *answer = step_numbers(done);
            0
        }
        Err(refusal) => refuse(refusal, answer),
    }
}
