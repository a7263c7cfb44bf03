// The public calls: the report of a script file, its figures, its run, and the frames of several scripts. They take all inputs, always end,
// and refuse by number and place.
#![tactic(auto)]

ghost use Rattle.std.specs.Prelude.{◌≡◌, length};
ghost use Rattle.rules.specs.Verdicts.{verdict_of};
ghost use Rattle.rules.specs.Replies.{reply_by};
ghost use Rattle.calls_frames.specs.Answers.{frames_answer};
ghost use Rattle.rules.specs.File.{file_script};
ghost use Rattle.rules.specs.Report.{longest_report};
ghost use Rattle.rules.specs.Calls.{prices_of, Priced, judged_file, run_reply};
ghost use Rattle.rules_live.specs.LiveCalls.{start_reply, step_reply};
ghost use Rattle.calls.specs.Told.{RanAs};
ghost use Rattle.calls_live.specs.Told.{step_lent, StartedAs, SteppedAs};
ghost use Rattle.calls.specs.Figures.{FiguresAs};
ghost use Rattle.calls_lists.specs.Parts.{lent_of};
ghost use Rattle.loader.specs.Kept.{lent_verdict, judgement, Reported, KeptCall, ScratchKept};
ghost use Rattle.loader.specs.Framing.{FramedCall};

use calls::Outcome;
use calls::figures::Figures;
use calls::prices::{ask_prices, prices_of};
use calls_frames::Frames;
use calls_live::{Started, StepDone, Turn};
use calls_scripts::ScriptRefusal;
use reader::load;
use rules::{Refusal, Verdict};

// How many numbers the lent scratch has at least: question 1.
pub const SCRATCH: usize = 1_024;

// The bytes of the longest report, by `longest-report`: a buffer of that many never meets question 14.
pub const REPORT: usize = 2_089;

// The same number, tied to the definitions: every report fits into that many bytes.
pub fn longest_report() -> usize
    ensures { result ≡ longest_report }
{
    REPORT
}

// The questions of what is lent beside the file: 1 of the scratch, by its length, then 16 of the prices.
fn ask_lent(prices: &[u32], scratch: usize) -> Verdict
    ensures { verdict_of result ≡ lent_verdict prices.now scratch }
{
    if scratch < SCRATCH {
        return Err(Refusal {
            number: 1,
            place: SCRATCH,
        });
    }
    ask_prices(prices)
}

// The report of a file under prices that 16 has passed, its rows in the lent table: the questions 2 to 14, 17 and 19.
fn report_file(
    file: &[u8],
    prices: &[u32],
    table: &mut [u32],
    buffer: &mut [u8],
) -> Result<usize, Refusal>
    requires { Priced prices.now × (length table.old ≡ 1_024) }
    ensures { Reported prices.now (judged_file (prices_of prices.now) (file_script file.now))
        buffer.old buffer.new (reply_by result) }
{
    let mut ranges = [[0i32; 2]; 16];
    let script = load(file, &mut ranges, table)?;
    let measured = calls::measure_script(file, &table[..], script, ranges, prices, buffer);
    measured.reply
}

// The report of a file under four lent prices: the questions 1, 16, 2 to 14, 17 and 19. Accepted, the report is at the front of the buffer,
// and
// the answer is its length. Refused, the buffer is untouched. The first 1,024 numbers of the scratch are written over; the others keep
// their values.
pub fn report(
    file: &[u8],
    prices: &[u32],
    scratch: &mut [u32],
    buffer: &mut [u8],
) -> Result<usize, Refusal>
    ensures answer { Reported prices.now (judgement prices.now scratch.old file.now) buffer.old buffer.new (reply_by result) }
    ensures scratch { ScratchKept scratch.old scratch.new }
{
    ask_lent(prices, scratch.len())?;
    report_file(file, prices, &mut scratch[..SCRATCH], buffer)
}

// The figures of a file under prices that 16 has passed, its rows in the lent table: the questions 2 to 13, 17 and 19.
fn figures_file(
    file: &[u8],
    prices: &[u32],
    table: &mut [u32],
    lines: &mut [[u64; 7]; 16],
) -> Result<Figures, Refusal>
    requires { Priced prices.now × (length table.old ≡ 1_024) }
    ensures { FiguresAs prices.now (judged_file (prices_of prices.now) (file_script file.now)) lines.new result }
{
    *lines = [[0; 7]; 16];
    let mut ranges = [[0i32; 2]; 16];
    let script = load(file, &mut ranges, table)?;
    calls::figures::figures_script(file, &table[..], script, ranges, prices, lines)
}

// What the report of a file under four lent prices says, as numbers: the questions 1, 16, 2 to 13, 17 and 19. Accepted, the answer has the
// ticks and how many variables and loops there are, and the first lines of the lent table have each loop's seven numbers. The scratch is
// used as by `report`.
pub fn figures(
    file: &[u8],
    prices: &[u32],
    scratch: &mut [u32],
    lines: &mut [[u64; 7]; 16],
) -> Result<Figures, Refusal>
    ensures answer { FiguresAs prices.now (judgement prices.now scratch.old file.now) lines.new result }
    ensures scratch { ScratchKept scratch.old scratch.new }
{
    ask_lent(prices, scratch.len())?;
    figures_file(file, prices, &mut scratch[..SCRATCH], lines)
}

// The run of a file under prices that 16 has passed, its rows in the lent table: the questions 2 to 13, 15, 17 and 19.
fn run_file(
    file: &[u8],
    prices: &[u32],
    table: &mut [u32],
    store: &mut [i32],
    picks: &[u8],
    allowance: u64,
) -> Result<Outcome, Refusal>
    requires { Priced prices.now × (length table.old ≡ 1_024) }
    ensures { RanAs
        (run_reply prices.now (judged_file (prices_of prices.now) (file_script file.now))
        store.old picks.now allowance)
        store.old store.new result }
{
    let mut ranges = [[0i32; 2]; 16];
    let script = load(file, &mut ranges, table)?;
    calls::run_script(
        file,
        &table[..],
        script,
        ranges,
        prices,
        store,
        picks,
        allowance,
    )
}

// The run of a file under four lent prices: the questions 1, 16, 2 to 13, 15, 17 and 19. The store is overwritten with the final one;
// refused, it
// is untouched. With the ticks of the file's report under the same prices as allowance, the run keeps within that report: demand 3. The
// first 1,024
// numbers of the scratch are written over; the others keep their values.
pub fn run(
    file: &[u8],
    prices: &[u32],
    scratch: &mut [u32],
    store: &mut [i32],
    picks: &[u8],
    allowance: u64,
) -> Result<Outcome, Refusal>
    ensures answer { KeptCall prices.now (judgement prices.now scratch.old file.now)
        store.old store.new picks.now allowance result }
    ensures scratch { ScratchKept scratch.old scratch.new }
{
    ask_lent(prices, scratch.len())?;
    run_file(
        file,
        prices,
        &mut scratch[..SCRATCH],
        store,
        picks,
        allowance,
    )
}

// The start of a live run of a file under prices that 16 has passed: the questions 2 to 13, 15, 17, 19 and 21.
fn start_file(
    file: &[u8],
    prices: &[u32],
    table: &mut [u32],
    store: &[i32],
    state: &mut [u64],
) -> Result<Started, Refusal>
    requires { Priced prices.now × (length table.old ≡ 1_024) }
    ensures { StartedAs
        (start_reply prices.now (judged_file (prices_of prices.now) (file_script file.now))
        store.now state.old)
        state.old state.new result }
{
    let mut ranges = [[0i32; 2]; 16];
    let script = load(file, &mut ranges, table)?;
    calls_live::start_script(file, &table[..], script, ranges, prices, store, state)
}

// The start of a live run of a file under four lent prices: the questions 1, 16, 2 to 13, 15, 17, 19 and 21. The state is overwritten with
// the beginning of the run; refused, it is untouched. The store is left alone, and the scratch is used as by `run`.
pub fn start(
    file: &[u8],
    prices: &[u32],
    scratch: &mut [u32],
    store: &[i32],
    state: &mut [u64],
) -> Result<Started, Refusal>
    ensures answer { StartedAs
        (start_reply prices.now (judgement prices.now scratch.old file.now)
        store.now state.old)
        state.old state.new result }
    ensures scratch { ScratchKept scratch.old scratch.new }
{
    ask_lent(prices, scratch.len())?;
    start_file(file, prices, &mut scratch[..SCRATCH], store, state)
}

// A step of a live run of a file under prices that 16 has passed: the questions 2 to 13, 15, 17, 19, 21 and 22.
fn step_file(
    file: &[u8],
    prices: &[u32],
    table: &mut [u32],
    store: &mut [i32],
    state: &mut [u64],
    q: u64,
    picks: &[u8],
    cues: &mut [u32],
) -> Result<StepDone, Refusal>
    requires { Priced prices.now × (length table.old ≡ 1_024) }
    ensures { SteppedAs
        (step_reply prices.now (judged_file (prices_of prices.now) (file_script file.now))
        store.old state.old (step_lent q picks.now (length cues.old)))
        store.old store.new state.old state.new cues.old cues.new result }
{
    let mut ranges = [[0i32; 2]; 16];
    let script = load(file, &mut ranges, table)?;
    let by_kind = prices_of(prices);
    let turn = Turn {
        script,
        prices: by_kind,
        q,
    };
    calls_live::step_script(file, &table[..], ranges, turn, store, state, picks, cues)
}

// One frame of one script, from the state that `start` or the step before it wrote: the questions 1, 16, 2 to 13, 15, 17, 19, 21 and 22.
// It gets q ticks and runs on; store and state are overwritten with what is left, and the cues that it fires are put into the list.
// Refused, store, state and cues are untouched. The scratch is used as by `run`.
pub fn step(
    file: &[u8],
    prices: &[u32],
    scratch: &mut [u32],
    store: &mut [i32],
    state: &mut [u64],
    q: u64,
    picks: &[u8],
    cues: &mut [u32],
) -> Result<StepDone, Refusal>
    ensures answer { SteppedAs
        (step_reply prices.now (judgement prices.now scratch.old file.now)
        store.old state.old (step_lent q picks.now (length cues.old)))
        store.old store.new state.old state.new cues.old cues.new result }
    ensures scratch { ScratchKept scratch.old scratch.new }
{
    ask_lent(prices, scratch.len())?;
    step_file(
        file,
        prices,
        &mut scratch[..SCRATCH],
        store,
        state,
        q,
        picks,
        cues,
    )
}

// The frames of up to 8 scripts under four lent prices: the questions 20, 1 and 16, then script by script 2 to 13, 15, 17 and 19. Files,
// stores and picks are each lent end to end with a list of their lengths. In every frame each script that is not finished gets q ticks
// and runs on; what is left it carries forward. The stores are overwritten with the final ones; refused, they are untouched, and the
// answer says which script is refused, from 1, or 0 for 20, 1 and 16. Each script is finished by frame ceil(T/q), T its report's ticks,
// with the answer of its run alone with allowance T.
pub fn frames(
    files: &[u8],
    file_lengths: &[usize],
    stores: &mut [i32],
    store_lengths: &[usize],
    picks: &[u8],
    pick_lengths: &[usize],
    prices: &[u32],
    q: u64,
    scratch: &mut [u32],
) -> Result<Frames, ScriptRefusal>
    ensures answer { FramedCall prices.now (length scratch.old)
        (lent_of files.now file_lengths.now stores.old store_lengths.now
        picks.now pick_lengths.now)
        q stores.new (frames_answer result) }
    ensures scratch { scratch.new ≡ scratch.old }
{
    let fits = calls_lists::fitting(
        files,
        file_lengths,
        &stores[..],
        store_lengths,
        picks,
        pick_lengths,
        q,
    );
    if !fits {
        let refusal = Refusal {
            number: 20,
            place: 0,
        };
        return Err(ScriptRefusal::from(refusal));
    }
    ask_lent(prices, scratch.len())?;
    calls_frames::run_frames(
        files,
        file_lengths,
        stores,
        store_lengths,
        picks,
        pick_lengths,
        prices,
        q,
    )
}
