// What a program prints of a live run, written into a lent buffer: the line of a step, that of a cue, and the answer so far.
ghost use Rattle.std.specs.Prelude.{◌≡◌, true, ◌++◌, ◌+◌, ◌≤◌, length, IfOk};
ghost use Rattle.rules.specs.Report.{decimal, newline};
ghost use Rattle.report.specs.Pieces.{Wrote};
ghost use Rattle.answer_text.specs.Texts.{listed};
ghost use Rattle.answer_text.specs.Adding.{Adds};
ghost use Rattle.answer_text.specs.Steps.{status_word, cue_text, step_front, step_text, cue_line, ending_of, so_far};

use crate::runs::{add_number, add_text, add_three, end_line};
use calls::Outcome;
use calls_live::StepDone;
use rules::{Ending, Refusal};

// How many cues a printed step has at most.
pub const CUES: usize = 1_024;

// How many bytes hold the line of every such step.
pub const STEP: usize = 21_700;

// How many bytes hold the line of every cue.
pub const CUE_LINE: usize = 67;

// Writes the word of a status, and the row.
fn add_status(status: u64, row: u64, at: usize, out: &mut [u8]) -> usize
    requires { at + 27 ≤ length out.old }
    ensures { Adds (status_word status ++ decimal row) at out.old out.new result × (result ≤ at + 27) }
{
    if status == live_state::GOING {
        return add_number(b" going ", row, at, out);
    }
    if status == live_state::WAITS {
        return add_number(b" waits ", row, at, out);
    }
    if status == live_state::FULL {
        return add_number(b" full ", row, at, out);
    }
    if status == live_state::ENDED {
        return add_number(b" ended ", row, at, out);
    }
    add_number(b" range ", row, at, out)
}

// Writes the number of a cue, with a comma before it if it is not the first.
fn add_cue(first: bool, n: u32, at: usize, out: &mut [u8]) -> usize
    requires { at + 21 ≤ length out.old }
    ensures { Adds (cue_text first n) at out.old out.new result × (result ≤ at + 21) }
{
    if first {
        return add_number(b"", n as u64, at, out);
    }
    add_number(b",", n as u64, at, out)
}

// Writes the numbers of cues, a comma between two.
fn add_cues(cues: &[u32], at: usize, out: &mut [u8]) -> usize
    requires { (length cues.now ≤ 1_024) × (at + 21_504 ≤ length out.old) }
    ensures { Adds (listed cue_text true cues.now) at out.old out.new result × (result ≤ at + 21_504) }
{
    let mut end = at;
    for (i, cue) in cues.iter().enumerate() {
        end = add_cue(i == 0, *cue, end, out);
    }
    end
}

// Writes what comes before the cues of a step.
fn add_step_front(frame: u64, d: StepDone, out: &mut [u8]) -> usize
    requires { 140 ≤ length out.old }
    ensures { Adds (step_front frame d) 0 out.old out.new result × (result ≤ 140) }
{
    let a = add_number(b"frame=", frame, 0, out);
    let b = add_status(d.status, d.row as u64, a, out);
    let c = add_number(b" ticks=", d.ticks, b, out);
    let e = add_number(b" all=", d.all_ticks, c, out);
    let f = add_number(b" used=", d.used as u64, e, out);
    add_text(b" cues=", f, out)
}

// Writes the line of a step that was not refused.
fn put_done(frame: u64, d: StepDone, cues: &[u32], out: &mut [u8]) -> usize
    requires { (length cues.now ≤ 1_024) × (length out.old ≡ 21_700) }
    ensures { Wrote (step_front frame d ++ (listed cue_text true cues.now ++ newline)) out.old out.new result
        × (result ≤ 21_700) }
{
    let a = add_step_front(frame, d, out);
    let b = add_cues(cues, a, out);
    end_line(b, out)
}

// Writes the line of a step, the frame-th, by its answer and the list of cues after it; or its refusal.
pub fn put_step(
    frame: u64,
    answer: Result<StepDone, Refusal>,
    cues: &[u32],
    out: &mut [u8],
) -> usize
    requires { IfOk answer (λ d. d.cues ≤ length cues.now) × (length cues.now ≤ 1_024) × (length out.old ≡ 21_700) }
    ensures { Wrote (step_text frame answer cues.now) out.old out.new result × (result ≤ 21_700) }
{
    match answer {
        Ok(d) => put_done(frame, d, &cues[..d.cues], out),
        Err(refusal) => crate::reports::put_refusal(refusal, out),
    }
}

// Writes the line of a cue: its number, its row, and the ticks that were taken before it.
pub fn put_cue(n: u32, row: usize, tick: u64, out: &mut [u8]) -> usize
    requires { length out.old ≡ 67 }
    ensures { Wrote (cue_line n row tick) out.old out.new result × (result ≤ 67) }
{
    add_three(b"cue=", n as u64, row as u64, tick, 0, out)
}

// How a run ends that is cut off where a live run stands.
fn ending_of(status: u64) -> Ending
    ensures { result ≡ ending_of status }
{
    if status == live_state::ENDED {
        return Ending::Ended;
    }
    if status == live_state::RANGE {
        return Ending::Range;
    }
    if status == live_state::WAITS {
        return Ending::NoPick;
    }
    Ending::Spent
}

// The answer of that run, from what a step answers.
pub fn so_far(d: StepDone) -> Outcome
    ensures { result ≡ so_far d }
{
    let counts = d.counts;
    Outcome {
        ending: ending_of(d.status),
        row: d.row,
        ticks: d.all_ticks,
        used: d.all_used as usize,
        loops: d.loops,
        counts,
    }
}
