// The cues that a run does, one a line: `cue=N ROW TICK`. The run is made in steps: without room for a cue a step stops before the next
// one, and says its row and the ticks so far; the step after it has room for that one.
ghost use Rattle.std.specs.Prelude.{◌≡◌, ◌≤◌, length, IfSome};
ghost use Rattle.answer_text.specs.Steps.{cue_line};

use crate::steps::{Terms, goes_on, started, step_within};
use crate::store::Store;
use answer_text::steps::CUE_LINE;
use host::{Host, Lost};

// Where a run stands between two cues: the picks used; the number of the cue that its last step did; whether a cue is next, and its row
// and ticks; whether to go on.
#[derive(Clone, Copy)]
pub struct CuePlace {
    pub used: usize,
    pub did: Option<u32>,
    pub due: bool,
    pub row: usize,
    pub tick: u64,
    pub on: bool,
}

// Before the first step.
pub const BEFORE_CUES: CuePlace = CuePlace {
    used: 0,
    did: None,
    due: false,
    row: 0,
    tick: 0,
    on: true,
};

// Writes the line of a cue.
fn write_cue(host: &impl Host, _n: u32, _row: usize, _tick: u64, text: &[u8]) -> Result<(), Lost>
    requires { text.now ≡ cue_line _n _row _tick }
{
    host.write(text)
}

// Prints it.
fn print_cue(host: &impl Host, n: u32, row: usize, tick: u64) -> Result<(), Lost> {
    let mut text = [0u8; CUE_LINE];
    let k = answer_text::steps::put_cue(n, row, tick, &mut text);
    write_cue(host, n, row, tick, &text[..k])
}

// The next step, with room for the cue that is next; none if it is refused.
pub fn next_cue(
    terms: Terms<'_>,
    picks: &[u8],
    store: &mut [i32],
    state: &mut [u64],
    at: CuePlace,
) -> Option<CuePlace>
    requires { (length state.old ≡ 64) × (at.used ≤ length picks.now) }
    ensures { IfSome result (λ next. next.used ≤ length picks.now) }
{
    let mut cues = [0u32; 1];
    let room = if at.due { 1 } else { 0 };
    let left = &picks[at.used..];
    let d = step_within(terms, store, state, left, &mut cues[..room]).ok()?;
    Some(CuePlace {
        used: at.used + d.used.min(left.len()),
        did: (d.cues > 0).then_some(cues[0]),
        due: d.status == live_state::FULL,
        row: d.row,
        tick: d.all_ticks,
        on: goes_on(terms.allowed, d, state),
    })
}

// Prints the cues of a run that has been started. A proved loop has to end: it counts its turns up to a number that no run reaches.
fn list_cues(
    host: &impl Host,
    terms: Terms<'_>,
    picks: &[u8],
    store: &mut [i32],
    state: &mut [u64],
) -> Result<(), Lost>
    requires { length state.old ≡ 64 }
{
    let mut at = BEFORE_CUES;
    for _ in 0..u64::MAX {
        let Some(next) = next_cue(terms, picks, store, state, at) else {
            break;
        };
        if let Some(number) = next.did {
            print_cue(host, number, at.row, at.tick)?;
        }
        if !next.on {
            break;
        }
        at = next;
    }
    Ok(())
}

// Prints the cues that a run from a store does, in order; nothing of one that is refused.
pub fn print_cues(host: &impl Host, terms: Terms<'_>, picks: &[u8], store: Store) {
    let mut after = store;
    if let Ok(mut state) = started(terms, store.as_slice()) {
        let _ = list_cues(
            host,
            terms,
            picks,
            &mut after.values[..store.count],
            &mut state,
        );
    }
}
