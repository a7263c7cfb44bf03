// Steps of a live run that keep within an allowance, as a run does.
ghost use Rattle.std.specs.Prelude.{◌≡◌, length};

use calls_live::{MOST_TICKS, StepDone};
use live_state::{LEFT, STATE, TICKS};
use loader::SCRATCH;
use rules::Refusal;

// What a run is made of and with: a file's bytes, the prices, and the ticks that it may take.
#[derive(Clone, Copy)]
pub struct Terms<'a> {
    pub file: &'a [u8],
    pub prices: &'a [u32],
    pub allowed: u64,
}

// The ticks of the next step: what the allowance leaves beside the ticks that are taken and those that are carried, as far as a step is
// given them.
fn next_ticks(allowed: u64, state: &[u64]) -> u64
    requires { length state.now ≡ 64 }
{
    allowed
        .saturating_sub(state[TICKS])
        .saturating_sub(state[LEFT])
        .min(MOST_TICKS)
}

// Does the step with them.
pub fn step_within(
    terms: Terms<'_>,
    store: &mut [i32],
    state: &mut [u64],
    picks: &[u8],
    cues: &mut [u32],
) -> Result<StepDone, Refusal>
    requires { length state.old ≡ 64 }
{
    let mut scratch = [0u32; SCRATCH];
    let q = next_ticks(terms.allowed, state);
    loader::step(
        terms.file,
        terms.prices,
        &mut scratch,
        store,
        state,
        q,
        picks,
        cues,
    )
}

// Whether another step can do more, without a further pick: at a cue that found no room, or while there are ticks to give.
pub fn goes_on(allowed: u64, d: StepDone, state: &[u64]) -> bool
    requires { length state.now ≡ 64 }
{
    d.status == live_state::FULL || d.status == live_state::GOING && next_ticks(allowed, state) > 0
}

// The state of a live run that is started.
pub fn started(terms: Terms<'_>, store: &[i32]) -> Result<[u64; STATE], Refusal> {
    let mut scratch = [0u32; SCRATCH];
    let mut state = [0u64; STATE];
    loader::start(terms.file, terms.prices, &mut scratch, store, &mut state)?;
    Ok(state)
}
