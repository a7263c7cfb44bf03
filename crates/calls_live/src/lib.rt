// The two calls of a live run on a script that has been read: its start, and one step.
#![tactic(auto)]

ghost use Rattle.std.specs.Prelude.{◌≡◌, false, List, ℕ, ◌+◌, ◌*◌, ◌≤◌, ◌<◌, length};
ghost use Rattle.run_machine.specs.Steps.{script_in};
ghost use Rattle.rules.specs.Scripts.{Script};
ghost use Rattle.rules.specs.Bounds.{FinePrices};
ghost use Rattle.rules.specs.Calls.{prices_of, Priced};
ghost use Rattle.rules_live.specs.LiveCalls.{start_reply, step_verdict, step_reply};
ghost use Rattle.calls.specs.Held.{read_script, Given, judged_script};
ghost use Rattle.rules.specs.Verdicts.{verdict_of};
ghost use Rattle.calls_live.specs.Told.{StepReady, step_from, SteppedAs};
ghost use Rattle.calls_live.specs.Told.{StepAsked, step_lent, StartedAs};
ghost use Rattle.calls_live.specs.Plays.{AtPick, ByteTaken, Readied, MayPlay, Played, SettledAs};

use calls::prices::prices_of;
use live_state::{LEFT, STATE, Standing, TICKS, USED};
use reader::Loaded;
use rules::{Ending, LoopCount, Prices, Refusal, Verdict};
use run_actions::{Machine, Status};
use runner::live::{Begin, Stop};
use table::PricedRows;

// A waiting script takes the first byte that it is lent; without one it waits on.
fn take_byte(m: Machine, rows: &[u32], picks: &[u8]) -> Machine
    requires { AtPick m rows.now × (length rows.now ≡ 1_024) × (m.used ≡ 0) }
    ensures { ByteTaken m result rows.now picks.now }
{
    if picks.len() == 0 {
        return m;
    }
    let row = m.row;
    let other = table::partner_at(rows, row) + 1;
    Machine {
        row: run_actions::branch(picks[0], other, row + 1),
        testing: false,
        left: m.left,
        used: 1,
        status: Status::Going,
    }
}

// A machine before it goes on: one that waits takes its byte, one that is finished stays.
fn ready(m: Machine, rows: &[u32], picks: &[u8]) -> Machine
    requires { ((i : ℕ) → m.status ≡ Status.Over Ending.NoPick i → AtPick m rows.now) × (length rows.now ≡ 1_024)
        × (m.used ≡ 0) }
    ensures { Readied m result rows.now picks.now }
{
    let status = m.status;
    match status {
        Status::Going => m,
        Status::Over(ending, _) => match ending {
            Ending::NoPick => take_byte(m, rows, picks),
            Ending::Ended => m,
            Ending::Range => m,
            Ending::Spent => m,
        },
    }
}

// It goes on, if it can, until it is over or the list of cues is full.
fn play(
    text: &[u8],
    rows: &[u32],
    script: PricedRows,
    from: Machine,
    store: &mut [i32],
    picks: &[u8],
    counts: &mut [[u64; 3]; 16],
    cues: &mut [u32],
) -> Stop
    requires { MayPlay text.now script rows.now from store.old picks.now counts.old }
    ensures { Played script.prices (script_in text.now rows.now script.count) from result store.old
        store.new picks.now counts.old counts.new cues.old cues.new }
{
    let m = ready(from, rows, picks);
    if !run_actions::going(m) {
        return Stop {
            machine: m,
            fired: 0,
            full: false,
        };
    }
    let begin = Begin {
        machine: m,
        listed: true,
    };
    runner::live::go_on(text, rows, script, begin, store, picks, counts, cues)
}

// How a step leaves a script: status and row as they are answered, the row where it stands, whether a test is due there, what it keeps.
#[derive(Clone, Copy)]
struct Settled {
    status: u64,
    row: usize,
    at: usize,
    due: bool,
    left: u64,
}

// What stopped by this ending, at row i.
fn settle_by(ending: Ending, i: usize, m: Machine, carried: u64) -> Settled
    ensures { SettledAs false (Status.Over ending i) m carried result }
{
    match ending {
        Ending::Spent => Settled {
            status: live_state::GOING,
            row: i,
            at: m.row,
            due: m.testing,
            left: m.left,
        },
        Ending::NoPick => Settled {
            status: live_state::WAITS,
            row: i,
            at: i,
            due: false,
            left: m.left.min(carried),
        },
        Ending::Ended => Settled {
            status: live_state::ENDED,
            row: i,
            at: i,
            due: false,
            left: 0,
        },
        Ending::Range => Settled {
            status: live_state::RANGE,
            row: i,
            at: i,
            due: false,
            left: 0,
        },
    }
}

// Where it has stopped, of what it had carried into the step.
fn settle(stop: Stop, carried: u64) -> Settled
    ensures { SettledAs stop.full stop.machine.status stop.machine carried result }
{
    let m = stop.machine;
    if stop.full {
        return Settled {
            status: live_state::FULL,
            row: m.row,
            at: m.row,
            due: false,
            left: m.left.min(carried),
        };
    }
    let status = m.status;
    match status {
        Status::Over(ending, i) => settle_by(ending, i, m, carried),
        Status::Going => Settled {
            status: live_state::GOING,
            row: m.row,
            at: m.row,
            due: m.testing,
            left: m.left,
        },
    }
}

// What a step comes to: status and row, the ticks and the bytes of this step and of all, its cues, and the loops' counts so far.
#[derive(Clone, Copy, Debug, PartialEq, Eq)]
pub struct StepDone {
    pub status: u64,
    pub row: usize,
    pub ticks: u64,
    pub all_ticks: u64,
    pub used: usize,
    pub all_used: u64,
    pub cues: usize,
    pub loops: usize,
    pub counts: [LoopCount; 16],
}

// What a step goes by: the script's rows and prices, q, and the ticks and loops of its report.
#[derive(Clone, Copy)]
pub struct Paced {
    pub count: usize,
    pub prices: Prices,
    pub q: u64,
    pub ticks: u64,
    pub loops: usize,
}

// The step of a script from a state and a store that its questions have passed. Not inlined: it needs no stack while the file is read.
#[inline(never)]
fn step_on(
    text: &[u8],
    rows: &[u32],
    script: Paced,
    lines: &[[u64; 7]; 16],
    store: &mut [i32],
    state: &mut [u64],
    picks: &[u8],
    cues: &mut [u32],
) -> StepDone
    requires { (s : Script) × StepReady s text.now rows.now script lines.now store.old state.old }
    ensures { ((s : Script) → StepReady s text.now rows.now script lines.now store.old
        state.old → SteppedAs (step_from s script store.old state.old picks.now
        (length cues.old)) store.old store.new state.old state.new
        cues.old cues.new (Ok result)) }
{
    let carried = state[LEFT];
    let ticks_before = state[TICKS];
    let used_before = state[USED];
    let from = live_state::machine_in(&state[..], script.q);
    let mut counts = live_state::counts_in(&state[..], script.loops);
    let prices = script.prices;
    let by = PricedRows {
        count: script.count,
        prices,
    };
    let stop = play(text, rows, by, from, store, picks, &mut counts, cues);
    let listed = run_loops::loops_of(rows, script.count, &counts);
    let rest = settle(stop, carried);
    let m = stop.machine;
    let ticks = from.left - m.left;
    let standing = Standing {
        status: rest.status,
        row: rest.at,
        due: rest.due,
        left: rest.left,
        ticks: ticks_before + ticks,
        used: used_before + m.used as u64,
    };
    live_state::write_state(state, standing, script.ticks, lines, listed, &counts);
    let counts = listed.counts;
    StepDone {
        status: rest.status,
        row: rest.row,
        ticks,
        all_ticks: standing.ticks,
        used: m.used,
        all_used: standing.used,
        cues: stop.fired,
        loops: listed.count,
        counts,
    }
}

// The most ticks that a step is given, and the number of that question.
pub const MOST_TICKS: u64 = 1_000_000;

pub const TICKS_QUESTION: u32 = 22;

// The questions of a step after the script has been judged: 15 read so that every value from −L to L passes, 21, 22.
fn ask_step(
    rows: &[u32],
    script: Paced,
    vars: usize,
    lines: &[[u64; 7]; 16],
    store: &[i32],
    state: &[u64],
) -> Verdict
    requires { (s : Script) × StepAsked s rows.now script vars lines.now }
    ensures { ((s : Script) → StepAsked s rows.now script vars lines.now
        → verdict_of result ≡ step_verdict script.prices s store.now state.now script.q) }
{
    let ranges = [[-1_000_000_000, 1_000_000_000]; 16];
    calls::ask_store(vars, &ranges, store)?;
    let prices = script.prices;
    let by = PricedRows {
        count: script.count,
        prices,
    };
    live_state::ask_state(state, rows, by, script.ticks, lines, script.loops)?;
    if script.q > MOST_TICKS {
        return Err(Refusal {
            number: TICKS_QUESTION,
            place: 0,
        });
    }
    Ok(())
}

// What a step is lent beside the script's rows and ranges: how many there are, the prices, and q.
#[derive(Clone, Copy)]
pub struct Turn {
    pub script: Loaded,
    pub prices: Prices,
    pub q: u64,
}

// The step call: the questions 19, 8 to 13, 15, 21 and 22, and the step. A refusal leaves store, state and cues as they were.
pub fn step_script(
    text: &[u8],
    rows: &[u32],
    ranges: [[i32; 2]; 16],
    turn: Turn,
    store: &mut [i32],
    state: &mut [u64],
    picks: &[u8],
    cues: &mut [u32],
) -> Result<StepDone, Refusal>
    requires { Given text.now rows.now turn.script ranges × FinePrices turn.prices }
    ensures { ((prices : List ℕ) → turn.prices ≡ prices_of prices → SteppedAs (step_reply prices
        (judged_script prices (read_script text.now rows.now turn.script ranges)) store.old
        state.old (step_lent turn.q picks.now (length cues.old))) store.old
        store.new state.old state.new cues.old cues.new result) }
{
    let mut lines = [[0u64; 7]; 16];
    let mut own = [0u64; 0];
    let script = turn.script;
    let prices = turn.prices;
    let figures = analysis::analyse(
        text,
        rows,
        script.count,
        ranges,
        prices,
        &mut lines,
        &mut own,
    )?;
    let by = Paced {
        count: script.count,
        prices,
        q: turn.q,
        ticks: figures.ticks,
        loops: figures.loops,
    };
    ask_step(rows, by, script.vars, &lines, &store[..], &state[..])?;
    Ok(step_on(text, rows, by, &lines, store, state, picks, cues))
}

// What `start` answers: the report's ticks and how many loops there are.
#[derive(Clone, Copy, Debug, PartialEq, Eq)]
pub struct Started {
    pub ticks: u64,
    pub loops: usize,
}

// The start call: the questions 19, 8 to 13, 15 and 21. The state becomes that of a run that has not begun: every number of it is 0.
pub fn start_script(
    text: &[u8],
    rows: &[u32],
    script: Loaded,
    ranges: [[i32; 2]; 16],
    prices: &[u32],
    store: &[i32],
    state: &mut [u64],
) -> Result<Started, Refusal>
    requires { Given text.now rows.now script ranges × Priced prices.now }
    ensures { StartedAs (start_reply prices.now (judged_script prices.now
        (read_script text.now rows.now script ranges)) store.now state.old)
        state.old state.new result }
{
    let figures = calls::figures_of(text, rows, script, ranges, prices_of(prices))?;
    calls::ask_store(script.vars, &ranges, store)?;
    if state.len() != STATE {
        return Err(Refusal {
            number: live_state::QUESTION,
            place: STATE,
        });
    }
    live_state::clear(state);
    Ok(Started {
        ticks: figures.ticks,
        loops: figures.loops,
    })
}
