// The run of a script: the machine from its start to its end, and its answer.
#![tactic(auto)]

pub mod live;

ghost use Rattle.std.specs.Prelude.{◌≡◌, ◌+◌, ◌≤◌, ◌<◌, ◌^◌};
ghost use Rattle.run_machine.specs.Steps.{script_in};
ghost use Rattle.runner.specs.Runs.{with_ticks, MayGo, WentOn};
ghost use Rattle.runner.specs.Answered.{Cleared, ran_of, MayRun, Answered};

use live::Begin;
use rules::{Ending, Prices};
use run_actions::{Machine, Status};
use table::PricedRows;

// From where the machine stands until the run is over, one step at a time.
pub fn resume(
    text: &[u8],
    rows: &[u32],
    count: usize,
    prices: Prices,
    from: Machine,
    store: &mut [i32],
    picks: &[u8],
    counts: &mut [[u64; 3]; 16],
) -> Machine
    requires { MayGo text.now prices rows.now count from store.old picks.now counts.old }
    ensures { WentOn prices (script_in text.now rows.now count) from result store.old store.new
        picks.now counts.old counts.new }
{
    let begin = Begin {
        machine: from,
        listed: false,
    };
    let script = PricedRows { prices, count };
    let mut none = [0u32; 0];
    let stop = live::go_on(text, rows, script, begin, store, picks, counts, &mut none);
    stop.machine
}

// A machine that waits gets q ticks more.
pub fn with_ticks(m: Machine, q: u64) -> Machine
    requires { m.left + q < 2 ^ 64 }
    ensures { result ≡ with_ticks q m }
{
    Machine {
        row: m.row,
        testing: m.testing,
        left: m.left + q,
        used: m.used,
        status: Status::Going,
    }
}

// What a run answers beside the store and the counts.
#[derive(Clone, Copy)]
pub struct Ran {
    pub ending: Ending,
    pub row: usize,
    pub ticks: u64,
    pub used: usize,
}

// The answer of a machine that is over, after `allowance` ticks less what is left.
pub fn ran_of(m: Machine, allowance: u64) -> Ran
    requires { m.left ≤ allowance }
    ensures { result ≡ ran_of m allowance }
{
    let status = m.status;
    match status {
        Status::Going => Ran {
            ending: Ending::Spent,
            row: m.row,
            ticks: allowance - m.left,
            used: m.used,
        },
        Status::Over(e, i) => Ran {
            ending: e,
            row: i,
            ticks: allowance - m.left,
            used: m.used,
        },
    }
}

// The run of a script from its first row, with the turns of its loops.
pub fn run_rows(
    text: &[u8],
    rows: &[u32],
    count: usize,
    prices: Prices,
    store: &mut [i32],
    picks: &[u8],
    allowance: u64,
    counts: &mut [[u64; 3]; 16],
) -> Ran
    requires { MayRun text.now prices rows.now count store.old allowance × Cleared counts.old }
    ensures { Answered prices (script_in text.now rows.now count) allowance picks.now result store.old
        store.new counts.new }
{
    let start = Machine {
        row: 0,
        testing: false,
        left: allowance,
        used: 0,
        status: Status::Going,
    };
    let end = resume(text, rows, count, prices, start, store, picks, counts);
    ran_of(end, allowance)
}
