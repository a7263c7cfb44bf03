// The one loop over the machine's steps: it goes on from where it stands, and the cues that it fires go into a list, if they are listed.
ghost use Rattle.std.specs.Prelude.{◌≡◌, ◌+◌, ◌*◌, ◌≤◌, ◌<◌, length, false};
ghost use Rattle.run_machine.specs.Steps.{script_in};
ghost use Rattle.runner.specs.Goes.{CuePut, MayGoLive, Went};
ghost use Rattle.rules.specs.declared.Ending.TheVariants.{Ended};
ghost use Rattle.run_actions.specs.States.{over_at};

use rules::Ending;
use run_actions::Machine;
use table::{PricedRows, codes};

// What was done with a row's cue: how many the list has after it, and whether it found the list full.
#[derive(Clone, Copy)]
struct Put {
    fired: usize,
    full: bool,
}

// So many cues are in the list.
fn has(fired: usize) -> Put
    ensures { (result.fired ≡ fired) × (result.full ≡ false) }
{
    Put { fired, full: false }
}

// The cue of the machine's row, if it is one whose price fits and cues are listed, put at the end of the list.
fn put_cue(
    listed: bool,
    m: Machine,
    rows: &[u32],
    price: u64,
    cues: &mut [u32],
    fired: usize,
) -> Put
    requires { (4 * m.row + 3 < length rows.now) × (fired ≤ length cues.old) }
    ensures { CuePut listed rows.now price m cues.old cues.new fired result.fired result.full }
{
    if !listed {
        return has(fired);
    }
    let i = m.row;
    if table::op_at(rows, i) != codes::CUE {
        return has(fired);
    }
    if m.left < price {
        return has(fired);
    }
    if fired < cues.len() {
        cues[fired] = table::number_at(rows, i);
        return has(fired + 1);
    }
    Put { fired, full: true }
}

// Where a machine begins, and whether the cues that it fires are listed: those of a plain run are not.
#[derive(Clone, Copy)]
pub struct Begin {
    pub machine: Machine,
    pub listed: bool,
}

// Where a machine has stopped: over, or before a cue that finds the list full; and how many cues it has fired.
#[derive(Clone, Copy)]
pub struct Stop {
    pub machine: Machine,
    pub fired: usize,
    pub full: bool,
}

// From where the machine stands until it is over or the list is full, one step at a time.
pub fn go_on(
    text: &[u8],
    rows: &[u32],
    script: PricedRows,
    from: Begin,
    store: &mut [i32],
    picks: &[u8],
    counts: &mut [[u64; 3]; 16],
    cues: &mut [u32],
) -> Stop
    requires { MayGoLive text.now script rows.now from.machine store.old picks.now counts.old }
    ensures { Went script.prices (script_in text.now rows.now script.count) from result store.old
        store.new picks.now counts.old counts.new cues.old cues.new }
{
    let prices = script.prices;
    let count = script.count;
    let mut m = from.machine;
    let mut limits = [run_machine::NOT_KEPT; 16];
    let mut fired: usize = 0;
    loop {
        if m.testing {
            m = run_machine::test_row(m, rows, prices, text, &store[..], counts, &mut limits);
        } else {
            if count <= m.row {
                return stopped(over(m, count), fired, false);
            }
            let put = put_cue(from.listed, m, rows, prices.cue, cues, fired);
            if put.full {
                return stopped(over(m, count), fired, true);
            }
            fired = put.fired;
            m = run_machine::act(m, rows, prices, text, store, picks, counts);
        }
        if !run_actions::going(m) {
            return stopped(m, fired, false);
        }
    }
}

// The machine, over past the last row. The one that finds the list full is told so too: then the loop need not carry its status.
fn over(m: Machine, count: usize) -> Machine
    ensures { result ≡ over_at m m.left Ended count }
{
    run_actions::ended(m, m.left, Ending::Ended, count)
}

// A machine that has stopped.
fn stopped(m: Machine, fired: usize, full: bool) -> Stop
    ensures { (result.machine ≡ m) × (result.fired ≡ fired) × (result.full ≡ full) }
{
    Stop {
        machine: m,
        fired,
        full,
    }
}
