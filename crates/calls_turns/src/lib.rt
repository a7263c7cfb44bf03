// One script's turn in a frame (change 14): it gets its ticks and runs on over its own parts of what is lent.
#![tactic(auto)]

ghost use Rattle.std.specs.Prelude.{◌≡◌, ◌+◌, ◌≤◌, ◌<◌, ◌^◌};
ghost use Rattle.calls_turns.specs.Progress.{is_spent, is_waiting, FrameFits, new_frame, turn_to, MayTurn, Turned};

use calls_scripts::Held;
use rules::{Ending, Prices};
use run_actions::{Machine, Status};

// A script in its frames: its machine, and the last frame that it ran in.
#[derive(Clone, Copy, Debug, PartialEq, Eq)]
pub struct Progress {
    pub machine: Machine,
    pub frame: u64,
}

// Before the first frame: at the first row, and no ticks.
pub const START: Progress = Progress {
    machine: Machine {
        row: 0,
        testing: false,
        left: 0,
        used: 0,
        status: Status::Going,
    },
    frame: 0,
};

// Does it wait for ticks?
fn is_spent(ending: Ending) -> bool
    ensures { result ≡ is_spent ending }
{
    matches!(ending, Ending::Spent)
}

// Is it not finished?
pub fn waiting(p: Progress) -> bool
    ensures { result ≡ is_waiting p.machine.status }
{
    match p.machine.status {
        Status::Going => true,
        Status::Over(ending, _) => is_spent(ending),
    }
}

// A frame so far: the frames before it, the ticks that its scripts took, and whether one of them still waits.
#[derive(Clone, Copy, Debug, PartialEq, Eq)]
pub struct Frame {
    pub earlier: u64,
    pub ticks: u64,
    pub waits: bool,
}

// A frame before its first script.
pub fn new_frame(earlier: u64) -> Frame
    ensures { result ≡ new_frame earlier }
{
    Frame {
        earlier,
        ticks: 0,
        waits: false,
    }
}

// After a turn: the script, and the frame so far.
#[derive(Clone, Copy, Debug, PartialEq, Eq)]
pub struct AfterTurn {
    pub progress: Progress,
    pub frame: Frame,
}

// After the turn from one machine to another, with q ticks.
pub fn turn_to(from: Machine, to: Machine, q: u64, frame: Frame) -> AfterTurn
    requires { FrameFits frame × (from.left + q < 2 ^ 63) × (to.left ≤ from.left + q) }
    ensures { result ≡ turn_to from to q frame }
{
    let ticks = frame.ticks + (from.left + q - to.left);
    let progress = Progress {
        machine: to,
        frame: frame.earlier + 1,
    };
    let waits = frame.waits || waiting(progress);
    let frame = Frame {
        earlier: frame.earlier,
        ticks,
        waits,
    };
    AfterTurn { progress, frame }
}

// A script that has got its ticks runs on over its places in what is lent.
pub fn turn(
    files: &[u8],
    tables: &[u32],
    stores: &mut [i32],
    picks: &[u8],
    script: Held,
    prices: Prices,
    from: Machine,
    counts: &mut [[u64; 3]; 16],
) -> Machine
    requires { MayTurn prices files.now tables.now stores.old picks.now script from counts.old }
    ensures { Turned prices files.now tables.now stores.old stores.new
        picks.now script from result counts.old counts.new }
{
    let places = script.places;
    let f = places.file;
    let file_from = f.from;
    let file_to = f.to;
    let t = places.table;
    let table_from = t.from;
    let table_to = t.to;
    let s = places.store;
    let store_from = s.from;
    let store_to = s.to;
    let p = places.picks;
    let pick_from = p.from;
    let pick_to = p.to;
    runner::resume(
        &files[file_from..file_to],
        &tables[table_from..table_to],
        script.count,
        prices,
        from,
        &mut stores[store_from..store_to],
        &picks[pick_from..pick_to],
        counts,
    )
}
