// What one price of a run buys: an assignment, a cue, a pick; and the counts of the turns.
#![tactic(auto)]

ghost use Rattle.std.specs.Prelude.{◌≡◌, cond, ◌<◌, eqb, length};
ghost use Rattle.rules.specs.Values.{compares};
ghost use Rattle.table.specs.Code.{comparison_by};
ghost use Rattle.table.specs.Packing.{IsComparison};
ghost use Rattle.run_actions.specs.States.{is_going, stopped_at, over_at, on_at, PutDone, CueDone, PickDone, AfterByte};
ghost use Rattle.run_actions.specs.States.{RoomAt, EntryBegun, TurnBegun};

use rules::{ALL, Ending, MOST, Prices, TURNS};

// Going, or over: the ending and its row.
#[derive(Clone, Copy, Debug, PartialEq, Eq)]
pub enum Status {
    Going,
    Over(Ending, usize),
}

// Before a row, or before the test of the loop that ends there; the ticks that are left, the bytes used.
#[derive(Clone, Copy, Debug, PartialEq, Eq)]
pub struct Machine {
    pub row: usize,
    pub testing: bool,
    pub left: u64,
    pub used: usize,
    pub status: Status,
}

// Is the run still going?
pub fn going(m: Machine) -> bool
    ensures { result ≡ is_going m.status }
{
    matches!(m.status, Status::Going)
}

// The run ends at row `at`, with so many ticks left and bytes used.
fn stopped(m: Machine, left: u64, used: usize, ending: Ending, at: usize) -> Machine
    ensures { result ≡ stopped_at m left used ending at }
{
    Machine {
        row: m.row,
        testing: m.testing,
        left,
        used,
        status: Status::Over(ending, at),
    }
}

// The run ends before or after a tick, at row `at`.
pub fn ended(m: Machine, left: u64, ending: Ending, at: usize) -> Machine
    ensures { result ≡ over_at m left ending at }
{
    stopped(m, left, m.used, ending, at)
}

// The run goes on at a row, or at the test of the loop that ends there.
pub fn on(m: Machine, left: u64, row: usize, testing: bool) -> Machine
    ensures { result ≡ on_at m left row testing }
{
    Machine {
        row,
        testing,
        left,
        used: m.used,
        status: Status::Going,
    }
}

// A price, and the variable v gets z: on to a row. Or z is past ±L.
pub fn put(
    m: Machine,
    price: u64,
    at: usize,
    v: u8,
    z: i64,
    row: usize,
    testing: bool,
    store: &mut [i32],
) -> Machine
    requires { v < length store.old }
    ensures { PutDone m result store.old store.new price at v z row testing }
{
    let left = m.left;
    if left < price {
        return ended(m, left, Ending::Spent, at);
    }
    if !expressions::operators::within(z) {
        return ended(m, left - price, Ending::Range, at);
    }
    let i = v as usize;
    store[i] = z as i32;
    on(m, left - price, row, testing)
}

// A cue.
pub fn cue_row(m: Machine, prices: Prices) -> Machine
    requires { m.row < 256 }
    ensures { CueDone prices m result }
{
    let left = m.left;
    let price = prices.cue;
    if left < price {
        return ended(m, left, Ending::Spent, m.row);
    }
    on(m, left - price, m.row + 1, false)
}

// Byte 0 takes the one row, any other the next.
pub fn branch(byte: u8, other: usize, next: usize) -> usize
    ensures { result ≡ cond (eqb byte 0) other next }
{
    if byte == 0 { other } else { next }
}

// The bytes used once a pick has taken its own, if one is left.
fn after_byte(used: usize, picks: &[u8]) -> usize
    ensures { AfterByte used picks.now result }
{
    if used < picks.len() { used + 1 } else { used }
}

// A pick takes its price, and then its byte: 0 to row `other`, any other to the next row.
pub fn pick_row(m: Machine, prices: Prices, other: usize, picks: &[u8]) -> Machine
    requires { m.row < 256 }
    ensures { PickDone prices m result other picks.now }
{
    let left = m.left;
    let price = prices.pick;
    let at = m.row;
    let used = m.used;
    let after = after_byte(used, picks);
    if left < price {
        return stopped(m, left, used, Ending::Spent, at);
    }
    if used < after {
        Machine {
            row: branch(picks[used], other, at + 1),
            testing: false,
            left: left - price,
            used: after,
            status: Status::Going,
        }
    } else {
        stopped(m, left - price, used, Ending::NoPick, at)
    }
}

// An entry of loop k begins: the turns of the one before go to the sum and the most.
pub fn begin(k: usize, counts: &mut [[u64; 3]; 16])
    requires { RoomAt k counts.old }
    ensures { EntryBegun k counts.old counts.new }
{
    let turns = counts[k][TURNS];
    counts[k] = [0, counts[k][ALL] + turns, counts[k][MOST].max(turns)];
}

// A turn of loop k begins.
pub fn count_turn(k: usize, counts: &mut [[u64; 3]; 16])
    requires { RoomAt k counts.old }
    ensures { TurnBegun k counts.old counts.new }
{
    counts[k] = [counts[k][TURNS] + 1, counts[k][ALL], counts[k][MOST]];
}

// Does the comparison of this code hold?
pub fn passes(code: u32, x: i64, y: i64) -> bool
    requires { IsComparison code }
    ensures { result ≡ compares (comparison_by code) x y }
{
    if x < y {
        return code % 2 == 1;
    }
    if x == y {
        return code / 2 % 2 == 1;
    }
    code / 4 == 1
}
