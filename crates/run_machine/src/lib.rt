// One step of the machine: a row of the table, or the test of the loop that ends there.
#![tactic(auto)]

ghost use Rattle.std.specs.Prelude.{◌≡◌, List, ℕ, ◌+◌, ◌*◌, ◌<◌, length};
ghost use Rattle.table.specs.Code.{operand_in, limit_in, numbers_at};
ghost use Rattle.run_machine.specs.Steps.{script_in, AtRow, AtTest, Stepped};
ghost use Rattle.run_machine.specs.Limits.{kept_of, KeptExpression, ExpressionRead, LimitAt, LimitRead, KeptAt, TestKept};
ghost use Rattle.run_machine.specs.Rows.{row_of, move_of, off_of, Readable, SetRow, MoveRow, StepRow, OffRow, ForRow, LoopRow};
ghost use Rattle.run_machine.specs.Rows.{ReadAs, HeldAfter, Does, SetDone, StepDone, ForBegun, DoBegun, WhileBegun};

use rules::{Ending, Prices};
use run_actions::{Machine, going, on, put};
use table::{codes, partner_at, variable_at};
use values::stored;

// The value of an operand by its kind, or PAST.
fn value_of(kind: u32, x: u32, text: &[u8], store: &[i32]) -> i64
    requires { Readable text.now (length store.now) (operand_in kind x) }
    ensures { ReadAs text.now store.now (operand_in kind x) result }
{
    values::value_of(text, table::operand(kind, x), store)
}

// A set, of an operand of this kind.
fn set_row(
    kind: u32,
    m: Machine,
    rows: &[u32],
    prices: Prices,
    text: &[u8],
    store: &mut [i32],
) -> Machine
    requires { SetRow kind m text.now rows.now (length store.old) }
    ensures { SetDone prices kind m result text.now rows.now store.old store.new }
{
    let i = m.row;
    let z = value_of(kind, table::start_at(rows, i), text, store);
    put(
        m,
        prices.arithmetic,
        i,
        variable_at(rows, i),
        z,
        i + 1,
        false,
        store,
    )
}

// An arithmetic row, of a change of this kind.
fn move_row(kind: u32, m: Machine, rows: &[u32], prices: Prices, store: &mut [i32]) -> Machine
    requires { MoveRow kind m rows.now (length store.old) }
    ensures { Does prices m result store.old store.new (move_of kind (row_of rows.now m)) }
{
    let i = m.row;
    let v = variable_at(rows, i);
    let change = table::change(kind, table::number_at(rows, i));
    let z = values::changed(change, stored(v, store));
    put(m, prices.arithmetic, i, v, z, i + 1, false, store)
}

// A for's step, and on to its test.
fn step_row(m: Machine, rows: &[u32], prices: Prices, store: &mut [i32]) -> Machine
    requires { StepRow m rows.now (length store.old) }
    ensures { StepDone prices m result store.old store.new (row_of rows.now m) }
{
    let i = m.row;
    let v = variable_at(rows, i);
    let z = values::changed(table::change_at(rows, i), stored(v, store));
    put(
        m,
        prices.arithmetic,
        partner_at(rows, i),
        v,
        z,
        i,
        true,
        store,
    )
}

// What an off's flag holds after it: 0 if the comparison of the watched variable is true.
fn held(rows: &[u32], i: usize, store: &[i32]) -> i64
    requires { OffRow i rows.now (length store.now) }
    ensures { HeldAfter store.now (numbers_at rows.now i) result }
{
    let w = stored(table::watched_at(rows, i), store);
    let k = table::constant(table::limit_value_at(rows, i));
    if run_actions::passes(table::comparison_at(rows, i), w as i64, k as i64) {
        return 0;
    }
    stored(variable_at(rows, i), store) as i64
}

// An off.
fn off_row(m: Machine, rows: &[u32], prices: Prices, store: &mut [i32]) -> Machine
    requires { OffRow m.row rows.now (length store.old) }
    ensures { Does prices m result store.old store.new (off_of (row_of rows.now m)) }
{
    let i = m.row;
    let z = held(rows, i, store);
    put(
        m,
        prices.arithmetic,
        i,
        variable_at(rows, i),
        z,
        i + 1,
        false,
        store,
    )
}

// A for's start, of an operand of this kind, and on to its test.
fn for_row(
    kind: u32,
    m: Machine,
    rows: &[u32],
    prices: Prices,
    text: &[u8],
    store: &mut [i32],
    counts: &mut [[u64; 3]; 16],
) -> Machine
    requires { ForRow kind m text.now rows.now (length store.old) counts.old }
    ensures { ForBegun prices kind m result text.now rows.now store.old store.new counts.old counts.new }
{
    let i = m.row;
    let e = partner_at(rows, i);
    let z = value_of(kind, table::start_at(rows, i), text, store);
    let n = put(
        m,
        prices.arithmetic,
        i,
        variable_at(rows, i),
        z,
        e,
        true,
        store,
    );
    if going(n) {
        run_actions::begin(table::loop_at(rows, e), counts);
    }
    n
}

// A do, and on to its first row.
fn do_row(m: Machine, rows: &[u32], counts: &mut [[u64; 3]; 16]) -> Machine
    requires { LoopRow m rows.now counts.old }
    ensures { DoBegun m result rows.now counts.old counts.new }
{
    let k = table::loop_at(rows, partner_at(rows, m.row));
    run_actions::begin(k, counts);
    run_actions::count_turn(k, counts);
    on(m, m.left, m.row + 1, false)
}

// A while or a hold, and on to its test.
fn while_row(m: Machine, rows: &[u32], counts: &mut [[u64; 3]; 16]) -> Machine
    requires { LoopRow m rows.now counts.old }
    ensures { WhileBegun m result rows.now counts.old counts.new }
{
    let e = partner_at(rows, m.row);
    run_actions::begin(table::loop_at(rows, e), counts);
    on(m, m.left, e, true)
}

// The row of a machine by its op. A loop's test is left for `test_row`.
pub fn act(
    m: Machine,
    rows: &[u32],
    prices: Prices,
    text: &[u8],
    store: &mut [i32],
    picks: &[u8],
    counts: &mut [[u64; 3]; 16],
) -> Machine
    requires { (count : ℕ) × AtRow text.now rows.now count m store.old counts.old }
    ensures { ((count : ℕ) → AtRow text.now rows.now count m store.old counts.old
        → Stepped prices (script_in text.now rows.now count) m result store.old store.new
        picks.now counts.old counts.new) }
{
    let i = m.row;
    match table::op_at(rows, i) {
        codes::END => on(m, m.left, i + 1, false),
        codes::END_TEST => on(m, m.left, i, true),
        codes::END_FOR => step_row(m, rows, prices, store),
        codes::ELSE => on(m, m.left, partner_at(rows, i) + 1, false),
        codes::SET_CONSTANT => set_row(codes::CONSTANT, m, rows, prices, text, store),
        codes::SET_VARIABLE => set_row(codes::VARIABLE, m, rows, prices, text, store),
        codes::SET_EXPRESSION => set_row(codes::EXPRESSION, m, rows, prices, text, store),
        codes::PICK => run_actions::pick_row(m, prices, partner_at(rows, i) + 1, picks),
        codes::FOR_CONSTANT => for_row(codes::CONSTANT, m, rows, prices, text, store, counts),
        codes::FOR_VARIABLE => for_row(codes::VARIABLE, m, rows, prices, text, store, counts),
        codes::FOR_EXPRESSION => for_row(codes::EXPRESSION, m, rows, prices, text, store, counts),
        codes::CUE => run_actions::cue_row(m, prices),
        codes::MOVE_ADD => move_row(codes::ADD, m, rows, prices, store),
        codes::MOVE_SUB => move_row(codes::SUB, m, rows, prices, store),
        codes::MOVE_MUL => move_row(codes::MUL, m, rows, prices, store),
        codes::MOVE_DIV => move_row(codes::DIV, m, rows, prices, store),
        codes::OFF => off_row(m, rows, prices, store),
        codes::DO => do_row(m, rows, counts),
        _ => while_row(m, rows, counts),
    }
}

// Stands in the place of a limit that is not kept.
pub const NOT_KEPT: i64 = 5_000_000_000;

// What is kept for loop k.
fn kept_of(limits: &[i64; 16], k: usize) -> i64
    requires { k < 16 }
    ensures { result ≡ kept_of limits.now k }
{
    limits[k]
}

// The limit of loop k by an expression, or PAST: worked out once an entry, since the loop's body assigns none of its variables.
fn kept_value(k: usize, x: u32, text: &[u8], store: &[i32], limits: &mut [i64; 16]) -> i64
    requires { KeptExpression k x text.now store.now limits.old }
    ensures { ExpressionRead k x text.now store.now limits.old limits.new result }
{
    let kept = kept_of(limits, k);
    if kept != NOT_KEPT {
        return kept;
    }
    let z = value_of(codes::EXPRESSION, x, text, store);
    limits[k] = z;
    z
}

// The limit of the loop that ends at row i, or PAST. An expression is told by one bit.
fn limit_of(rows: &[u32], i: usize, text: &[u8], store: &[i32], limits: &mut [i64; 16]) -> i64
    requires { LimitAt text.now rows.now i store.now limits.old }
    ensures { LimitRead text.now rows.now i store.now limits.old limits.new result }
{
    let x = table::limit_value_at(rows, i);
    if table::limit_kind_at(rows, i) == codes::CONSTANT {
        return table::constant(x) as i64;
    }
    if table::limit_is_expression(rows, i) {
        return kept_value(table::loop_at(rows, i), x, text, store, limits);
    }
    value_of(codes::VARIABLE, x, text, store)
}

// The test of the loop that ends at the machine's row. When it fails, the loop's limit is no longer kept.
pub fn test_row(
    m: Machine,
    rows: &[u32],
    prices: Prices,
    text: &[u8],
    store: &[i32],
    counts: &mut [[u64; 3]; 16],
    limits: &mut [i64; 16],
) -> Machine
    requires { ((count : ℕ) × AtTest text.now rows.now count m store.now counts.old × KeptAt text.now rows.now m store.now
        limits.old) }
    ensures step { ((count : ℕ) (picks : List ℕ) → AtTest text.now rows.now count m store.now
        counts.old → Stepped prices (script_in text.now rows.now count) m result store.now
        store.now picks counts.old counts.new) }
    ensures limits { TestKept text.now rows.now m result store.now limits.old limits.new }
{
    let i = m.row;
    let price = prices.test;
    let left = m.left;
    if left < price {
        return run_actions::ended(m, left, Ending::Spent, partner_at(rows, i));
    }
    let limit = limit_of(rows, i, text, store, limits);
    if limit == values::PAST {
        return run_actions::ended(m, left - price, Ending::Range, partner_at(rows, i));
    }
    let x = stored(variable_at(rows, i), store);
    if run_actions::passes(table::comparison_at(rows, i), x as i64, limit) {
        run_actions::count_turn(table::loop_at(rows, i), counts);
        on(m, left - price, partner_at(rows, i) + 1, false)
    } else {
        limits[table::loop_at(rows, i)] = NOT_KEPT;
        on(m, left - price, i + 1, false)
    }
}
