// The row, and the term, for which a loop is refused by 8, 9, 10 or 19.
ghost use Rattle.std.specs.Prelude.{◌+◌, ◌*◌, ◌≤◌, ◌<◌, length, IfSome};

use host::Host;
use rules::Operand;
use table::{Tag, assigns, limit_at, partner_at, tag_at, variable_at, watched_at};

// What a row does to a variable.
#[derive(Clone, Copy)]
pub enum Deed {
    Sets,
    Clears,
    Moves,
    Assigns,
}

// Does row i do it to v?
fn does(rows: &[u32], i: usize, v: u8, deed: Deed) -> bool
    requires { 4 * i + 3 < length rows.now }
{
    variable_at(rows, i) == v
        && match deed {
            Deed::Assigns => assigns(rows, i),
            Deed::Sets => matches!(tag_at(rows, i), Tag::Set | Tag::For),
            Deed::Clears => matches!(tag_at(rows, i), Tag::Off),
            Deed::Moves => matches!(tag_at(rows, i), Tag::Move),
        }
}

// The first row from `from` on, before `end`, that does it.
pub fn first_row(rows: &[u32], from: usize, end: usize, v: u8, deed: Deed) -> Option<usize>
    requires { 4 * end ≤ length rows.now }
    ensures { IfSome result (λ row. row < end) }
{
    for i in from..end {
        if does(rows, i, v, deed) {
            return Some(i);
        }
    }
    None
}

// Does row i begin a part of a block round row r: a loop, or a branch of a pick?
fn is_round(rows: &[u32], i: usize, r: usize) -> bool
    requires { 4 * i + 3 < length rows.now }
{
    match tag_at(rows, i) {
        Tag::End | Tag::Set | Tag::Move | Tag::Cue | Tag::Off => false,
        _ => partner_at(rows, i) > r,
    }
}

// The first block from row `from` on round row r.
fn block_round(rows: &[u32], from: usize, r: usize) -> Option<usize>
    requires { 4 * r ≤ length rows.now }
{
    for i in from..r {
        if is_round(rows, i, r) {
            return Some(i);
        }
    }
    None
}

// `row R WHAT vN`
fn print_deed(host: &impl Host, row: usize, what: &str, v: u8) {
    println!(host; "  row {row} {what}{v}");
}

// Where row r stands in a block inside the loop.
fn print_round(host: &impl Host, rows: &[u32], from: usize, r: usize)
    requires { 4 * r ≤ length rows.now }
{
    if let Some(head) = block_round(rows, from, r) {
        println!(host; "  it stands in the block of row {head}");
    }
}

// 8: the first row that sets or clears the tested variable, or those that move it.
fn print_unknown(host: &impl Host, rows: &[u32], from: usize, end: usize, v: u8)
    requires { 4 * end ≤ length rows.now }
{
    if let Some(set) = first_row(rows, from, end, v, Deed::Sets) {
        print_deed(host, set, "sets v", v);
        print_round(host, rows, from, set);
    } else if let Some(off) = first_row(rows, from, end, v, Deed::Clears) {
        print_deed(host, off, "clears v", v);
    } else {
        print_moves(host, rows, from, end, v);
    }
}

// All rows that move a variable.
fn print_moves(host: &impl Host, rows: &[u32], from: usize, end: usize, v: u8)
    requires { 4 * end ≤ length rows.now }
{
    for i in from..end {
        if does(rows, i, v, Deed::Moves) {
            print_deed(host, i, "moves v", v);
            print_round(host, rows, from, i);
        }
    }
}

// 9: no row moves it, or those that do.
fn print_standing(host: &impl Host, rows: &[u32], from: usize, end: usize, v: u8)
    requires { 4 * end ≤ length rows.now }
{
    if first_row(rows, from, end, v, Deed::Assigns).is_some() {
        print_moves(host, rows, from, end, v);
    } else {
        println!(host; "  no row of the body moves v{v}");
    }
}

// 10: the row that assigns the limit.
fn print_limit(host: &impl Host, rows: &[u32], head: usize, end: usize)
    requires { (4 * head + 3 < length rows.now) × (4 * end ≤ length rows.now) }
{
    match limit_at(rows, head) {
        Operand::Variable(w) => {
            let row = first_row(rows, head, end, w, Deed::Assigns).unwrap_or(end);
            print_deed(host, row, "assigns the limit, v", w);
        }
        _ => println!(host;
            "  the limit is an expression: two that close on each other want a variable alone"
        ),
    }
}

// 19, of the watched variable of the `off` at a row.
fn print_watched(host: &impl Host, rows: &[u32], from: usize, off: usize, end: usize)
    requires { (4 * off + 3 < length rows.now) × (4 * end ≤ length rows.now) }
{
    let w = watched_at(rows, off);
    if let Some(set) = first_row(rows, from, end, w, Deed::Sets) {
        print_deed(host, set, "sets the watched v", w);
    }
    if first_row(rows, from, end, w, Deed::Moves).is_some() {
        print_moves(host, rows, from, end, w);
    } else {
        println!(host; "  no row of the body moves the watched v{w}");
    }
}

// 19: the flag's rows, then the watched variable's.
fn print_held(host: &impl Host, rows: &[u32], from: usize, end: usize, v: u8)
    requires { 4 * end ≤ length rows.now }
{
    let Some(off) = first_row(rows, from, end, v, Deed::Clears) else {
        println!(host; "  no row of the body is an off for v{v}");
        return;
    };
    print_deed(host, off, "is the off for v", v);
    print_round(host, rows, from, off);
    if let Some(other) = first_row(rows, from, off, v, Deed::Assigns) {
        print_deed(host, other, "assigns it too, v", v);
    }
    if let Some(later) = first_row(rows, off + 1, end, v, Deed::Assigns) {
        print_deed(host, later, "assigns it too, v", v);
    }
    print_watched(host, rows, from, off, end);
}

// What of the cause stands in the rows of the loop at row `head`.
pub fn print_term(host: &impl Host, rows: &[u32], count: usize, number: u32, head: usize)
    requires { (head < count) × (count ≤ 256) × (4 * count ≤ length rows.now) }
{
    let end = partner_at(rows, head).min(count);
    let v = variable_at(rows, head);
    match number {
        8 => print_unknown(host, rows, head + 1, end, v),
        9 => print_standing(host, rows, head + 1, end, v),
        10 => print_limit(host, rows, head, end),
        19 => print_held(host, rows, head + 1, end, v),
        _ => (),
    }
}
