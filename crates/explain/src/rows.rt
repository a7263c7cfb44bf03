// What is printed of a script that is refused by the questions about its loops and ticks: the row, the cause, what of it stands in the
// rows, and the remedy.
ghost use Rattle.std.specs.Prelude.{◌+◌, ◌*◌, ◌≤◌, ◌<◌, length};

use crate::marked::print_file_line;
use crate::refusals::{print_cause, print_remedy};
use crate::terms::print_term;
use explain_margin::is_head;
use host::Host;
use program_parts::print_refusal;
use rules::Refusal;
use table::{Tag, partner_at, tag_at};

// Row `row`, which stands on line 4 + V + row.
fn print_row(host: &impl Host, file: &[u8], vars: usize, row: usize)
    requires { (vars ≤ 16) × (row ≤ 256) }
{
    println!(host; "\nrow {row}, line {}", 4 + vars + row);
    print_file_line(host, file, 3 + vars + row);
}

// The pick whose else is row p.
fn pick_of(rows: &[u32], p: usize) -> usize
    requires { 4 * p ≤ length rows.now }
    ensures { result ≤ p }
{
    for i in 0..p {
        if is_head(rows, i) && partner_at(rows, i) == p {
            return i;
        }
    }
    p
}

// The row that begins the block that ends at a row.
fn head_of(rows: &[u32], end: usize) -> usize
    requires { 4 * end + 3 < length rows.now }
    ensures { result ≤ end }
{
    let p = partner_at(rows, end).min(end);
    match tag_at(rows, p) {
        Tag::Else => pick_of(rows, p),
        _ => p,
    }
}

// The figure of a block that 13 refuses: it is not counted past the limit.
fn print_over(host: &impl Host) {
    println!(host; "\nits figure: more than 1000000000000 ticks");
}

// The block that an `end` row ends, from its head, and its figure.
fn print_block(host: &impl Host, file: &[u8], vars: usize, rows: &[u32], end: usize)
    requires { (vars ≤ 16) × (end ≤ 256) × (4 * end + 3 < length rows.now) }
{
    let head = head_of(rows, end);
    print!(host; "\nthe block");
    print_row(host, file, vars, head);
    print_row(host, file, vars, end);
    print_over(host);
}

// A refusal of a script of `count` rows.
pub fn print_refused_rows(
    host: &impl Host,
    file: &[u8],
    vars: usize,
    rows: &[u32],
    count: usize,
    refusal: Refusal,
)
    requires { (vars ≤ 16) × (count ≤ 256) × (4 * count ≤ length rows.now) }
{
    let Refusal { number, place } = refusal;
    print_refusal(host, refusal);
    if place < count {
        if number == 13 {
            print_block(host, file, vars, rows, place);
        } else {
            print_row(host, file, vars, place);
        }
    } else {
        println!(host; "\nthe whole file");
        print_over(host);
    }
    println!(host; "\ncause");
    print_cause(host, number);
    if place < count {
        print_term(host, rows, count, number, place);
    }
    println!(host; "\nremedy");
    print_remedy(host, number);
}
