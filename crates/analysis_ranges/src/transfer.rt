// The transfer functions of the ranges: a row, a pick, the start of a loop, a loop.
ghost use Rattle.std.specs.Prelude.{◌≡◌, ◌+◌, ◌*◌, ◌<◌, length};
ghost use Rattle.rules.specs.Values.{put};
ghost use Rattle.rules.specs.Ranges.{join, after_row, at_start};
ghost use Rattle.rules.specs.Bounds.{Fine};
ghost use Rattle.rules.specs.Written.{Written};
ghost use Rattle.table.specs.Code.{kind_at, rows_of};
ghost use Rattle.table.specs.Shapes.{shape_of, plain_of};
ghost use Rattle.analysis_steps.specs.Tree.{form_of, test_of};
ghost use Rattle.analysis_steps.specs.Sets.{set_of};
ghost use Rattle.analysis_intervals.specs.Env.{env_of, range_of};
ghost use Rattle.analysis_ranges.specs.Env.{widened_env};

use analysis_intervals::{Interval, bounds, chosen, interval_at};
use analysis_steps::variable_set::VariableSet;
use rules::Kind;
use table::{Shape, Tag, change_at, operand_at, tag_at, variable_at};

// s for v; the other ranges stay.
fn put(r: &mut [[i32; 2]; 16], v: u8, s: Interval)
    requires { v < 16 }
    ensures { env_of r.new ≡ put (env_of r.old) v (range_of s) }
{
    r[v as usize] = [s.lo, s.hi];
}

// The ranges over a pick.
pub fn joined(a: [[i32; 2]; 16], b: [[i32; 2]; 16]) -> [[i32; 2]; 16]
    ensures { env_of result ≡ join (env_of a) (env_of b) }
{
    let mut r = a;
    for v in 0..16 {
        put(&mut r, v, interval_at(&a, v).joined(interval_at(&b, v)));
    }
    r
}

// The ranges after the plain row i.
pub fn step_row(text: &[u8], r: &mut [[i32; 2]; 16], rows: &[u32], i: usize)
    requires { (4 * i + 3 < length rows.now) × Fine (kind_at (rows_of rows.now) i)
        × (shape_of (kind_at (rows_of rows.now) i) ≡ Shape.Plain) × Written text.now
        (kind_at (rows_of rows.now) i) }
    ensures { env_of r.new ≡ after_row (env_of r.old) (plain_of text.now (kind_at (rows_of rows.now) i)) }
{
    match tag_at(rows, i) {
        Tag::Set => {
            let s = bounds(text, r, operand_at(rows, i));
            put(r, variable_at(rows, i), s);
        }
        Tag::Move => {
            let v = variable_at(rows, i);
            let s = interval_at(r, v).changed(change_at(rows, i));
            put(r, v, s);
        }
        Tag::Off => {
            let v = variable_at(rows, i);
            let s = interval_at(r, v).with_zero();
            put(r, v, s);
        }
        _ => {}
    }
}

// From the ranges before a loop to those at its start: a for's start assignment.
pub fn at_start(text: &[u8], r: &mut [[i32; 2]; 16], kind: Kind)
    requires { Fine kind × Written text.now kind }
    ensures { env_of r.new ≡ at_start (form_of text.now kind) (test_of text.now kind) (env_of r.old) }
{
    if let Kind::For(v, x, _, _, _) = kind {
        let s = bounds(text, r, x);
        put(r, v, s);
    }
}

// Over a loop whose body assigns a set of variables, with its tested variable's range.
pub fn widen(r: &mut [[i32; 2]; 16], set: VariableSet, mine: Interval, tested: u8)
    requires { tested < 16 }
    ensures { env_of r.new ≡ widened_env (set_of set) (range_of mine) tested (env_of r.old) }
{
    for v in 0..16 {
        let old = interval_at(r, v);
        put(r, v, chosen(v == tested, set.contains(v), mine, old));
    }
}
