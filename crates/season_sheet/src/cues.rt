// The cue numbers of a script's rows, in row order.
ghost use Rattle.std.specs.Prelude.{◌≡◌, List, ◌++◌, ℕ, ◌+◌, ◌≤◌, ◌<◌, length};
ghost use Rattle.rules.specs.Blocks.{view_of, kind_of};
ghost use Rattle.rules_season.specs.Season.{cue_of, cues_of};
ghost use Rattle.table.specs.Code.{rows_of};
ghost use Rattle.table.specs.Paired.{script_rows};
ghost use Rattle.report.specs.Pieces.{Wrote};
ghost use Rattle.season_sheet.specs.Fired.{fired_by};

use rules::Kind;
use table::kind_at;

// What a row fires: nothing, or a cue.
#[derive(Clone, Copy)]
pub enum Fired {
    Nothing,
    Cue(u32),
}

fn cue_in(kind: Kind) -> Fired
    ensures { (text : List ℕ) → fired_by result ≡ cue_of (view_of (kind_of text kind)) }
{
    match kind {
        Kind::End => Fired::Nothing,
        Kind::Else => Fired::Nothing,
        Kind::Pick => Fired::Nothing,
        Kind::Set(_, _) => Fired::Nothing,
        Kind::Move(_, _) => Fired::Nothing,
        Kind::Cue(n) => Fired::Cue(n),
        Kind::While(_, _, _) => Fired::Nothing,
        Kind::Do(_, _, _) => Fired::Nothing,
        Kind::For(_, _, _, _, _) => Fired::Nothing,
        Kind::Off(_, _, _, _) => Fired::Nothing,
        Kind::Hold(_) => Fired::Nothing,
    }
}

// A row's cue number behind those before it, which end at `at`.
fn put_cue(kind: Kind, at: usize, out: &mut [u32]) -> usize
    requires { at < length out.old }
    ensures { ((text w old : List ℕ) → Wrote w old out.old at → length w < length old → Wrote
        (w ++ cue_of (view_of (kind_of text kind))) old out.new result)
        × (result ≤ at + 1) }
{
    let row = cue_in(kind);
    match row {
        Fired::Nothing => at,
        Fired::Cue(n) => {
            out[at] = n;
            at + 1
        }
    }
}

// Puts the cue numbers of the first `count` rows at the front, and answers how many there are.
pub fn put_cues(rows: &[u32], count: usize, out: &mut [u32]) -> usize
    requires { (count ≤ 256) × (count ≤ length out.old) × (length rows.now ≡ 1_024) }
    ensures { ((text : List ℕ) → Wrote (cues_of (script_rows text (rows_of rows.now) count)) out.old
        out.new result)
        × (result ≤ count) }
{
    let mut at: usize = 0;
    for j in 0..count {
        at = put_cue(kind_at(rows, j), at, out);
    }
    at
}
