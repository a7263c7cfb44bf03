// What stands in the margin of a script: its figures by row, how wide its columns are, how deep a row stands and how often it is passed;
// and where a refusal points.
#![tactic(auto)]

mod columns;
mod figures;
mod nest;
mod place;

pub use columns::{LINE, Widths, begins, column, line_end, room, share};
pub use figures::{
    EXACT, IS_EXACT, NO_LOOP, TICKS, TOTAL, TURNS, UNKNOWN, greatest, is_head, put_lines, put_ticks,
};
pub use nest::{OUTSIDE, OpenBlocks, after_row, indent, passes_here};
pub use place::{LinePlace, PlaceKind, line_of, place_of, put_shown};
