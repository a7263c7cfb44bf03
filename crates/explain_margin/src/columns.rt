// The columns: how wide they are, what is left for the script, and the bar.
ghost use Rattle.std.specs.Prelude.{◌≡◌, ◌+◌, ◌-◌, ◌≤◌, ◌<◌, min, max};
ghost use Rattle.explain_margin.specs.Columns.{ColumnOf, Narrow, share_of};

// A line has no more columns.
pub const LINE: usize = 100;

// How wide the figures' columns are.
#[derive(Clone, Copy)]
pub struct Widths {
    pub turns: usize,
    pub total: usize,
    pub ticks: usize,
}

// What the margin has beside these: row, exact or most, bar and share, and spaces between them.
const BESIDES: usize = 32;

// The heading of a column has five letters.
const HEADING: usize = 5;

// How many columns a figure's column has, if this is its greatest figure.
pub fn column(greatest: u64) -> usize
    ensures { ColumnOf greatest result }
{
    let mut text = [0u8; 20];
    let n = report::pieces::put_number(b"", greatest, &mut text);
    if n < HEADING { HEADING } else { n }
}

// Where the script begins.
pub fn begins(w: Widths) -> usize
    requires { Narrow w }
    ensures { result ≡ w.turns + w.total + w.ticks + 32 }
{
    w.turns + w.total + w.ticks + BESIDES
}

// How many columns a line has from this one on, at least 1.
pub fn room(at: usize) -> usize
    ensures { result ≡ max 1 (100 - at) }
{
    if at < LINE { LINE - at } else { 1 }
}

// Where the line ends that begins at byte `at` of a text, if a line has so many columns.
pub fn line_end(at: usize, width: usize, length: usize) -> usize
    requires { at ≤ length }
    ensures { result ≡ at + min width (length - at) }
{
    at + width.min(length - at)
}

// How much of the whole a part is, no more than all of it, where the whole is `of`; rounded down.
pub fn share(part: u64, whole: u64, of: u64) -> u64
    requires { (whole ≤ 1_000_000_000_001) × (of ≤ 100) }
    ensures { result ≡ share_of part whole of }
{
    if whole == 0 {
        return 0;
    }
    if part < whole {
        return part * of / whole;
    }
    whole * of / whole
}
