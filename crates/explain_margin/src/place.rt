// Where a refusal points in the file, and the lines of a file.
ghost use Rattle.std.specs.Prelude.{◌≡◌};
ghost use Rattle.rules.specs.Text.{lf, split};
ghost use Rattle.explain_margin.specs.Places.{within, place_kind, line_from, StandsIn, shown_byte, ShownAs};

use reading::text::position;

// What the place of a question is: a line of the file, from 1; a row, from 0; or neither.
#[derive(Clone, Copy)]
pub enum PlaceKind {
    Line,
    Row,
    Neither,
}

// From lo to hi?
fn between(lo: u32, hi: u32, q: u32) -> bool
    ensures { result ≡ within lo hi q }
{
    lo <= q && q <= hi
}

pub fn place_of(number: u32) -> PlaceKind
    ensures { result ≡ place_kind number }
{
    if between(3, 7, number) {
        return PlaceKind::Line;
    }
    if number == 17 {
        return PlaceKind::Line;
    }
    if between(8, 13, number) {
        return PlaceKind::Row;
    }
    if number == 19 {
        return PlaceKind::Row;
    }
    PlaceKind::Neither
}

// Where a line begins and ends, without its LF; or there is none.
#[derive(Clone, Copy)]
pub enum LinePlace {
    At(usize, usize),
    Missing,
}

// Line k of a file, from 0.
pub fn line_of(file: &[u8], k: usize) -> LinePlace
    ensures { (result ≡ line_from 0 (split lf file.now) k) × StandsIn file.now result }
{
    let mut at: usize = 0;
    let mut i: usize = 0;
    while i < k {
        let end = at + position(&file[at..], b'\n');
        if end == file.len() {
            return LinePlace::Missing;
        }
        at = end + 1;
        i += 1;
    }
    let end = at + position(&file[at..], b'\n');
    LinePlace::At(at, end)
}

// How a byte is shown: one that is not plain ASCII as `?`.
fn shown(b: u8) -> u8
    ensures { result ≡ shown_byte b }
{
    if b < b' ' {
        return b'?';
    }
    if b > b'~' {
        return b'?';
    }
    b
}

// Puts the bytes of a text as they are shown at the front of `out`, as far as it has room, and answers how many.
pub fn put_shown(text: &[u8], out: &mut [u8]) -> usize
    ensures { ShownAs text.now out.old out.new result }
{
    let n = text.len().min(out.len());
    for i in 0..n {
        out[i] = shown(text[i]);
    }
    n
}
