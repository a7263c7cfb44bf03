// The lines before a file's rows, one at a time: `script=`, `vars=`, `range=`, `rows=`. Each reader gets the unread rest of the file.
ghost use Rattle.std.specs.Prelude.{◌≡◌, true, ltb, pos, nat_abs, ◌≤ℤ◌, length};
ghost use Rattle.reading.specs.Words.{before};
ghost use Rattle.reader.specs.Lines.{keyed, clean, CountRead, ScriptRead, RangeRead};

use reading::order::{LineQuestion, first_refusal};
use reading::text::{line_words, position, starts_with, word};
use reading::words::{asks_end, asks_number, asks_one, asks_order, number_of};

// Whether an LF ends the next line: mostly the text's last byte.
fn has_line(rest: &[u8]) -> bool
    ensures { result ≡ ltb (before 10 rest.now) (length rest.now) }
{
    let n = rest.len();
    (0 < n && rest[n - 1] == b'\n') || position(rest, b'\n') < n
}

// Whether there is a next line, and it has the key.
pub fn keyed(rest: &[u8], key: &[u8]) -> bool
    ensures { result ≡ keyed key.now rest.now }
{
    has_line(rest) && starts_with(rest, key)
}

// What a count line says: the count, and the line's length with its LF.
#[derive(Debug, Clone, Copy)]
pub struct Count {
    pub count: usize,
    pub length: usize,
}

// `vars=V` and `rows=R`
pub fn count_line(rest: &[u8], key: &[u8], most: i32) -> Result<Count, LineQuestion>
    requires { (pos 0 ≤ℤ most) × (most ≤ℤ pos 1_000_000_000) × (clean key.now ≡ true) }
    ensures { CountRead key.now rest.now (nat_abs most) result }
{
    if !keyed(rest, key) {
        return Err(LineQuestion::Shape);
    }
    let line = line_words(rest, key.len() - 1);
    let x = word(line, 0);
    first_refusal(asks_number(0, most, x), asks_end(word(line, 1)))?;
    Ok(Count {
        count: number_of(x) as usize,
        length: line.end + 1,
    })
}

// `script=1`
pub fn script_line(rest: &[u8]) -> Result<Count, LineQuestion>
    ensures { ScriptRead rest.now result }
{
    if !keyed(rest, b"script=") {
        return Err(LineQuestion::Shape);
    }
    let line = line_words(rest, 6);
    first_refusal(asks_one(word(line, 0)), asks_end(word(line, 1)))?;
    Ok(Count {
        count: 1,
        length: line.end + 1,
    })
}

// What a range line says: its ends, and its length with its LF.
#[derive(Debug, Clone, Copy)]
pub struct RangeLine {
    pub lo: i32,
    pub hi: i32,
    pub length: usize,
}

// `range=LO HI`
pub fn range_line(rest: &[u8]) -> Result<RangeLine, LineQuestion>
    ensures { RangeRead rest.now result }
{
    if !keyed(rest, b"range=") {
        return Err(LineQuestion::Shape);
    }
    let line = line_words(rest, 5);
    let lo = word(line, 0);
    let hi = word(line, 1);
    let ends = first_refusal(asks_end(word(line, 2)), asks_order(lo, hi));
    let high = first_refusal(asks_number(-1_000_000_000, 1_000_000_000, hi), ends);
    first_refusal(asks_number(-1_000_000_000, 1_000_000_000, lo), high)?;
    Ok(RangeLine {
        lo: number_of(lo),
        hi: number_of(hi),
        length: line.end + 1,
    })
}
