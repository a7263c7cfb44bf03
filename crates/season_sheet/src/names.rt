// The file names of standard input, one a line, kept as the input is read. Of the first 65 lines the first 256 bytes are kept: enough to
// tell a name that is too long from
// one that is not, and 65 names from 64.
ghost use Rattle.std.specs.Prelude.{◌≡◌, cond, List, [], ◌∷◌, ◌++◌, ℕ, ◌*◌, ◌≤◌, ◌<◌, eqb, length, get_or, take, drop};
ghost use Rattle.rules_season.specs.Season.{names_of, holds_zero, good_name};
ghost use Rattle.season_sheet.specs.Kept.{NamesKept, listed, Opened};

// How many bytes of a line are kept, of how many lines, and all of them.
pub const LINE: usize = 256;

pub const LINES: usize = 65;

pub const ROOM: usize = 16_640;

// How many bytes a name has at most, and how many names there are at most.
const LONGEST: usize = 255;

const MOST: usize = 64;

// Nothing is read yet: line 0 is open.
pub fn start(names: &mut [u8; ROOM], lengths: &mut [usize; 66]) -> usize
    ensures { NamesKept [] result names.new lengths.new }
{
    *names = [0; ROOM];
    *lengths = [0; 66];
    0
}

// One byte more of the input. Line `at` is open; after 65 lines nothing is kept.
fn push(at: usize, b: u8, names: &mut [u8; ROOM], lengths: &mut [usize; 66]) -> usize
    ensures { ((input : List ℕ) → NamesKept input at names.old lengths.old → NamesKept (input ++ (b ∷ [])) result
        names.new lengths.new) }
{
    if at >= LINES {
        return at;
    }
    if b == b'\n' {
        lengths[at + 1] = 0;
        return at + 1;
    }
    let n = lengths[at];
    if n < LINE {
        names[at * LINE + n] = b;
        lengths[at] = n + 1;
    }
    at
}

// A block more of the input.
pub fn push_all(at: usize, block: &[u8], names: &mut [u8; ROOM], lengths: &mut [usize; 66]) -> usize
    ensures { ((input : List ℕ) → NamesKept input at names.old lengths.old → NamesKept
        (input ++ block.now) result names.new lengths.new) }
{
    let mut line = at;
    for &b in block {
        line = push(line, b, names, lengths);
    }
    line
}

// What a line of that length adds to the names, if it is the last: nothing if it is empty.
fn filled(length: usize) -> usize
    ensures { (result ≡ cond (eqb length 0) 0 1) × (result ≤ 1) }
{
    length.min(1)
}

// How many names there are: what stands after the last LF is one if it is not empty. 0 for no name or more than 64.
pub fn count(at: usize, lengths: &[usize; 66]) -> usize
    ensures { ((input names : List ℕ) → NamesKept input at names lengths.now → result ≡ listed (names_of input)) × (result ≤ 64) }
{
    if at >= LINES {
        return 0;
    }
    let n = at + filled(lengths[at]);
    if n > MOST {
        return 0;
    }
    n
}

// Whether a name holds a 0 byte.
fn holds_zero(name: &[u8]) -> bool
    ensures { result ≡ holds_zero name.now }
{
    name.iter().any(|&b| b == 0)
}

// Whether a name is opened: not an empty one, none over 255 bytes, none with a 0 byte.
fn opens(name: &[u8]) -> bool
    ensures { result ≡ good_name name.now }
{
    if name.len() == 0 {
        return false;
    }
    if name.len() > LONGEST {
        return false;
    }
    !holds_zero(name)
}

// How many bytes of name k are to be opened: all, or none of a name that does not open.
pub fn opened(k: usize, names: &[u8], lengths: &[usize; 66]) -> usize
    ensures name { ((input : List ℕ) (at : ℕ) → NamesKept input at names.now lengths.now → k < 65 → k < length
        (names_of input) → Opened (get_or (names_of input) k []) (take result (drop (256 * k) names.now)) result) }
    ensures room { result ≤ 255 }
{
    if k >= LINES {
        return 0;
    }
    let n = lengths[k];
    if n > LONGEST {
        return 0;
    }
    let a = k * LINE;
    let e = a + n;
    if e > names.len() {
        return 0;
    }
    if opens(&names[a..e]) {
        return n;
    }
    0
}
