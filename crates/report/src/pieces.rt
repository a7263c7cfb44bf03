// The pieces of a report line: how long each is, and its bytes.
ghost use Rattle.std.specs.Prelude.{◌≡◌, ◌++◌, ◌+◌, ◌≤◌, ◌<◌, length, take};
ghost use Rattle.rules.specs.Report.{decimal_in, decimal, joined, key_line};
ghost use Rattle.report.specs.Pieces.{label_text, piece_text, piece_texts, Wrote};

// The fixed texts of a report.
#[derive(Clone, Copy, Debug, PartialEq, Eq)]
pub enum Label {
    Report,
    Rows,
    Loops,
    Loop,
    Ticks,
    Space,
    Newline,
    Minus,
    Add,
    Grow,
    Shrink,
    Exact,
    Most,
}

// A part of a line: no bytes, a fixed text, or a number in decimal.
#[derive(Clone, Copy, Debug, PartialEq, Eq)]
pub enum Piece {
    Nothing,
    Fixed(Label),
    Number(u64),
}

// The bytes of a fixed text, and then zeros. An array by value: from a byte string the library would call `memmove`, which nobody lends it.
fn letters(label: Label) -> [u8; 7]
    ensures { take (length (label_text label)) result ≡ label_text label }
{
    match label {
        Label::Report => [b'r', b'e', b'p', b'o', b'r', b't', b'='],
        Label::Rows => [b'r', b'o', b'w', b's', b'=', 0, 0],
        Label::Loops => [b'l', b'o', b'o', b'p', b's', b'=', 0],
        Label::Loop => [b'l', b'o', b'o', b'p', b'=', 0, 0],
        Label::Ticks => [b't', b'i', b'c', b'k', b's', b'=', 0],
        Label::Space => [b' ', 0, 0, 0, 0, 0, 0],
        Label::Newline => [b'\n', 0, 0, 0, 0, 0, 0],
        Label::Minus => [b'-', 0, 0, 0, 0, 0, 0],
        Label::Add => [b'a', b'd', b'd', 0, 0, 0, 0],
        Label::Grow => [b'g', b'r', b'o', b'w', 0, 0, 0],
        Label::Shrink => [b's', b'h', b'r', b'i', b'n', b'k', 0],
        Label::Exact => [b'e', b'x', b'a', b'c', b't', 0, 0],
        Label::Most => [b'm', b'o', b's', b't', 0, 0, 0],
    }
}

// How many bytes a fixed text has.
fn label_len(label: Label) -> usize
    ensures { (result ≡ length (label_text label)) × (result ≤ 7) }
{
    match label {
        Label::Report => 7,
        Label::Rows => 5,
        Label::Loops => 6,
        Label::Loop => 5,
        Label::Ticks => 6,
        Label::Space => 1,
        Label::Newline => 1,
        Label::Minus => 1,
        Label::Add => 3,
        Label::Grow => 4,
        Label::Shrink => 6,
        Label::Exact => 5,
        Label::Most => 4,
    }
}

// How many digits n has, at most k.
fn digits_len(k: u32, n: u64) -> usize
    ensures { (result ≡ length (decimal_in k n)) × (result ≤ k) }
{
    if k == 0 {
        return 0;
    }
    if n < 10 {
        return 1;
    }
    digits_len(k - 1, n / 10) + 1
}

// How many bytes a line of a key and a number has.
pub fn key_len(key: Label, n: u64) -> usize
    ensures { (result ≡ length (key_line (label_text key) n)) × (result ≤ 28) }
{
    label_len(key) + digits_len(20, n) + 1
}

// How many bytes a piece has.
fn piece_len(piece: Piece) -> usize
    ensures { (result ≡ length (piece_text piece)) × (result ≤ 20) }
{
    match piece {
        Piece::Nothing => 0,
        Piece::Fixed(label) => label_len(label),
        Piece::Number(n) => digits_len(20, n),
    }
}

// How many bytes a line has.
pub fn line_len(pieces: [Piece; 17]) -> usize
    ensures { (result ≡ length (joined (piece_texts pieces))) × (result ≤ 340) }
{
    let mut len: usize = 0;
    for piece in pieces {
        len += piece_len(piece);
    }
    len
}

// Writes the digits of n, of which there are at most k.
fn put_digits(k: u32, n: u64, out: &mut [u8]) -> usize
    requires { length (decimal_in k n) ≤ length out.old }
    ensures { Wrote (decimal_in k n) out.old out.new result }
{
    if k == 0 {
        return 0;
    }
    if n < 10 {
        out[0] = b'0' + n as u8;
        return 1;
    }
    let at = put_digits(k - 1, n / 10, out);
    out[at] = b'0' + (n % 10) as u8;
    at + 1
}

// Writes a fixed text.
fn put_label(label: Label, out: &mut [u8]) -> usize
    requires { length (label_text label) ≤ length out.old }
    ensures { Wrote (label_text label) out.old out.new result }
{
    let text = letters(label);
    let len = label_len(label);
    byte_slices::copy(&text[..len], out)
}

// Writes a key, as its bytes, and a number after it.
pub fn put_number(key: &[u8], n: u64, out: &mut [u8]) -> usize
    requires { length (key.now ++ decimal n) ≤ length out.old }
    ensures { Wrote (key.now ++ decimal n) out.old out.new result }
{
    let at = byte_slices::copy(key, out);
    at + put_digits(20, n, &mut out[at..])
}

// Writes a line of a key, as its bytes, and a number.
pub fn put_entry(key: &[u8], n: u64, out: &mut [u8]) -> usize
    requires { length (key_line key.now n) ≤ length out.old }
    ensures { Wrote (key_line key.now n) out.old out.new result }
{
    let at = put_number(key, n, out);
    out[at] = b'\n';
    at + 1
}

// Writes a line of a key and a number.
pub fn put_key(key: Label, n: u64, out: &mut [u8]) -> usize
    requires { length (key_line (label_text key) n) ≤ length out.old }
    ensures { Wrote (key_line (label_text key) n) out.old out.new result }
{
    let text = letters(key);
    let len = label_len(key);
    put_entry(&text[..len], n, out)
}

// Writes a piece.
fn put_piece(piece: Piece, out: &mut [u8]) -> usize
    requires { length (piece_text piece) ≤ length out.old }
    ensures { Wrote (piece_text piece) out.old out.new result }
{
    match piece {
        Piece::Nothing => 0,
        Piece::Fixed(label) => put_label(label, out),
        Piece::Number(n) => put_digits(20, n, out),
    }
}

// Writes a line, each piece into the rest.
pub fn put_line(pieces: [Piece; 17], out: &mut [u8]) -> usize
    requires { length (joined (piece_texts pieces)) ≤ length out.old }
    ensures { Wrote (joined (piece_texts pieces)) out.old out.new result }
{
    let mut at: usize = 0;
    for piece in pieces {
        at += put_piece(piece, &mut out[at..]);
    }
    at
}
