// The words of the one cause for which 3 refuses a line.
ghost use Rattle.std.specs.Prelude.{◌≤◌, length};

use crate::marked::print_marked;
use host::Host;
use line_causes::{Cause, Fault, LineKind, Wanted, agree, cause_of};

// What is wanted.
fn print_wanted(host: &impl Host, wants: Wanted) {
    let what = match wants {
        Wanted::Name => {
            "the name of a row: set, add, sub, mul, div, cue, off, pick, else, end, while, do, for or hold"
        }
        Wanted::Number => "a number",
        Wanted::One => "the number 1",
        Wanted::Variable => "a variable, v and its number",
        Wanted::Comparison => "a comparison: < <= > >= == or !=",
        Wanted::Ordered => "one of < <= > >=",
        Wanted::Expression => "a number, a variable or an expression without spaces",
        Wanted::Step => "a step: add, sub, mul or div",
        Wanted::Known | Wanted::Nothing => "nothing more",
    };
    println!(host; "{what}");
}

// How many bytes two words have in common at their fronts and, of what is left, at their ends.
fn common(word: &[u8], name: &[u8]) -> usize
    ensures { result ≤ length name.now }
{
    let most = word.len().min(name.len());
    let front = agree(name, word).min(most);
    for k in 0..most - front {
        if word[word.len() - 1 - k] != name[name.len() - 1 - k] {
            return front + k;
        }
    }
    most
}

// Is a name near a word: do they differ by a byte, or by two of a longer name?
fn is_near(word: &[u8], name: &[u8]) -> bool {
    let left = name.len() - common(word, name);
    let most = if name.len() > 3 { 2 } else { 1 };
    word.len() <= name.len() + 1 && left <= most
}

// The names of rows.
const NAMES: [&str; 14] = [
    "set", "add", "sub", "mul", "div", "cue", "off", "pick", "else", "end", "while", "do", "for",
    "hold",
];

// Those that are near the word at the front of a text.
fn print_near(host: &impl Host, text: &[u8]) {
    let word = text.split(|b| *b == b' ').next().unwrap_or(text);
    for name in NAMES {
        if is_near(word, name.as_bytes()) {
            println!(host; "  a name near it is {name}");
        }
    }
}

// A word that is not the one that is wanted.
fn print_other(host: &impl Host, line: &[u8], wants: Wanted, at: usize) {
    if wants != Wanted::Name {
        print!(host; "  another word stands here; wanted is\n  ");
        print_wanted(host, wants);
        return;
    }
    print!(host; "  an unknown word; wanted is\n  ");
    print_wanted(host, wants);
    if at < line.len() {
        print_near(host, &line[at..]);
    }
}

// The key that a line is to have.
fn key_of(kind: LineKind) -> &'static str {
    match kind {
        LineKind::Script => "script=",
        LineKind::Vars => "vars=",
        LineKind::Range => "range=",
        LineKind::Rows => "rows=",
        LineKind::Row => "row=",
    }
}

// A fault of spaces and bytes.
fn print_byte_fault(host: &impl Host, fault: Fault) {
    match fault {
        Fault::Empty => println!(host; "  an empty line; a script has none"),
        Fault::Comment => println!(host; "  a comment; a script has none"),
        Fault::ByteMark => println!(host; "  a byte order mark stands before the first key"),
        Fault::Space => println!(host;
            "  a space too many: one stands between words, none before the key"
        ),
        Fault::SpaceAtEnd => println!(host; "  a space after the last word"),
        Fault::Tab => println!(host; "  a tab; one space stands between words"),
        Fault::Return => println!(host;
            "  a carriage return; a line ends in LF alone, not in CR LF"
        ),
        Fault::Foreign => println!(host; "  a byte that is not plain ASCII"),
        Fault::NoLineFeed => println!(host; "  no LF ends the line; the last line has one too"),
        _ => (),
    }
}

// A fault of words.
fn print_word_fault(host: &impl Host, kind: LineKind, line: &[u8], cause: Cause) {
    match cause.fault {
        Fault::Key => {
            let key = key_of(kind);
            println!(host; "  the line is to begin with {key}");
        }
        Fault::Plus => println!(host; "  a number has no +"),
        Fault::Zero => println!(host; "  a number has no leading zero, and 0 no minus"),
        Fault::Other => print_other(host, line, cause.wants, cause.at),
        Fault::Broken => println!(host; "  the expression breaks here"),
        Fault::Missing => {
            print!(host; "  a word is missing here; wanted is\n  ");
            print_wanted(host, cause.wants);
        }
        Fault::TooMany => println!(host; "  a word too many"),
        _ => (),
    }
}

// The line with its mark, and the cause.
pub fn print_fault(host: &impl Host, kind: LineKind, line: &[u8], lf: bool) {
    let cause = cause_of(kind, lf, line);
    print_marked(host, line, cause.at);
    println!(host; "\ncause");
    print_byte_fault(host, cause.fault);
    print_word_fault(host, kind, line, cause);
}
