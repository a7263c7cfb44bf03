// The blocks that are open before a line, by the lines of the file.
use crate::marked::{line_at, print_file_line};
use host::Host;

// The lines, from 0, that begin the open blocks; a file that has come so far has at most 8.
#[derive(Clone, Copy)]
struct Heads {
    lines: [usize; 8],
    depth: usize,
}

// Does a row begin a block?
fn opens(line: &[u8]) -> bool {
    line == b"row=pick".as_slice()
        || line.starts_with(b"row=for ")
        || line.starts_with(b"row=while ")
        || line.starts_with(b"row=do ")
        || line.starts_with(b"row=hold ")
}

// The open blocks after line k.
fn after(heads: Heads, line: &[u8], k: usize) -> Heads {
    let depth = heads.depth;
    let mut lines = heads.lines;
    if opens(line) {
        if depth < 8 {
            lines[depth] = k;
            return Heads {
                lines,
                depth: depth + 1,
            };
        }
    }
    if line == b"row=end".as_slice() {
        if depth > 0 {
            return Heads {
                lines,
                depth: depth - 1,
            };
        }
    }
    Heads { lines, depth }
}

// The line that begins the innermost block that is open before line `place`, if one is open.
fn head_before(file: &[u8], first: usize, place: usize) -> Option<usize> {
    let mut heads = Heads {
        lines: [0; 8],
        depth: 0,
    };
    for k in first..place {
        heads = after(heads, line_at(file, k), k);
    }
    let open = heads.depth.checked_sub(1)?;
    heads.lines.get(open).copied()
}

// The block that is open before line `place`, from 1, of a file of V variables.
pub fn print_open(host: &impl Host, file: &[u8], vars: u32, place: usize) {
    let last = place - place.min(1);
    match head_before(file, 3 + vars as usize, last) {
        Some(head) if head < last => {
            println!(host;
                "  the innermost block that is open before this line begins on line {}",
                head + 1
            );
            print_file_line(host, file, head);
        }
        _ => println!(host; "  no block is open before this line"),
    }
}
