// The words of each refusal, cause and remedy, at most 98 columns a line behind two spaces. They are those of the table
// in docs/SCRIPT.md, which tests/programs compares with them.
use host::Host;
use program_parts::print_text;

// Of the questions about the file and its lines.
fn reading_cause(host: &impl Host, number: u32) {
    match number {
        2 => println!(host; "  the file has more than 16,384 bytes"),
        3 => {
            println!(host;
                "  the line is missing, or has not the shape its place wants: key, words, spaces, a number with +"
            );
            println!(host;
                "  or a leading zero, CR LF, no LF at the end, bytes after the last row, a script number other than"
            );
            println!(host; "  1");
        }
        4 => println!(host; "  a number is outside its limits, or LO is above HI"),
        5 => println!(host; "  a variable is not below V"),
        6 => println!(host;
            "  an else or end closes no fitting block, a pick has a second else, or a block is left open"
        ),
        7 => println!(host; "  blocks more than 8 deep, or a seventeenth loop"),
        17 => println!(host;
            "  an expression has more than 8 parentheses open together, or more than 15 operators"
        ),
        _ => (),
    }
}

// Of the questions about a loop.
fn loop_cause(host: &impl Host, number: u32) {
    match number {
        8 => {
            println!(host;
                "  it is not known how the tested variable moves in a turn: the body sets it (other than as a"
            );
            println!(host;
                "  copied counter), an off clears it, adding, multiplying and dividing are mixed, or an inner loop"
            );
            println!(host; "  changes it");
        }
        9 => {
            println!(host;
                "  the tested variable (or its difference from a limit that moves) may stand still: some way"
            );
            println!(host; "  through the body does not move it, or moves it the other way");
        }
        10 => {
            println!(host;
                "  the body assigns the limit, or a variable of the limit's expression, and the two are no closing"
            );
            println!(host; "  chases");
        }
        11 => {
            println!(host;
                "  the comparison does not fit: < <= want a rising variable, > >= a falling one, == != one that is"
            );
            println!(host; "  added to");
        }
        12 => {
            println!(host;
                "  no figure exists: a variable that is multiplied may start below 1; one that is divided may be"
            );
            println!(host;
                "  tested against a limit below 1 (with > below 0); or a loop with != has no single step, may step"
            );
            println!(host; "  over its limit, or may start past it");
        }
        19 => println!(host; "  a hold's body breaks a term of held loops"),
        _ => (),
    }
}

// Of the questions about ticks, buffer, store and prices.
fn ticks_cause(host: &impl Host, number: u32) {
    match number {
        13 => println!(host;
            "  a block, or the whole file, may take more than 1,000,000,000,000 ticks"
        ),
        14 => println!(host; "  report only: the buffer is too short"),
        15 => println!(host;
            "  run and frames: the first value that is outside its range, missing or extra"
        ),
        16 => {
            println!(host;
                "  the first lent price that is not from 1 to 1,000, is missing (three prices: 3) or extra (five:"
            );
            println!(host; "  4)");
        }
        _ => (),
    }
}

// Of the other questions of a call.
fn call_cause(host: &impl Host, number: u32) {
    match number {
        1 => println!(host; "  the lent scratch has fewer than 1,024 32-bit numbers"),
        18 => println!(host;
            "  the season sheet only, before any file is read: no name, or more than 64"
        ),
        20 => {
            println!(host;
                "  frames only: no script or more than 8; lists of lengths that differ in number, or do not add up"
            );
            println!(host; "  to what is lent; q below 1 or above 1,000,000");
        }
        21 => println!(host;
            "  live only: the first number of the state that no run of this file can have there"
        ),
        22 => println!(host; "  live only: q above 1,000,000"),
        _ => (),
    }
}

// The cause of a refusal by its number.
pub fn print_cause(host: &impl Host, number: u32) {
    reading_cause(host, number);
    loop_cause(host, number);
    ticks_cause(host, number);
    call_cause(host, number);
}

// Of the questions about the file and its lines.
fn reading_remedy(host: &impl Host, number: u32) {
    match number {
        2 => println!(host; "  shorten it, or split it into two scripts"),
        3 => {
            println!(host;
                "  write the line as the format of the script file says; check V and R against the lines that"
            );
            println!(host; "  follow");
        }
        4 => println!(host; "  use a number inside the limits"),
        5 => println!(host; "  use v0 to v(V-1), or raise vars= and add a range"),
        6 => println!(host; "  give each block one end, each pick at most one else"),
        7 => println!(host; "  flatten the blocks, or split the script"),
        17 => println!(host; "  set a variable to part of it first"),
        _ => (),
    }
}

// Of the questions about a loop.
fn loop_remedy(host: &impl Host, number: u32) {
    match number {
        8 => {
            println!(host;
                "  move the tested variable by one kind of row only, outside inner loops; or copy a counter into it"
            );
            println!(host; "  by the terms of a copied counter");
        }
        9 => println!(host;
            "  move it on every way through the body, both branches of a pick included"
        ),
        10 => {
            println!(host;
                "  copy the limit to another variable before the loop; or, if the limit is a variable alone, move"
            );
            println!(host; "  both by add and sub alone");
        }
        11 => println!(host; "  turn the comparison or the step round"),
        12 => println!(host; "  narrow the ranges, set the start before the loop, or use < or >"),
        19 => {
            println!(host;
                "  one off for the flag, directly in the body, and no other row that assigns it; move the watched"
            );
            println!(host;
                "  variable by add and sub alone toward the comparison, all its rows on one side of the off"
            );
        }
        _ => (),
    }
}

// Of the questions about ticks, buffer, store and prices.
fn ticks_remedy(host: &impl Host, number: u32) {
    match number {
        13 => println!(host;
            "  fewer turns, or fewer loops inside each other; start with the block that the place names"
        ),
        14 => println!(host;
            "  lend a buffer of at least that length; 2,089 bytes hold every report"
        ),
        15 => println!(host; "  give V values, each inside its range"),
        16 => println!(host; "  lend four prices, each from 1 to 1,000"),
        _ => (),
    }
}

// Of the other questions of a call.
fn call_remedy(host: &impl Host, number: u32) {
    match number {
        1 => println!(host; "  lend a longer scratch"),
        18 => println!(host; "  give 1 to 64 names, one a line"),
        20 => println!(host;
            "  lend a length of file, store and picks for each script, and 1 to 1,000,000 ticks a frame"
        ),
        21 => println!(host;
            "  lend the 64 numbers as the last start or step of this file and these prices left them"
        ),
        22 => println!(host; "  lend at most 1,000,000 ticks a step"),
        _ => (),
    }
}

// The remedy of a refusal by its number.
pub fn print_remedy(host: &impl Host, number: u32) {
    reading_remedy(host, number);
    loop_remedy(host, number);
    ticks_remedy(host, number);
    call_remedy(host, number);
}
