// live [prices=A,C,P,T] FILE Q [VALUE ..]: plays a script frame by frame, Q ticks a frame. A line of standard input is a frame: the picks
// that came, a word of 0 and 1, or nothing. Each frame prints a line with its status, ticks and cues; after the last, the answer so far is
// printed as `rehearse` prints a run.
#![tactic(auto)]

ghost use Rattle.std.specs.Prelude.{◌≡◌, ◌≤◌, length};
ghost use Rattle.answer_text.specs.Steps.{step_text};

use answer_text::steps::CUES;
use calls_live::StepDone;
use host::{Host, Lost, System};
use live_state::STATE;
use loader::SCRATCH;
use program_parts::{Expected, Store, WORD, print_unexpected};
use program_words::{pick_count, put_picks, read_number};
use rules::Refusal;
use std::process::ExitCode;

// How many picks are held that no frame has used.
const HELD: usize = WORD;

// The script that is played: its file, the prices, and the ticks of a frame.
#[derive(Clone, Copy)]
struct Script<'a> {
    file: &'a [u8],
    prices: &'a [u32],
    q: u64,
}

// What comes after a line: another; the answer so far; or nothing, where a step is refused or its line cannot be written.
#[derive(Clone, Copy, Debug, PartialEq, Eq)]
enum After {
    Line,
    Answer,
    Nothing,
}

// The frames played, the picks held, and what comes next.
#[derive(Clone, Copy)]
struct Desk {
    frame: u64,
    held: usize,
    after: After,
    ghost few: { held ≤ 131_072 },
}

// Writes the line of a step.
fn write_step(
    host: &impl Host,
    frame: u64,
    answer: Result<StepDone, Refusal>,
    cues: &[u32],
    text: &[u8],
) -> Result<(), Lost>
    requires { text.now ≡ step_text frame answer cues.now }
{
    host.write(text)
}

// Plays a frame with these picks and prints its line; none if it is refused or its line cannot be written.
fn play_frame(
    host: &impl Host,
    script: Script<'_>,
    store: &mut [i32],
    state: &mut [u64],
    picks: &[u8],
    frame: u64,
) -> Option<StepDone> {
    let mut scratch = [0u32; SCRATCH];
    let mut cues = [0u32; CUES];
    let mut text = [0u8; answer_text::steps::STEP];
    let answer = loader::step(
        script.file,
        script.prices,
        &mut scratch,
        store,
        state,
        script.q,
        picks,
        &mut cues,
    );
    let n = answer_text::steps::put_step(frame, answer, &cues, &mut text);
    write_step(host, frame, answer, &cues, &text[..n]).ok()?;
    answer.ok()
}

// Takes the used picks off those held: the others stand in front, in their order.
fn take_off(picks: &mut [u8], held: usize, used: usize) -> usize
    requires { (used ≤ held) × (held ≤ length picks.old) }
    ensures { result ≤ held }
{
    picks.copy_within(used..held, 0);
    held - used
}

// Is the script finished?
fn finished(d: StepDone) -> bool {
    d.status == live_state::ENDED || d.status == live_state::RANGE
}

// Plays a frame with the picks held; those that it does not use are held on.
fn play_held(
    host: &impl Host,
    script: Script<'_>,
    store: &mut [i32],
    state: &mut [u64],
    picks: &mut [u8],
    desk: Desk,
) -> Desk
    requires { length picks.old ≡ 131_072 }
{
    let frame = desk.frame;
    let held = desk.held;
    let Some(d) = play_frame(host, script, store, state, &picks[..held], frame) else {
        return Desk {
            frame,
            held,
            after: After::Nothing,
        };
    };
    let after = if finished(d) {
        After::Answer
    } else {
        After::Line
    };
    Desk {
        frame,
        held: take_off(picks, held, d.used.min(held)),
        after,
    }
}

// Puts the picks of a line, of which an empty one has none.
fn put_line(word: &[u8], picks: &mut [u8]) -> Option<()> {
    if word.is_empty() {
        return Some(());
    }
    put_picks(word, picks)
}

// Says that a line has more picks than can be held; it is not taken, and no frame is played.
fn too_many(host: &impl Host) {
    println!(host; "error=too many picks: 131072 are held");
}

// Adds the picks of a line to those held and plays a frame. A line that is no picks is told, and no frame is played.
fn play_word(
    host: &impl Host,
    script: Script<'_>,
    store: &mut [i32],
    state: &mut [u64],
    picks: &mut [u8],
    word: &[u8],
    desk: Desk,
) -> Desk
    requires { length picks.old ≡ 131_072 }
{
    let held = desk.held;
    if word.len() > HELD - held {
        too_many(host);
        return desk;
    }
    let count = pick_count(word, &picks[held..]);
    let to = held + count;
    if put_line(word, &mut picks[held..to]).is_none() {
        print_unexpected(host, Expected::Picks, word);
        return desk;
    }
    let next = Desk {
        frame: desk.frame.saturating_add(1),
        held: to,
        after: After::Line,
    };
    play_held(host, script, store, state, picks, next)
}

// Reads a line and plays its frame; after the last comes the answer.
fn play_line(
    host: &impl Host,
    script: Script<'_>,
    store: &mut [i32],
    state: &mut [u64],
    picks: &mut [u8],
    desk: Desk,
) -> Desk
    requires { length picks.old ≡ 131_072 }
{
    let mut buffer = [0u8; HELD];
    let line = program_parts::read_line(host, &mut buffer);
    if line.failed {
        println!(host; "error=cannot read the picks");
    }
    match line.length {
        None => Desk {
            frame: desk.frame,
            held: desk.held,
            after: After::Answer,
        },
        Some(n) if n > HELD => {
            too_many(host);
            desk
        }
        Some(n) => play_word(host, script, store, state, picks, &buffer[..n], desk),
    }
}

// Prints the answer so far: a step without ticks, picks and room for a cue does nothing and says it.
fn print_answer(host: &impl Host, script: Script<'_>, store: &mut [i32], state: &mut [u64]) {
    let mut scratch = [0u32; SCRATCH];
    let mut none = [0u32; 0];
    let answer = loader::step(
        script.file,
        script.prices,
        &mut scratch,
        store,
        state,
        0,
        b"",
        &mut none,
    );
    match answer {
        Ok(d) => program_parts::print_outcome(host, answer_text::steps::so_far(d), store),
        Err(refusal) => program_parts::print_refusal(host, refusal),
    }
}

// Plays the lines of standard input. A proved loop has to end: it counts its turns up to a number that no input reaches.
fn play_lines(
    host: &impl Host,
    script: Script<'_>,
    store: &mut [i32],
    state: &mut [u64],
    picks: &mut [u8],
)
    requires { length picks.old ≡ 131_072 }
{
    let mut desk = Desk {
        frame: 0,
        held: 0,
        after: After::Line,
    };
    for _ in 0..u64::MAX {
        desk = play_line(host, script, store, state, picks, desk);
        if desk.after != After::Line {
            break;
        }
    }
    if desk.after != After::Nothing {
        print_answer(host, script, store, state);
    }
}

// Starts the script, and plays it if it is not refused.
fn play(host: &impl Host, script: Script<'_>, store: &mut [i32]) {
    let mut scratch = [0u32; SCRATCH];
    let mut state = [0u64; STATE];
    let mut picks = [0u8; HELD];
    let started = loader::start(script.file, script.prices, &mut scratch, store, &mut state);
    match started {
        Ok(_) => play_lines(host, script, store, &mut state, &mut picks),
        Err(refusal) => program_parts::print_refusal(host, refusal),
    }
}

// Reads the file that argument `at` names, and plays it from a store.
fn play_file(host: &impl Host, at: usize, prices: &[u32], q: u64, store: Store) {
    let mut path = [0u8; WORD];
    let name = host.argument(at, &mut path);
    let mut buffer = [0u8; 16385];
    let mut after = store;
    match program_parts::read_file(host, name, &mut buffer) {
        Some(file) => play(
            host,
            Script { file, prices, q },
            &mut after.values[..store.count],
        ),
        None => program_parts::print_unread(host, name),
    }
}

fn usage(host: &impl Host) {
    println!(host; "live [prices=A,C,P,T] FILE Q [VALUE ..]");
}

fn help(host: &impl Host) {
    usage(host);
    println!(host;
        "plays a script frame by frame, Q ticks a frame, at most 1000000; each line of standard input is a frame"
    );
    println!(host;
        "a line is the picks that came, a word of 0 and 1, or empty; what a frame does not use is kept for the next"
    );
    println!(host;
        "prints of each frame its status, row, ticks, all ticks, picks used and cues, and at the end the answer so far"
    );
    println!(host;
        "VALUE ..: the store, v0 first; prices of arithmetic, cue, pick and test are 1 if they are not given"
    );
    println!(host; "example: live examples/rain.eff 20 0 0 20");
}

// Reads Q, the argument after the file, and the values after it.
fn start(host: &impl Host, file: usize, arguments: usize, prices: &[u32])
    requires { file ≤ 2 }
{
    if arguments < file + 2 {
        print!(host; "error=usage: ");
        usage(host);
        return;
    }
    let mut buffer = [0u8; WORD];
    let word = host.argument(file + 1, &mut buffer);
    let Some(q) = read_number(word) else {
        print_unexpected(host, Expected::Ticks, word);
        return;
    };
    if let Some(store) = program_parts::read_arguments(host, file + 2, arguments) {
        play_file(host, file, prices, q, store);
    }
}

// What the arguments ask for.
fn run(host: &impl Host) {
    if program_parts::asks_help(host) {
        help(host);
        return;
    }
    let arguments = host.argument_count();
    let mut prices = [1u32; 5];
    if let Some(read) = program_parts::read_prices(host, &mut prices) {
        start(host, read.next, arguments, read.prices);
    }
}

fn main(rt: HostRuntime) -> ExitCode {
    let host = System::new(rt);
    run(&host);
    host.status()
}
