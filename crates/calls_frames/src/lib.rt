// Several scripts in one frame (change 14), after the questions 20, 1 and 16: the scripts, their frames, and the answers.
#![tactic(auto)]

ghost use Rattle.std.specs.Prelude.{◌≡◌, ◌≤◌};
ghost use Rattle.rules.specs.Calls.{Priced, prices_of};
ghost use Rattle.rules_frames.specs.Frames.{ready, played_by};
ghost use Rattle.calls_lists.specs.Parts.{lent_of, Fitted};
ghost use Rattle.calls_frames.specs.Playing.{MayPlay, ForReady, Uncounted, PlayedOut};
ghost use Rattle.calls_frames.specs.Answers.{no_answer, frames_answer, Answerable, AnsweredBy, AllAnswerable, AllAnswered};
ghost use Rattle.calls_frames.specs.Answers.{Framed, FramedScripts};

use calls::Outcome;
use calls::prices::prices_of;
use calls_scripts::{HeldScripts, ScriptRefusal};
use calls_turns::{Progress, START, new_frame, turn, turn_to, waiting};
use rules::Ending;
use run_loops::NO_COUNT;
use runner::with_ticks;

// The scripts when all are finished, and the most ticks that all together took in one frame.
#[derive(Clone, Copy)]
pub struct Ended {
    pub progress: [Progress; 8],
    pub most: u64,
}

// The frames: in each, every script that is not finished gets q ticks and runs on, one after the other, until all are finished.
fn play(
    files: &[u8],
    tables: &[u32],
    stores: &mut [i32],
    picks: &[u8],
    all: HeldScripts,
    prices: &[u32],
    q: u64,
    counts: &mut [[[u64; 3]; 16]; 8],
) -> Ended
    requires { MayPlay prices.now files.now tables.now stores.old picks.now q all × Uncounted counts.old }
    ensures { ForReady prices.now files.now tables.now stores.old
        picks.now q all
        (λ l roles. PlayedOut prices.now l q roles result stores.new counts.new) }
{
    let by_kind = prices_of(prices);
    let each = all.each;
    let mut progress = [START; 8];
    let mut most: u64 = 0;
    let mut frame = new_frame(0);
    let mut k: usize = 0;
    loop {
        if k < all.number {
            let p = progress[k];
            if waiting(p) {
                let from = p.machine;
                let to = turn(
                    files,
                    tables,
                    stores,
                    picks,
                    each[k],
                    by_kind,
                    with_ticks(from, q),
                    &mut counts[k],
                );
                let t = turn_to(from, to, q, frame);
                let after = t.progress;
                progress[k] = after;
                frame = t.frame;
            }
            k += 1;
        } else {
            most = most.max(frame.ticks);
            if !frame.waits {
                return Ended { progress, most };
            }
            frame = new_frame(frame.earlier + 1);
            k = 0;
        }
    }
}

// A script's answer: the frame that it finished in, and what a run answers.
#[derive(Clone, Copy, Debug, PartialEq, Eq)]
pub struct Played {
    pub frame: u64,
    pub outcome: Outcome,
}

// What stands past the last script.
fn nothing() -> Played
    ensures { result ≡ no_answer }
{
    let counts = [NO_COUNT; 16];
    let outcome = Outcome {
        ending: Ending::Ended,
        row: 0,
        ticks: 0,
        used: 0,
        loops: 0,
        counts,
    };
    Played { frame: 0, outcome }
}

// The answer of a script that is finished: its ticks are q in each frame that it ran in, less what is left.
fn answer_of(p: Progress, rows: &[u32], count: usize, q: u64, counts: &[[u64; 3]; 16]) -> Played
    requires { Answerable q p rows.now count counts.now }
    ensures { AnsweredBy q p rows.now count counts.now result }
{
    let m = p.machine;
    let ran = runner::ran_of(m, p.frame * q);
    let loops = run_loops::loops_of(rows, count, counts);
    let counts = loops.counts;
    let outcome = Outcome {
        ending: ran.ending,
        row: ran.row,
        ticks: ran.ticks,
        used: ran.used,
        loops: loops.count,
        counts,
    };
    Played {
        frame: p.frame,
        outcome,
    }
}

// The answers of all scripts.
fn answers(
    progress: [Progress; 8],
    all: HeldScripts,
    tables: &[u32],
    q: u64,
    counts: &[[[u64; 3]; 16]; 8],
) -> [Played; 8]
    requires { (all.number ≤ 8) × AllAnswerable q all tables.now progress counts.now }
    ensures { AllAnswered q all tables.now progress counts.now result }
{
    let each = all.each;
    let none = nothing();
    let mut list = [none; 8];
    for k in 0..all.number {
        let h = each[k];
        let places = h.places;
        let t = places.table;
        let from = t.from;
        let to = t.to;
        let p = progress[k];
        let a = answer_of(p, &tables[from..to], h.count, q, &counts[k]);
        list[k] = a;
    }
    list
}

// What frames come to: the most ticks that all together took in one frame, and each script's answer.
#[derive(Clone, Copy, Debug, PartialEq, Eq)]
pub struct Frames {
    pub most: u64,
    pub scripts: [Played; 8],
}

// All frames of scripts that are held. Not inlined: its answers need no stack while the files are read.
#[inline(never)]
fn play_held(
    files: &[u8],
    tables: &[u32],
    stores: &mut [i32],
    picks: &[u8],
    all: HeldScripts,
    prices: &[u32],
    q: u64,
) -> Frames
    requires { MayPlay prices.now files.now tables.now stores.old picks.now q all }
    ensures { ForReady prices.now files.now tables.now stores.old
        picks.now q all
        (λ l roles. Framed (played_by (prices_of prices.now) q (ready roles)) l.stores stores.new (frames_answer (Ok result))) }
{
    let mut counts: [[[u64; 3]; 16]; 8] = [[[0; 3]; 16]; 8];
    let ended = play(files, tables, stores, picks, all, prices, q, &mut counts);
    let progress = ended.progress;
    let scripts = answers(progress, all, tables, q, &counts);
    Frames {
        most: ended.most,
        scripts,
    }
}

// The scripts one after the other by their own questions, and then all frames. A refusal leaves every store as it was.
pub fn run_frames(
    files: &[u8],
    file_lengths: &[usize],
    stores: &mut [i32],
    store_lengths: &[usize],
    picks: &[u8],
    pick_lengths: &[usize],
    prices: &[u32],
    q: u64,
) -> Result<Frames, ScriptRefusal>
    requires { Priced prices.now × Fitted (lent_of files.now file_lengths.now stores.old store_lengths.now
        picks.now pick_lengths.now) q }
    ensures { FramedScripts prices.now (lent_of files.now file_lengths.now
        stores.old store_lengths.now picks.now pick_lengths.now)
        q stores.new (frames_answer result) }
{
    let mut tables = [0u32; 8_192];
    let all = calls_scripts::enter_all(
        files,
        file_lengths,
        &stores[..],
        store_lengths,
        pick_lengths,
        prices,
        &mut tables[..],
    )?;
    Ok(play_held(files, &tables[..], stores, picks, all, prices, q))
}
