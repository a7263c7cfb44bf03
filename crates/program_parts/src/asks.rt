// Picks that are asked for: before each its row is printed, `pick=ROW`, and a line of standard input answers 0 or 1.
ghost use Rattle.std.specs.Prelude.{◌≡◌, ◌≤◌, length};

use crate::input::read_line;
use crate::steps::{Terms, goes_on, step_within};
use crate::wrong::print_wrong;
use answer_text::steps::CUES;
use host::Host;

// How many bytes of a line are read: more than are shown of a wrong one.
const LINE: usize = 64;

// The pick that a line is. Says so of one that is none.
fn pick_in(host: &impl Host, line: &[u8]) -> Option<u8> {
    match line {
        b"0" => Some(0),
        b"1" => Some(1),
        _ => {
            print_wrong(host, "error=a pick is 0 or 1, not", line);
            None
        }
    }
}

// Asks for the pick of a row until a line is one; there is none where standard input ends. A proved loop has to end: it counts its turns
// up to a number that no input reaches.
fn ask_pick(host: &impl Host, row: usize) -> Option<u8> {
    for _ in 0..u64::MAX {
        println!(host; "pick={row}");
        let mut line = [0u8; LINE];
        let length = read_line(host, &mut line).length?;
        let pick = pick_in(host, &line[..length.min(LINE)]);
        if pick.is_some() {
            return pick;
        }
    }
    None
}

// Asks for the picks of a run that has been started, one after the other, as far as there is room, and answers how many there are. Each
// step is lent the pick that the one before it waited for.
pub fn ask_picks(
    host: &impl Host,
    terms: Terms<'_>,
    store: &mut [i32],
    state: &mut [u64],
    picks: &mut [u8],
) -> usize
    requires { length state.old ≡ 64 }
    ensures { result ≤ length picks.old }
{
    let mut count = 0;
    let mut lent = 0;
    for _ in 0..u64::MAX {
        let mut cues = [0u32; CUES];
        let Ok(d) = step_within(terms, store, state, &picks[lent..count], &mut cues) else {
            break;
        };
        lent = count;
        if d.status != live_state::WAITS {
            if !goes_on(terms.allowed, d, state) {
                break;
            }
        } else if let Some(pick) = ask_pick(host, d.row)
            && count < picks.len()
        {
            picks[count] = pick;
            count += 1;
        } else {
            break;
        }
    }
    count
}
