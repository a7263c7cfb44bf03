// The lists of lengths by which several scripts' files, stores and picks are lent end to end: question 20, and the part of one script.
#![tactic(auto)]

ghost use Rattle.std.specs.Prelude.{◌≡◌, ◌&&◌, ◌<◌, ◌^◌, eqb, length};
ghost use Rattle.rules_frames.specs.Frames.{total, within, fitting};
ghost use Rattle.calls_lists.specs.Parts.{lent_of, ExtentOf};

// Do the lengths add up to n? They are taken from n one after the other: no sum that could overflow is made.
fn covers(lengths: &[usize], n: usize) -> bool
    ensures { result ≡ eqb (total lengths.now) n }
{
    let mut left = n;
    for next in lengths {
        if left < *next {
            return false;
        }
        left -= *next;
    }
    left == 0
}

// Is there a length of each for 1 to 8 scripts?
fn counted(files: usize, stores: usize, picks: usize) -> bool
    ensures { result ≡ (within 1 8 files && (eqb stores files && eqb picks files)) }
{
    1 <= files && files <= 8 && stores == files && picks == files
}

// Is q from 1 to 1,000,000?
fn in_frame(q: u64) -> bool
    ensures { result ≡ within 1 1_000_000 q }
{
    1 <= q && q <= 1_000_000
}

// 20: 1 to 8 scripts, lists of as many lengths that add up to what is lent, and q from 1 to 1,000,000.
#[tactic(auto, unfolding(rules_frames::specs::Frames::fitting, rules_frames::specs::Frames::counted, rules_frames::specs::Frames::covered))]
pub fn fitting(
    files: &[u8],
    file_lengths: &[usize],
    stores: &[i32],
    store_lengths: &[usize],
    picks: &[u8],
    pick_lengths: &[usize],
    q: u64,
) -> bool
    ensures { result ≡ fitting
        (lent_of files.now file_lengths.now stores.now store_lengths.now
        picks.now pick_lengths.now)
        q }
{
    counted(file_lengths.len(), store_lengths.len(), pick_lengths.len())
        && covers(file_lengths, files.len())
        && covers(store_lengths, stores.len())
        && covers(pick_lengths, picks.len())
        && in_frame(q)
}

// The part of one script: from where those before it end, to where it ends.
#[derive(Clone, Copy, Debug, PartialEq, Eq)]
pub struct Extent {
    pub from: usize,
    pub to: usize,
}

// The part of script k.
pub fn part(lengths: &[usize], k: usize) -> Extent
    requires { (k < length lengths.now) × (total lengths.now < 2 ^ 64) }
    ensures { ExtentOf lengths.now k result }
{
    let mut from = 0;
    for i in 0..k {
        from += lengths[i];
    }
    Extent {
        from,
        to: from + lengths[k],
    }
}
