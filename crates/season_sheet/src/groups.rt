// The groups of a season: of each group's first file the report and the cue numbers are kept, one after the other in one list, with their
// lengths.
ghost use Rattle.std.specs.Prelude.{◌≡◌, List, map, ◌+◌, ◌≤◌, ◌<◌, length};
ghost use Rattle.rules.specs.Figures.{ones};
ghost use Rattle.rules.specs.Scripts.{Script};
ghost use Rattle.rules.specs.Report.{script_report};
ghost use Rattle.rules.specs.Text.{equals};
ghost use Rattle.rules_season.specs.Season.{cues_of, same_group, among};
ghost use Rattle.season_sheet.specs.Firsts.{total, cut_by, script_cues, Behind, FirstsAfter};

// Whether two lists of cue numbers are the same.
fn same_cues(first: &[u32], cues: &[u32]) -> bool
    ensures { result ≡ equals first.now cues.now }
{
    cues == first
}

// Whether a file is in the group of a first file, by their reports and their cue numbers.
fn same_group(first: &[u8], report: &[u8], fired: &[u32], cues: &[u32]) -> bool
    ensures { ((a b : Script) → first.now ≡ script_report ones a → report.now ≡ script_report ones b
        → fired.now ≡ cues_of a.rows → cues.now ≡ cues_of b.rows → result ≡ same_group a b) }
{
    report == first && same_cues(fired, cues)
}

// Whether a file is in one of the groups.
fn is_known(
    lengths: &[usize],
    firsts: &[u8],
    counts: &[usize],
    fired: &[u32],
    report: &[u8],
    cues: &[u32],
) -> bool
    requires { (total lengths.now ≤ length firsts.now) × (length counts.now ≡ length lengths.now)
        × (total counts.now ≤ length fired.now) }
    ensures { ((ss : List Script) (s : Script) → cut_by lengths.now firsts.now ≡ map (script_report ones) ss
        → cut_by counts.now fired.now ≡ map script_cues ss → report.now ≡ script_report ones s
        → cues.now ≡ cues_of s.rows → result ≡ among s ss) }
{
    if lengths.len() == 0 {
        return false;
    }
    let n = lengths[0];
    let m = counts[0];
    if same_group(&firsts[..n], report, &fired[..m], cues) {
        return true;
    }
    is_known(
        &lengths[1..],
        &firsts[n..],
        &counts[1..],
        &fired[m..],
        report,
        cues,
    )
}

// How much is kept of the groups' first files: how many there are, the bytes of their reports and the numbers of their cues.
#[derive(Clone, Copy)]
pub struct Kept {
    pub groups: usize,
    pub used: usize,
    pub cued: usize,
}

// A file whose report and cue numbers stand behind those of the firsts. It is a group's first if it is in none of the groups: then they are
// kept.
pub fn keep_first(
    kept: Kept,
    len: usize,
    count: usize,
    lengths: &mut [usize],
    reports: &[u8],
    counts: &mut [usize],
    cues: &[u32],
) -> bool
    requires { Behind kept len count lengths.old reports.now counts.old cues.now }
    ensures { FirstsAfter kept len count lengths.old lengths.new reports.now counts.old counts.new cues.now result }
{
    let groups = kept.groups;
    let used = kept.used;
    let cued = kept.cued;
    let end = used + len;
    let last = cued + count;
    if is_known(
        &lengths[..groups],
        &reports[..used],
        &counts[..groups],
        &cues[..cued],
        &reports[used..end],
        &cues[cued..last],
    ) {
        return false;
    }
    lengths[groups] = len;
    counts[groups] = count;
    true
}
