// The open blocks along the rows: how deep a row stands, and how often what stands there is passed in all.
ghost use Rattle.std.specs.Prelude.{◌≡◌, ◌*◌, ◌-◌, ◌≤◌, min};
ghost use Rattle.explain_margin.specs.Nesting.{passes_of, written_at, opened_by, closed_by, nest_after};

use table::Tag;

// How many blocks are open, and for each depth the passes there: the total of the loop next round it, 1 outside all loops.
#[derive(Clone, Copy)]
pub struct OpenBlocks {
    pub depth: usize,
    pub passes: [u64; 9],
}

// Before the first row.
pub const OUTSIDE: OpenBlocks = OpenBlocks {
    depth: 0,
    passes: [1; 9],
};

// How often what stands here is passed.
pub fn passes_here(nest: OpenBlocks) -> u64
    ensures { result ≡ passes_of nest }
{
    let depth = nest.depth;
    let passes = nest.passes;
    if depth < 9 { passes[depth] } else { 0 }
}

fn out_of(depth: usize) -> usize
    ensures { result ≡ depth - 1 }
{
    depth.saturating_sub(1)
}

// How deep a row is written: an else or end stands with its head.
#[tactic(auto, unfolding(crate::specs::Nesting::written_at))]
fn written_at(tag: Tag, depth: usize) -> usize
    ensures { result ≡ written_at tag depth }
{
    match tag {
        Tag::End | Tag::Else => out_of(depth),
        _ => depth,
    }
}

// How many columns a row's text stands in, two for each block round it.
pub fn indent(tag: Tag, depth: usize) -> usize
    ensures { (result ≡ 2 * min 8 (written_at tag depth)) × (result ≤ 16) }
{
    2 * written_at(tag, depth).min(8)
}

// One block more is open, with these passes inside. A file that was read has at most 8.
fn opened(nest: OpenBlocks, inside: u64) -> OpenBlocks
    ensures { result ≡ opened_by nest inside }
{
    let depth = nest.depth;
    if depth >= 8 {
        return nest;
    }
    let mut passes = nest.passes;
    passes[depth + 1] = inside;
    OpenBlocks {
        depth: depth + 1,
        passes,
    }
}

// The innermost block is closed.
fn closed(nest: OpenBlocks) -> OpenBlocks
    ensures { result ≡ closed_by nest }
{
    let passes = nest.passes;
    OpenBlocks {
        depth: out_of(nest.depth),
        passes,
    }
}

// After a row; `total` is the total of the loop whose head it is.
#[tactic(auto, unfolding(crate::specs::Nesting::nest_after))]
pub fn after_row(nest: OpenBlocks, tag: Tag, total: u64) -> OpenBlocks
    ensures { result ≡ nest_after tag total nest }
{
    match tag {
        Tag::End => closed(nest),
        Tag::Pick => opened(nest, passes_here(nest)),
        Tag::While | Tag::Do | Tag::For | Tag::Hold => opened(nest, total),
        _ => nest,
    }
}
