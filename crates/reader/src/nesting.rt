// Questions 6 and 7, row by row: the blocks that are open.
ghost use Rattle.std.specs.Prelude.{◌≡◌, ℕ, ◌+◌, ◌<◌, List, ◌∷◌, cond, ltb};
ghost use Rattle.rules.specs.Blocks.{view_of, kind_of};
ghost use Rattle.rules.specs.Nesting.{nest, wrong, nest_row, in_loop};
ghost use Rattle.rules.specs.Nesting.{opens as opensBlock, elses, ends as endsBlock};
ghost use Rattle.reader.specs.Open.{open_of, nest_of, nested_of, block_number, Shallow, StaysShallow};

use rules::Kind;

// What an open block is: a loop, a pick before its else, a pick after it.
#[derive(Debug, Clone, Copy, PartialEq, Eq)]
pub enum Block {
    Loop,
    Pick,
    AfterElse,
}

// The questions of a row among the others: do its blocks fit, and are they few enough?
#[derive(Debug, Clone, Copy, PartialEq, Eq)]
pub enum BlockQuestion {
    Fit,
    Depth,
}

impl BlockQuestion {
    // Its number in the documents.
    pub fn number(self) -> u32
        ensures { result ≡ block_number self }
    {
        match self {
            BlockQuestion::Fit => 6,
            BlockQuestion::Depth => 7,
        }
    }
}

// The most blocks open at once, and the most loops of a file: question 7.
const DEEPEST: usize = 8;

const MOST_LOOPS: usize = 16;

// The open blocks, and the loops so far.
#[derive(Debug, Clone, Copy)]
pub struct Blocks {
    pub kinds: [Block; 8],
    pub depth: usize,
    pub loops: usize,
}

// A block is opened.
fn opened(b: Blocks, block: Block) -> Result<Blocks, BlockQuestion>
    requires { Shallow b }
    ensures nests { nested_of result ≡ cond (ltb b.depth 8) (nest (open_of block ∷ (nest_of b).open_blocks) b.loops) (wrong 7) }
    ensures shallow { StaysShallow result }
{
    if b.depth == DEEPEST {
        return Err(BlockQuestion::Depth);
    }
    let mut kinds = b.kinds;
    kinds[b.depth] = block;
    Ok(Blocks {
        kinds,
        depth: b.depth + 1,
        ..b
    })
}

fn open_loop(b: Blocks) -> Result<Blocks, BlockQuestion>
    requires { Shallow b }
    ensures nests { nested_of result ≡ opensBlock in_loop (nest_of b).open_blocks b.loops }
    ensures shallow { StaysShallow result }
{
    if b.loops == MOST_LOOPS {
        return Err(BlockQuestion::Depth);
    }
    let after = opened(b, Block::Loop)?;
    Ok(Blocks {
        loops: b.loops + 1,
        ..after
    })
}

fn else_part(b: Blocks) -> Result<Blocks, BlockQuestion>
    requires { Shallow b }
    ensures nests { nested_of result ≡ elses (nest_of b).open_blocks b.loops }
    ensures shallow { StaysShallow result }
{
    if b.depth == 0 || b.kinds[b.depth - 1] != Block::Pick {
        return Err(BlockQuestion::Fit);
    }
    let mut kinds = b.kinds;
    kinds[b.depth - 1] = Block::AfterElse;
    Ok(Blocks { kinds, ..b })
}

fn end_block(b: Blocks) -> Result<Blocks, BlockQuestion>
    requires { Shallow b }
    ensures nests { nested_of result ≡ endsBlock (nest_of b).open_blocks b.loops }
    ensures shallow { StaysShallow result }
{
    if b.depth == 0 {
        return Err(BlockQuestion::Fit);
    }
    Ok(Blocks {
        depth: b.depth - 1,
        ..b
    })
}

// Questions 6 and 7 of a row: the blocks after it.
pub fn nest_row(kind: Kind, b: Blocks) -> Result<Blocks, BlockQuestion>
    requires { Shallow b }
    ensures nests { (text : List ℕ) → nested_of result ≡ nest_row (view_of (kind_of text kind)) (nest_of b) }
    ensures shallow { StaysShallow result }
{
    match kind {
        Kind::End => end_block(b),
        Kind::Else => else_part(b),
        Kind::Pick => opened(b, Block::Pick),
        Kind::While(..) | Kind::Do(..) | Kind::For(..) | Kind::Hold(_) => open_loop(b),
        Kind::Set(..) | Kind::Move(..) | Kind::Cue(_) | Kind::Off(..) => Ok(b),
    }
}
