// Row i has its four numbers from ROW * i on: the first has the fields below; the second is what a set takes, a for's start, the variable
// that an off watches, or of an `end` row the loop's number; the third is the limit; the fourth the number of a change or a cue.
pub const ROW: usize = 4;

pub const FIRST: usize = 0;

pub const START: usize = 1;

pub const LIMIT: usize = 2;

pub const NUMBER: usize = 3;

// The units of the first number's fields; that of the op, the lowest, is 1.
pub const VARIABLE: u32 = 256;

pub const COMPARISON: u32 = 65_536;

pub const LIMIT_KIND: u32 = 524_288;

pub const CHANGE_KIND: u32 = 2_097_152;

pub const PARTNER: u32 = 16_777_216;

// The upper bit of the limit's kind: an expression.
pub const LIMIT_IS_EXPRESSION: u32 = 1_048_576;

// How many values there are: of the op, the variable and the partner; the comparison; the kinds; a bit; and of all fields between the op
// and the partner.
pub const BYTE: u32 = 256;

pub const COMPARISONS: u32 = 8;

pub const KINDS: u32 = 4;

pub const BIT: u32 = 2;

pub const COLUMNS: u32 = 65_536;

// The unit of an expression's place, above its length.
pub const PLACE: u32 = 65_536;

// What a constant has added.
pub const MIDDLE: i64 = 2_147_483_648;
