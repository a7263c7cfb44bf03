// The ops: what a row does. An `end` says what it closes: a pick, a loop with no step row, a for. An op's remainder by 4 is the kind
// of what a set takes, of a for's start, or of a change. Numbers and no enums: the lent table holds them (docs/SPEED.md, numbers in lent
// tables).
pub const END: u32 = 0;

pub const END_TEST: u32 = 1;

pub const END_FOR: u32 = 2;

pub const ELSE: u32 = 3;

pub const SET_CONSTANT: u32 = 4;

pub const SET_VARIABLE: u32 = 5;

pub const SET_EXPRESSION: u32 = 6;

pub const PICK: u32 = 7;

pub const FOR_CONSTANT: u32 = 8;

pub const FOR_VARIABLE: u32 = 9;

pub const FOR_EXPRESSION: u32 = 10;

pub const CUE: u32 = 11;

pub const MOVE_ADD: u32 = 12;

pub const MOVE_SUB: u32 = 13;

pub const MOVE_MUL: u32 = 14;

pub const MOVE_DIV: u32 = 15;

pub const OFF: u32 = 16;

pub const WHILE: u32 = 17;

pub const DO: u32 = 18;

pub const HOLD: u32 = 19;

// The kinds of operand.
pub const CONSTANT: u32 = 0;

pub const VARIABLE: u32 = 1;

pub const EXPRESSION: u32 = 2;

// The comparisons, in three bits: it passes if less, if equal, if greater.
pub const LESS: u32 = 1;

pub const EQUAL: u32 = 2;

pub const AT_MOST: u32 = 3;

pub const GREATER: u32 = 4;

pub const DIFFERENT: u32 = 5;

pub const AT_LEAST: u32 = 6;

// The kinds of change.
pub const ADD: u32 = 0;

pub const SUB: u32 = 1;

pub const MUL: u32 = 2;

pub const DIV: u32 = 3;
