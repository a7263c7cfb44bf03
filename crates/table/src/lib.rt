// The rows of a script as a flat table of numbers, four to a row: 256 rows are the 1,024 numbers of the lent scratch.
#![tactic(auto)]

pub mod codes;
mod fields;

ghost use Rattle.std.specs.Prelude.{◌≡◌, List, ℕ, ◌+◌, ◌-◌, ◌*◌, ◌≤◌, ◌<◌, length, get_or};
ghost use Rattle.rules_steps.specs.Ends.{Near};
ghost use Rattle.rules.specs.Bounds.{Fine, FineOperand};
ghost use Rattle.rules.specs.declared.Kind.{Kind};
ghost use Rattle.table.specs.Code.{constant_in, operand_in, is_expression, comparison_by, change_in, number, op_in, variable_in};
ghost use Rattle.table.specs.Code.{comparison_in, limit_kind_in, change_kind_in, partner_in, start_in, limit_in, step_in, watched_in};
ghost use Rattle.table.specs.Code.{tag_in, row_tag, numbers_at, kind_at, rows_of};
ghost use Rattle.table.specs.Shapes.{shape_of, past_else, Assigns};
ghost use Rattle.table.specs.Packing.{OperandCoded, ComparisonCoded, ChangeCoded, FirstIs, TestRow, Stands, NumbersPut, RowPut};
ghost use Rattle.table.specs.Paired.{columns_in, PartnerPut, EndsWith, EndPut, role_of, head_of, number_of, pushed_on, popped_off};
ghost use Rattle.table.specs.Paired.{Ready, NextPut};

use rules::{Change, Comparison, Kind, Operand, Prices};

// How many rows a script in a table has, and what each kind of row takes.
#[derive(Debug, Clone, Copy, PartialEq, Eq)]
pub struct PricedRows {
    pub count: usize,
    pub prices: Prices,
}

// A number as an index.
fn wide(x: u32) -> usize
    ensures { result ≡ x }
{
    x as usize
}

// A constant of the table.
pub fn constant(x: u32) -> i32
    ensures { result ≡ constant_in x }
{
    (x as i64 - fields::MIDDLE) as i32
}

// An operand by its kind and value.
pub fn operand(kind: u32, x: u32) -> Operand
    ensures { result ≡ operand_in kind x }
{
    if kind == codes::CONSTANT {
        return Operand::Constant(constant(x));
    }
    if kind == codes::VARIABLE {
        return Operand::Variable((x % fields::BYTE) as u8);
    }
    Operand::Expression((x / fields::PLACE) as u16, (x % fields::PLACE) as u16)
}

fn comparison(code: u32) -> Comparison
    ensures { result ≡ comparison_by code }
{
    match code {
        codes::LESS => Comparison::Less,
        codes::AT_MOST => Comparison::AtMost,
        codes::GREATER => Comparison::Greater,
        codes::AT_LEAST => Comparison::AtLeast,
        codes::EQUAL => Comparison::Equal,
        _ => Comparison::Different,
    }
}

pub fn change(kind: u32, c: u32) -> Change
    ensures { result ≡ change_in kind c }
{
    match kind {
        codes::ADD => Change::Add(c),
        codes::SUB => Change::Sub(c),
        codes::MUL => Change::Mul(c),
        _ => Change::Div(c),
    }
}

// The kinds of row.
#[derive(Debug, Clone, Copy, PartialEq, Eq)]
pub enum Tag {
    End,
    Else,
    Pick,
    Set,
    Move,
    Cue,
    While,
    Do,
    For,
    Off,
    Hold,
}

fn tag_of(op: u32) -> Tag
    ensures { result ≡ tag_in op }
{
    match op {
        codes::END | codes::END_TEST | codes::END_FOR => Tag::End,
        codes::ELSE => Tag::Else,
        codes::SET_CONSTANT | codes::SET_VARIABLE | codes::SET_EXPRESSION => Tag::Set,
        codes::PICK => Tag::Pick,
        codes::FOR_CONSTANT | codes::FOR_VARIABLE | codes::FOR_EXPRESSION => Tag::For,
        codes::CUE => Tag::Cue,
        codes::MOVE_ADD | codes::MOVE_SUB | codes::MOVE_MUL | codes::MOVE_DIV => Tag::Move,
        codes::OFF => Tag::Off,
        codes::WHILE => Tag::While,
        codes::DO => Tag::Do,
        _ => Tag::Hold,
    }
}

// The op of row i.
pub fn op_at(rows: &[u32], i: usize) -> u32
    requires { 4 * i + 3 < length rows.now }
    ensures { result ≡ op_in (numbers_at rows.now i) }
{
    rows[fields::ROW * i + fields::FIRST] % fields::BYTE
}

// The variable of row i.
pub fn variable_at(rows: &[u32], i: usize) -> u8
    requires { 4 * i + 3 < length rows.now }
    ensures { result ≡ variable_in (numbers_at rows.now i) }
{
    (rows[fields::ROW * i + fields::FIRST] / fields::VARIABLE % fields::BYTE) as u8
}

// The code of the comparison of row i.
pub fn comparison_at(rows: &[u32], i: usize) -> u32
    requires { 4 * i + 3 < length rows.now }
    ensures { result ≡ comparison_in (numbers_at rows.now i) }
{
    rows[fields::ROW * i + fields::FIRST] / fields::COMPARISON % fields::COMPARISONS
}

// The kind of the limit of row i.
pub fn limit_kind_at(rows: &[u32], i: usize) -> u32
    requires { 4 * i + 3 < length rows.now }
    ensures { result ≡ limit_kind_in (numbers_at rows.now i) }
{
    rows[fields::ROW * i + fields::FIRST] / fields::LIMIT_KIND % fields::KINDS
}

// The kind of the change of row i.
pub fn change_kind_at(rows: &[u32], i: usize) -> u32
    requires { 4 * i + 3 < length rows.now }
    ensures { result ≡ change_kind_in (numbers_at rows.now i) }
{
    rows[fields::ROW * i + fields::FIRST] / fields::CHANGE_KIND % fields::KINDS
}

// The partner of row i: of a row that begins a block the row that closes it, of an `end` the row that begins its block.
pub fn partner_at(rows: &[u32], i: usize) -> usize
    requires { 4 * i + 3 < length rows.now }
    ensures { result ≡ partner_in (numbers_at rows.now i) }
{
    wide(rows[fields::ROW * i + fields::FIRST] / fields::PARTNER)
}

// The second number of row i: what a set takes, a for's start, or the variable that an off watches.
pub fn start_at(rows: &[u32], i: usize) -> u32
    requires { 4 * i + 3 < length rows.now }
    ensures { result ≡ number (numbers_at rows.now i) 1 }
{
    rows[fields::ROW * i + fields::START]
}

// The number of the loop that ends at row i.
pub fn loop_at(rows: &[u32], i: usize) -> usize
    requires { 4 * i + 3 < length rows.now }
    ensures { result ≡ number (numbers_at rows.now i) 1 }
{
    wide(start_at(rows, i))
}

// The third number of row i: the value of its limit.
pub fn limit_value_at(rows: &[u32], i: usize) -> u32
    requires { 4 * i + 3 < length rows.now }
    ensures { result ≡ number (numbers_at rows.now i) 2 }
{
    rows[fields::ROW * i + fields::LIMIT]
}

// The fourth number of row i: that of its change or its cue.
pub fn number_at(rows: &[u32], i: usize) -> u32
    requires { 4 * i + 3 < length rows.now }
    ensures { result ≡ number (numbers_at rows.now i) 3 }
{
    rows[fields::ROW * i + fields::NUMBER]
}

// The variable that an off watches.
pub fn watched_at(rows: &[u32], i: usize) -> u8
    requires { 4 * i + 3 < length rows.now }
    ensures { result ≡ watched_in (numbers_at rows.now i) }
{
    (start_at(rows, i) % fields::BYTE) as u8
}

// Is the limit of row i an expression? One bit of its kind.
pub fn limit_is_expression(rows: &[u32], i: usize) -> bool
    requires { 4 * i + 3 < length rows.now }
    ensures { result ≡ is_expression (limit_in (numbers_at rows.now i)) }
{
    rows[fields::ROW * i + fields::FIRST] / fields::LIMIT_IS_EXPRESSION % fields::BIT == 1
}

// The tag of row i.
pub fn tag_at(rows: &[u32], i: usize) -> Tag
    requires { 4 * i + 3 < length rows.now }
    ensures { result ≡ row_tag (numbers_at rows.now i) }
{
    tag_of(op_at(rows, i))
}

// What a set takes, or a for's start.
pub fn operand_at(rows: &[u32], i: usize) -> Operand
    requires { 4 * i + 3 < length rows.now }
    ensures { result ≡ start_in (numbers_at rows.now i) }
{
    operand(op_at(rows, i) % fields::KINDS, start_at(rows, i))
}

// The limit of row i.
pub fn limit_at(rows: &[u32], i: usize) -> Operand
    requires { 4 * i + 3 < length rows.now }
    ensures { result ≡ limit_in (numbers_at rows.now i) }
{
    operand(limit_kind_at(rows, i), limit_value_at(rows, i))
}

// The change of row i.
pub fn change_at(rows: &[u32], i: usize) -> Change
    requires { 4 * i + 3 < length rows.now }
    ensures { result ≡ step_in (numbers_at rows.now i) }
{
    change(change_kind_at(rows, i), number_at(rows, i))
}

// The kind of row i.
pub fn kind_at(rows: &[u32], i: usize) -> Kind
    requires { 4 * i + 3 < length rows.now }
    ensures { result ≡ kind_at (rows_of rows.now) i }
{
    let v = variable_at(rows, i);
    let c = comparison(comparison_at(rows, i));
    match tag_at(rows, i) {
        Tag::End => Kind::End,
        Tag::Else => Kind::Else,
        Tag::Pick => Kind::Pick,
        Tag::Set => Kind::Set(v, operand_at(rows, i)),
        Tag::Move => Kind::Move(v, change_at(rows, i)),
        Tag::Cue => Kind::Cue(number_at(rows, i)),
        Tag::While => Kind::While(v, c, limit_at(rows, i)),
        Tag::Do => Kind::Do(v, c, limit_at(rows, i)),
        Tag::For => Kind::For(
            v,
            operand_at(rows, i),
            c,
            limit_at(rows, i),
            change_at(rows, i),
        ),
        Tag::Off => Kind::Off(v, watched_at(rows, i), c, constant(limit_value_at(rows, i))),
        Tag::Hold => Kind::Hold(v),
    }
}

// What a walk tells apart: a plain row, a pick, a loop's head, an else or end.
#[derive(Debug, Clone, Copy, PartialEq, Eq)]
pub enum Shape {
    Plain,
    Branch,
    Loop,
    Close,
}

// The shape of row i.
pub fn shape_at(rows: &[u32], i: usize) -> Shape
    requires { 4 * i + 3 < length rows.now }
    ensures { result ≡ shape_of (kind_at (rows_of rows.now) i) }
{
    match tag_at(rows, i) {
        Tag::End | Tag::Else => Shape::Close,
        Tag::Pick => Shape::Branch,
        Tag::While | Tag::Do | Tag::For | Tag::Hold => Shape::Loop,
        Tag::Set | Tag::Move | Tag::Cue | Tag::Off => Shape::Plain,
    }
}

// The row after an else; any other row stays.
pub fn past_else(rows: &[u32], at: usize) -> usize
    requires { 4 * at + 3 < length rows.now }
    ensures { result ≡ past_else (kind_at (rows_of rows.now) at) at }
{
    match tag_at(rows, at) {
        Tag::Else => at + 1,
        _ => at,
    }
}

// Does row i assign its variable: a set, a change, a for's step row or an off?
pub fn assigns(rows: &[u32], i: usize) -> bool
    requires { 4 * i + 3 < length rows.now }
    ensures { Assigns rows.now i result }
{
    matches!(tag_at(rows, i), Tag::Set | Tag::Move | Tag::For | Tag::Off)
}

// A kind and its value, as the table has them.
#[derive(Debug, Clone, Copy, PartialEq, Eq)]
struct OperandCode {
    kind: u32,
    value: u32,
}

// The number that stands for a constant.
fn shifted(k: i32) -> u32
    requires { Near 1 k }
    ensures { constant_in result ≡ k }
{
    (k as i64 + fields::MIDDLE) as u32
}

fn operand_code(x: Operand) -> OperandCode
    requires { FineOperand x }
    ensures { OperandCoded x result }
{
    match x {
        Operand::Constant(k) => OperandCode {
            kind: codes::CONSTANT,
            value: shifted(k),
        },
        Operand::Variable(w) => OperandCode {
            kind: codes::VARIABLE,
            value: w as u32,
        },
        Operand::Expression(at, n) => OperandCode {
            kind: codes::EXPRESSION,
            value: at as u32 * fields::PLACE + n as u32,
        },
    }
}

fn comparison_code(c: Comparison) -> u32
    ensures { ComparisonCoded c result }
{
    match c {
        Comparison::Less => codes::LESS,
        Comparison::AtMost => codes::AT_MOST,
        Comparison::Greater => codes::GREATER,
        Comparison::AtLeast => codes::AT_LEAST,
        Comparison::Equal => codes::EQUAL,
        Comparison::Different => codes::DIFFERENT,
    }
}

fn change_code(d: Change) -> OperandCode
    ensures { ChangeCoded d result }
{
    match d {
        Change::Add(c) => OperandCode {
            kind: codes::ADD,
            value: c,
        },
        Change::Sub(c) => OperandCode {
            kind: codes::SUB,
            value: c,
        },
        Change::Mul(c) => OperandCode {
            kind: codes::MUL,
            value: c,
        },
        Change::Div(c) => OperandCode {
            kind: codes::DIV,
            value: c,
        },
    }
}

// A row's first number, with no partner: op, variable, comparison, the kinds of limit and change.
fn first(op: u32, v: u8, c: u32, limit: u32, change: u32) -> u32
    requires { (op < 256) × (c < 8) × (limit < 4) × (change < 4) }
    ensures { FirstIs op v c limit change result }
{
    op + fields::VARIABLE * v as u32
        + fields::COMPARISON * c
        + fields::LIMIT_KIND * limit
        + fields::CHANGE_KIND * change
}

fn set_row(v: u8, x: Operand) -> [u32; 4]
    requires { FineOperand x }
    ensures { Stands (Kind.Set v x) result }
{
    let s = operand_code(x);
    [
        first(codes::SET_CONSTANT + s.kind, v, 0, 0, 0),
        s.value,
        0,
        0,
    ]
}

fn move_row(v: u8, d: Change) -> [u32; 4]
    ensures { Stands (Kind.Move v d) result }
{
    let m = change_code(d);
    [
        first(codes::MOVE_ADD + m.kind, v, 0, 0, m.kind),
        0,
        0,
        m.value,
    ]
}

// A loop with no step, by its op: a `while`, a `do` or a `hold`.
fn test_row(op: u32, v: u8, c: Comparison, x: Operand) -> [u32; 4]
    requires { (op < 256) × FineOperand x }
    ensures { TestRow op v c x result }
{
    let n = operand_code(x);
    [first(op, v, comparison_code(c), n.kind, 0), 0, n.value, 0]
}

fn for_row(v: u8, x: Operand, c: Comparison, y: Operand, d: Change) -> [u32; 4]
    requires { FineOperand x × FineOperand y }
    ensures { Stands (Kind.For v x c y d) result }
{
    let s = operand_code(x);
    let n = operand_code(y);
    let m = change_code(d);
    let op = codes::FOR_CONSTANT + s.kind;
    [
        first(op, v, comparison_code(c), n.kind, m.kind),
        s.value,
        n.value,
        m.value,
    ]
}

fn off_row(v: u8, w: u8, c: Comparison, k: i32) -> [u32; 4]
    requires { Near 1 k }
    ensures { Stands (Kind.Off v w c k) result }
{
    [
        first(codes::OFF, v, comparison_code(c), 0, 0),
        w as u32,
        shifted(k),
        0,
    ]
}

// The numbers of a row, with no partner. A hold is tested as != 0.
fn row_code(kind: Kind) -> [u32; 4]
    requires { Fine kind }
    ensures { Stands kind result }
{
    match kind {
        Kind::End => [codes::END, 0, 0, 0],
        Kind::Else => [codes::ELSE, 0, 0, 0],
        Kind::Pick => [codes::PICK, 0, 0, 0],
        Kind::Set(v, x) => set_row(v, x),
        Kind::Move(v, d) => move_row(v, d),
        Kind::Cue(n) => [codes::CUE, 0, 0, n],
        Kind::While(v, c, x) => test_row(codes::WHILE, v, c, x),
        Kind::Do(v, c, x) => test_row(codes::DO, v, c, x),
        Kind::For(v, x, c, y, d) => for_row(v, x, c, y, d),
        Kind::Off(v, w, c, k) => off_row(v, w, c, k),
        Kind::Hold(v) => test_row(codes::HOLD, v, Comparison::Different, Operand::Constant(0)),
    }
}

// Row i becomes these numbers.
fn put_numbers(rows: &mut [u32], i: usize, e: [u32; 4])
    requires { 4 * i + 3 < length rows.old }
    ensures { NumbersPut i e rows.old rows.new }
{
    let at = fields::ROW * i;
    rows[at + fields::FIRST] = e[fields::FIRST];
    rows[at + fields::START] = e[fields::START];
    rows[at + fields::LIMIT] = e[fields::LIMIT];
    rows[at + fields::NUMBER] = e[fields::NUMBER];
}

// Row i becomes `kind`, with no partner.
pub fn put_row(rows: &mut [u32], i: usize, kind: Kind)
    requires { (4 * i + 3 < length rows.old) × Fine kind }
    ensures { RowPut i kind rows.old rows.new }
{
    put_numbers(rows, i, row_code(kind));
}

// The blocks that are open: their head rows (after an else, its row), how many loops began before each, the depth, the loops so far.
#[derive(Debug, Clone, Copy, PartialEq, Eq)]
pub struct Open {
    pub heads: [u8; 8],
    pub numbers: [u8; 8],
    pub depth: usize,
    pub loops: u8,
}

// No block is open.
pub const NONE_OPEN: Open = Open {
    heads: [0; 8],
    numbers: [0; 8],
    depth: 0,
    loops: 0,
};

// What a row does to the blocks.
#[derive(Debug, Clone, Copy, PartialEq, Eq)]
enum Role {
    Plain,
    Pick,
    Else,
    End,
    Loop,
}

#[tactic(auto, unfolding(rules::specs::Blocks::view_of, rules::specs::Blocks::kind_of))]
fn role_of(kind: Kind) -> Role
    ensures { result ≡ role_of kind }
{
    match kind {
        Kind::End => Role::End,
        Kind::Else => Role::Else,
        Kind::Pick => Role::Pick,
        Kind::While(..) | Kind::Do(..) | Kind::For(..) | Kind::Hold(_) => Role::Loop,
        Kind::Set(..) | Kind::Move(..) | Kind::Cue(_) | Kind::Off(..) => Role::Plain,
    }
}

impl Open {
    // A block begins at row i, and `loops` loops have begun with it.
    fn pushed(self, i: usize, loops: u8) -> Open
        requires { (self.depth < 8) × (i < 256) }
        ensures { result ≡ pushed_on i loops self }
    {
        let mut heads = self.heads;
        let mut numbers = self.numbers;
        heads[self.depth] = i as u8;
        numbers[self.depth] = self.loops;
        Open {
            heads,
            numbers,
            depth: self.depth + 1,
            loops,
        }
    }

    // The innermost block is closed.
    fn popped(self) -> Open
        requires { 1 ≤ self.depth }
        ensures { result ≡ popped_off self }
    {
        Open {
            depth: self.depth - 1,
            ..self
        }
    }

    // The head row of the innermost block.
    fn innermost(self) -> usize
        requires { (1 ≤ self.depth) × (self.depth ≤ 8) }
        ensures { result ≡ head_of self }
    {
        self.heads[self.depth - 1] as usize
    }

    // How many loops began before the innermost block.
    fn loops_before(self) -> u32
        requires { (1 ≤ self.depth) × (self.depth ≤ 8) }
        ensures { result ≡ number_of self }
    {
        self.numbers[self.depth - 1] as u32
    }
}

// Row h gets the partner i.
fn set_partner(rows: &mut [u32], h: usize, i: usize)
    requires { (4 * h + 3 < length rows.old) × (i < 256) }
    ensures { PartnerPut h i rows.old rows.new }
{
    let at = fields::ROW * h + fields::FIRST;
    rows[at] = rows[at] % fields::PARTNER + fields::PARTNER * i as u32;
}

// The op of the `end` of the block that row h begins.
fn end_op(rows: &[u32], h: usize) -> u32
    requires { 4 * h + 3 < length rows.now }
    ensures { EndsWith (numbers_at rows.now h) result }
{
    match tag_at(rows, h) {
        Tag::While | Tag::Do | Tag::Hold => codes::END_TEST,
        Tag::For => codes::END_FOR,
        _ => codes::END,
    }
}

// The fields of row i between the op and the partner.
fn columns_at(rows: &[u32], i: usize) -> u32
    requires { 4 * i + 3 < length rows.now }
    ensures { result ≡ columns_in (numbers_at rows.now i) }
{
    rows[fields::ROW * i + fields::FIRST] / fields::VARIABLE % fields::COLUMNS
}

// Row i becomes the `end` of the block that row h begins; `number` is the loop's number.
fn put_end(rows: &mut [u32], h: usize, i: usize, number: u32)
    requires { (h < i) × (i < 256) × (4 * i + 3 < length rows.old) }
    ensures { EndPut h i number rows.old rows.new }
{
    let op = end_op(rows, h);
    let columns = columns_at(rows, h);
    let limit = limit_value_at(rows, h);
    let change = number_at(rows, h);
    let w = op + fields::VARIABLE * columns + fields::PARTNER * h as u32;
    put_numbers(rows, i, [w, number, limit, change]);
}

// Row i becomes `kind`, and its block begins or is closed.
pub fn put_next(rows: &mut [u32], i: usize, kind: Kind, blocks: Open) -> Open
    requires { Ready i kind blocks rows.old }
    ensures { NextPut i kind blocks result rows.old rows.new }
{
    let loops = blocks.loops;
    match role_of(kind) {
        Role::Plain => {
            put_row(rows, i, kind);
            blocks
        }
        Role::Pick => {
            put_row(rows, i, kind);
            blocks.pushed(i, loops)
        }
        Role::Else => {
            set_partner(rows, blocks.innermost(), i);
            put_row(rows, i, kind);
            blocks.popped().pushed(i, loops)
        }
        Role::End => {
            let h = blocks.innermost();
            set_partner(rows, h, i);
            put_end(rows, h, i, blocks.loops_before());
            blocks.popped()
        }
        Role::Loop => {
            put_row(rows, i, kind);
            blocks.pushed(i, loops + 1)
        }
    }
}
