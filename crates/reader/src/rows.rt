// A row by its words: their questions in order, and the row that they make.
ghost use Rattle.std.specs.Prelude.{◌≡◌, cond, [], ℕ, ◌+◌, ◌≤◌, length, drop};
ghost use Rattle.rules.specs.File.{bare_row, set_row, move_row, off_row, cue_row, while_row, do_row, for_row, hold_row, named_row};
ghost use Rattle.rules.specs.Blocks.{kind_of};
ghost use Rattle.reading.specs.Words.{HasEnd};
ghost use Rattle.reading.specs.Meaning.{Meant};
ghost use Rattle.reader.specs.Rows.{Bare, LineRow, TextRow, RowAt};

use reading::order::{LineQuestion, first_refusal};
use reading::text::{LineWords, line_words, word};
use reading::words::{
    amount, asks_change, asks_comparison, asks_end, asks_expression, asks_number, asks_ordered,
    asks_step, asks_variable, change_of, comparison_of, number_of, operand_of, step_of,
    variable_of,
};
use rules::{Comparison, Kind, Name, Operand, Word};

// A row's line: its row, and the byte of the line's LF.
#[derive(Debug, Clone, Copy)]
pub struct RowLine {
    pub kind: Kind,
    pub end: usize,
}

// `pick`, `else`, `end`
fn bare_row(line: LineWords, kind: Kind) -> Result<RowLine, LineQuestion>
    requires { Bare kind }
    ensures { (vars : ℕ) → LineRow line (λ w x. bare_row vars w x (kind_of [] kind)) result }
{
    asks_end(word(line, 1))?;
    Ok(RowLine {
        kind,
        end: line.end,
    })
}

// `set v0 X`
fn set_row(s: &[u8], line: LineWords, base: usize, vars: u32) -> Result<RowLine, LineQuestion>
    requires { Meant s.now vars line × (base + length s.now ≤ 16_384) }
    ensures { TextRow s.now base line (set_row vars) result }
{
    let v = word(line, 1);
    let last = first_refusal(asks_expression(s, line, 2, vars), asks_end(word(line, 3)));
    first_refusal(asks_variable(vars, v), last)?;
    let kind = Kind::Set(variable_of(v), operand_of(base, line, 2));
    Ok(RowLine {
        kind,
        end: line.end,
    })
}

// `add v0 C`, `sub v0 C`, `mul v0 C`, `div v0 C`
fn move_row(line: LineWords, vars: u32, name: Name) -> Result<RowLine, LineQuestion>
    requires { vars ≤ 16 }
    ensures { LineRow line (λ w x. move_row vars w x name) result }
{
    let v = word(line, 1);
    let x = word(line, 2);
    let last = first_refusal(asks_change(name, x), asks_end(word(line, 3)));
    first_refusal(asks_variable(vars, v), last)?;
    let kind = Kind::Move(variable_of(v), change_of(name, x));
    Ok(RowLine {
        kind,
        end: line.end,
    })
}

// `off v0 v1 > C`
fn off_row(line: LineWords, vars: u32) -> Result<RowLine, LineQuestion>
    requires { vars ≤ 16 }
    ensures { LineRow line (off_row vars) result }
{
    let v = word(line, 1);
    let w = word(line, 2);
    let o = word(line, 3);
    let k = word(line, 4);
    let number = asks_number(-1_000_000_000, 1_000_000_000, k);
    let last = first_refusal(number, asks_end(word(line, 5)));
    let test = first_refusal(asks_ordered(o), last);
    let rest = first_refusal(asks_variable(vars, w), test);
    first_refusal(asks_variable(vars, v), rest)?;
    let kind = Kind::Off(
        variable_of(v),
        variable_of(w),
        comparison_of(o),
        number_of(k),
    );
    Ok(RowLine {
        kind,
        end: line.end,
    })
}

// `cue N`
fn cue_row(line: LineWords) -> Result<RowLine, LineQuestion>
    ensures { (vars : ℕ) → LineRow line (cue_row vars) result }
{
    let n = word(line, 1);
    first_refusal(asks_number(0, 9_999, n), asks_end(word(line, 2)))?;
    let kind = Kind::Cue(amount(n));
    Ok(RowLine {
        kind,
        end: line.end,
    })
}

// A loop with a test, asked before each turn or after.
fn test(after: bool, v: u8, c: Comparison, x: Operand) -> Kind
    ensures { result ≡ cond after (Kind.Do v c x) (Kind.While v c x) }
{
    if after {
        Kind::Do(v, c, x)
    } else {
        Kind::While(v, c, x)
    }
}

// `while v0 <= X`, `do v0 <= X`
fn test_row(
    s: &[u8],
    line: LineWords,
    base: usize,
    vars: u32,
    after: bool,
) -> Result<RowLine, LineQuestion>
    requires { Meant s.now vars line × (base + length s.now ≤ 16_384) }
    ensures { TextRow s.now base line (λ w x. cond after (do_row vars w x) (while_row vars w x)) result }
{
    let v = word(line, 1);
    let o = word(line, 2);
    let last = first_refusal(asks_expression(s, line, 3, vars), asks_end(word(line, 4)));
    let rest = first_refusal(asks_comparison(o), last);
    first_refusal(asks_variable(vars, v), rest)?;
    let limit = operand_of(base, line, 3);
    let kind = test(after, variable_of(v), comparison_of(o), limit);
    Ok(RowLine {
        kind,
        end: line.end,
    })
}

// `for v0 X <= Y add C`
fn for_row(s: &[u8], line: LineWords, base: usize, vars: u32) -> Result<RowLine, LineQuestion>
    requires { Meant s.now vars line × (base + length s.now ≤ 16_384) }
    ensures { TextRow s.now base line (for_row vars) result }
{
    let v = word(line, 1);
    let o = word(line, 3);
    let n = word(line, 5);
    let z = word(line, 6);
    let last = first_refusal(asks_step(n, z), asks_end(word(line, 7)));
    let limit = first_refusal(asks_expression(s, line, 4, vars), last);
    let test = first_refusal(asks_comparison(o), limit);
    let rest = first_refusal(asks_expression(s, line, 2, vars), test);
    first_refusal(asks_variable(vars, v), rest)?;
    let start = operand_of(base, line, 2);
    let limit = operand_of(base, line, 4);
    let step = step_of(n, z);
    let kind = Kind::For(variable_of(v), start, comparison_of(o), limit, step);
    Ok(RowLine {
        kind,
        end: line.end,
    })
}

// `hold v0`
fn hold_row(line: LineWords, vars: u32) -> Result<RowLine, LineQuestion>
    requires { vars ≤ 16 }
    ensures { LineRow line (hold_row vars) result }
{
    let v = word(line, 1);
    first_refusal(asks_variable(vars, v), asks_end(word(line, 2)))?;
    let kind = Kind::Hold(variable_of(v));
    Ok(RowLine {
        kind,
        end: line.end,
    })
}

// By the first word.
fn named_row(
    s: &[u8],
    line: LineWords,
    base: usize,
    vars: u32,
    name: Name,
) -> Result<RowLine, LineQuestion>
    requires { Meant s.now vars line × (base + length s.now ≤ 16_384) }
    ensures { TextRow s.now base line (λ w x. named_row vars w x name) result }
{
    match name {
        Name::Set => set_row(s, line, base, vars),
        Name::Add | Name::Sub | Name::Mul | Name::Div => move_row(line, vars, name),
        Name::Cue => cue_row(line),
        Name::Pick => bare_row(line, Kind::Pick),
        Name::Else => bare_row(line, Kind::Else),
        Name::End => bare_row(line, Kind::End),
        Name::While => test_row(s, line, base, vars, false),
        Name::Do => test_row(s, line, base, vars, true),
        Name::For => for_row(s, line, base, vars),
        Name::Off => off_row(line, vars),
        Name::Hold => hold_row(line, vars),
    }
}

// The row whose first word begins after the byte `at`, or its first question that has no. The text s begins at the file's byte `base`.
pub fn row_of(s: &[u8], at: usize, base: usize, vars: u32) -> Result<RowLine, LineQuestion>
    requires { HasEnd (drop at s.now) × (vars ≤ 16) × (base + length s.now ≤ 16_384) }
    ensures { RowAt s.now at base vars result }
{
    let line = line_words(s, at);
    match word(line, 0) {
        Word::Keyword(n) => named_row(s, line, base, vars, n),
        _ => Err(LineQuestion::Shape),
    }
}
