// The lines that programs print, made before they are printed, so that each is printed whole.

#![tactic(auto)]

ghost use Rattle.std.specs.Prelude.{◌+◌, ◌*◌, ◌≤◌, length};
ghost use Rattle.model.specs.Definitions.Lines.{Line, AnswerLine, CarryLine, BringLine, ReadLine, OperationLine, KeptLine};
ghost use Rattle.answer_numbers.specs.Numbers.{numbers};
ghost use Rattle.lines.specs.Lines.{number_bytes, most_word, most_numbers, line_bytes, WritesNumbers};

use answer_numbers::Answer;
use decimal::{decimal, put_decimal};
use writing::copy;

// What stands before a number, and what ends a line.
pub const BLANK: u8 = b' ';

pub const LINE_END: u8 = b'\n';

// The room that the line of an answer needs at most.
pub const LINE_BYTES: usize = 80;

// Writes a blank and the decimal form for each of some numbers.
pub fn put_numbers(out: &mut [u8], at: usize, values: &[u64]) -> usize
    requires { at + number_bytes * length values.now ≤ length out.old }
    ensures { WritesNumbers values.now out.old out.new at result }
{
    let mut next = at;
    for value in values {
        out[next] = BLANK;
        next = put_decimal(out, next + 1, *value);
    }
    next
}

// Makes a line, of a word and numbers, at the start of lent bytes, and lends it.
fn line<'a>(out: &'a mut [u8], word: &[u8], values: &[u64]) -> &'a mut [u8]
    requires { length word.now + number_bytes * length values.now + 1 ≤ length out.old }
    ensures { Line word.now values.now result.now }
{
    let behind = copy(word, 0, word.len(), out, 0);
    let next = put_numbers(out, behind, values);
    out[next] = LINE_END;
    let n = next + 1;
    &mut out[..n]
}

// Makes the line of an answer: where it accepts, of a word and numbers; else of its refusal.
pub fn answer_line<'a>(out: &'a mut [u8], a: Answer, word: &[u8], values: &[u64]) -> &'a mut [u8]
    requires { (length word.now ≤ most_word) × (length values.now ≤ most_numbers) × (line_bytes ≤ length out.old) }
    ensures { AnswerLine word.now values.now (numbers a) result.now }
{
    if a.refusal == 0 {
        line(out, word, values)
    } else {
        line(out, b"refused", &[a.refusal, a.document, a.mark])
    }
}

// Makes the line of the program `carry` for an answer.
pub fn carry_line(out: &mut [u8], a: Answer) -> &mut [u8]
    requires { line_bytes ≤ length out.old }
    ensures { CarryLine (numbers a) result.now }
{
    answer_line(out, a, b"carried", &[a.value, a.filler])
}

// Makes the line of the program `bring` for an answer.
pub fn bring_line(out: &mut [u8], a: Answer) -> &mut [u8]
    requires { line_bytes ≤ length out.old }
    ensures { BringLine (numbers a) result.now }
{
    answer_line(out, a, b"brought", &[a.value])
}

// Makes the line of the program `read` for an answer.
pub fn read_line(out: &mut [u8], a: Answer) -> &mut [u8]
    requires { line_bytes ≤ length out.old }
    ensures { ReadLine (numbers a) result.now }
{
    answer_line(out, a, b"read", &[a.value, a.filler])
}

// Makes the line of the program `extend` for the answer to an operation.
pub fn operation_line(out: &mut [u8], a: Answer) -> &mut [u8]
    requires { line_bytes ≤ length out.old }
    ensures { OperationLine (numbers a) result.now }
{
    answer_line(out, a, b"types", &[a.value])
}

// Makes its line for a type, by the type's height and its filler's length.
pub fn kept_line(out: &mut [u8], height: u64, fill: u64) -> &mut [u8]
    requires { line_bytes ≤ length out.old }
    ensures { KeptLine height fill result.now }
{
    let text = decimal(height);
    let digits = text.digits();
    line(out, digits, &[fill])
}
