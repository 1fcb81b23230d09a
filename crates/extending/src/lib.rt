// A document of operations carried out on a loaded table, and the report of it (paper 02, N8). The definitions are in the model's
// Extending.antt.

#![tactic(auto)]

ghost use Rattle.std.specs.Prelude.{◌≡◌, List, [], ◌∷◌, ◌+◌, ◌*◌, ◌≤◌, ◌<◌, length, take};
ghost use Rattle.answers.specs.Answers.{counted_result};
ghost use Rattle.answer_numbers.specs.Numbers.{Answers};
ghost use Rattle.loaded_table.specs.Loaded.{types_in, table_by};
ghost use Rattle.model.specs.Definitions.Entries.{Result};
ghost use Rattle.model.specs.Definitions.Extending as model;
ghost use Rattle.model.specs.Definitions.Extending.{answer_bytes, kept_bytes, performed, reported};
ghost use Rattle.model.specs.Definitions.Refusals.{max_length};
ghost use Rattle.table_growth.specs.Growth.{IsLoaded};
ghost use Rattle.table_operations.specs.Operations.{held, StandsFor};
ghost use Rattle.writing.specs.Writing.{Writes};
ghost use Rattle.extending.specs.Extending.{ReadAt, TurnAt, Small, Reports};

use answer_numbers::Answer;
use answers::{Document, Fault, Refusal};
use codes::{APPEND_MEMBER, APPEND_TYPE, MAX_BYTES};
use loaded_table::{TABLE, fill, height, types};
use table_operations::Table;
use writing::copy;

// The bytes of an operation without those of a type's commands.
const TYPE_HEAD: usize = 2;

const MEMBER_BYTES: usize = 3;

// The bytes that the report has of an operation, and of a type.
const ANSWER_BYTES: usize = 2;

const KEPT_BYTES: usize = 3;

// The room that a report needs at most: the number of types, what is kept with 64, and the answers to as many operations as a document
// can have.
pub const REPORT_BYTES: usize = 60193;

// ---- operations read

// An operation: a type by so many bytes behind its head, or a member of a type.
#[derive(Clone, Copy, Debug, PartialEq, Eq)]
pub enum Operation {
    NewType(usize),
    NewMember(usize, usize),
}

// The operation that stands at an offset, if one can be read.
fn operation_at(ops: &[u8], at: usize) -> Option<Operation>
    requires { at < length ops.now }
    ensures { ReadAt ops.now at result }
{
    let left = ops.len() - at;
    let b = ops[at];
    if b == APPEND_TYPE && 1 < left {
        let n = usize::from(ops[at + 1]);
        if n + TYPE_HEAD <= left {
            return Some(Operation::NewType(n));
        }
        return None;
    }
    if b == APPEND_MEMBER && 2 < left {
        let t = usize::from(ops[at + 1]);
        let m = usize::from(ops[at + 2]);
        return Some(Operation::NewMember(t, m));
    }
    None
}

// ---- carried out

// A turn: the answer, the table then, and how many bytes the operation takes.
#[derive(Drop)]
pub struct Turn {
    pub answer: Result<usize, Refusal>,
    pub table: Table,
    pub width: usize,
}

// Carries out the operation that stands at an offset, if one can be read.
fn perform(table: Table, ops: &[u8], at: usize) -> Option<Turn>
    requires { StandsFor table (held table) × (at < length ops.now) }
    ensures { TurnAt ops.now at table result }
{
    match operation_at(ops, at)? {
        Operation::NewType(n) => {
            let from = at + TYPE_HEAD;
            let to = from + n;
            let r = table.append_type(&ops[from..to]);
            Some(Turn {
                answer: r.answer,
                table: r.table,
                width: n + TYPE_HEAD,
            })
        }
        Operation::NewMember(t, m) => {
            let r = table.append_member(t, m);
            Some(Turn {
                answer: r.answer,
                table: r.table,
                width: MEMBER_BYTES,
            })
        }
    }
}

// Stores the answer to an operation.
fn put_answer(answers: &mut [u8; MAX_BYTES], at: usize, e: Result<usize, Refusal>)
    requires { (at + 2 ≤ max_length) × Small e }
    ensures { Writes answers.old answers.new at (answer_bytes (counted_result e ∷ [])) (at + 2) }
{
    let a = Answer::from(e);
    answers[at] = a.refusal as u8;
    let second = at + 1;
    answers[second] = a.value as u8;
}

// ---- the report

// Writes what is kept with each type: the offset behind it.
fn put_kept(numbers: &[u16; TABLE], out: &mut [u8]) -> usize
    requires { IsLoaded numbers.now × (1 + 3 * types_in numbers.now ≤ length out.old) }
    ensures { Writes out.old out.new 1 (kept_bytes (table_by numbers.now) 0 (types_in numbers.now)) result }
{
    let mut at = 1;
    for t in 0..types(numbers) {
        let length = fill(numbers, t);
        let second = at + 1;
        let third = at + 2;
        out[at] = height(numbers, t) as u8;
        out[second] = (length / 256) as u8;
        out[third] = (length % 256) as u8;
        at += KEPT_BYTES;
    }
    at
}

// Writes the report of the answers so far, if there is room: its length.
fn write_report(
    table: Table,
    answers: &[u8],
    filled: usize,
    out: &mut [u8],
) -> Result<usize, Refusal>
    requires { StandsFor table (held table) × (filled ≤ length answers.now) }
    ensures { (rs : List Result) → answer_bytes rs ≡ take filled answers.now → Reports (reported out.old (performed rs (held table))) out.new result }
{
    let numbers = table.numbers;
    let all = types(&numbers);
    let needed = 1 + KEPT_BYTES * all + filled;
    if out.len() < needed {
        return Err(Refusal::OutputTooShort);
    }
    out[0] = all as u8;
    let behind = put_kept(&numbers, out);
    copy(answers, 0, filled, out, behind);
    Ok(needed)
}

// Carries out all operations and writes the report: its length.
fn run(loaded: Table, ops: &[u8], out: &mut [u8]) -> Result<usize, Refusal>
    requires { StandsFor loaded (held loaded) × (length ops.now ≤ max_length) }
    ensures { Reports (reported out.old (model.perform ops.now (held loaded))) out.new result }
{
    let mut answers = [0u8; MAX_BYTES];
    let mut table = loaded;
    let mut at = 0;
    let mut filled = 0;
    while at < ops.len() {
        let Some(turn) = perform(table, ops, at) else {
            return Err(Refusal::Faulty(Document::Operations, Fault::BadForm(at)));
        };
        let width = turn.width;
        let answer = turn.answer;
        let after = turn.table;
        put_answer(&mut answers, filled, answer);
        table = after;
        at += width;
        filled += ANSWER_BYTES;
    }
    write_report(table, &answers, filled, out)
}

// Extends a table by the operations of a document: the length of the report, or why there is none.
fn extended(table: &[u8], ops: &[u8], out: &mut [u8]) -> Result<usize, Refusal>
    ensures { Reports (model.extend table.now ops.now out.old) out.new result }
{
    let loaded = match Table::load(table) {
        Ok(loaded) => loaded,
        Err(f) => return Err(Refusal::Faulty(Document::SourceTable, f)),
    };
    if MAX_BYTES < ops.len() {
        return Err(Refusal::Faulty(Document::Operations, Fault::TooLong));
    }
    run(loaded, ops, out)
}

// The same as an answer of five numbers.
pub fn extend(table: &[u8], ops: &[u8], out: &mut [u8]) -> Answer
    ensures { Answers (model.extend table.now ops.now out.old) out.new result }
{
    Answer::from(extended(table, ops, out))
}
