// Extends the table in the file s1 of the working directory by the operations in the file op. A file that can't be opened counts as empty.
// Prints a line for each operation, `types` and the number of types, or `refused`, number, document and mark; then for each type a line
// with its height and the byte length of its filler, held at 60,001. Where a document is refused, prints one line for that.

#![tactic(auto)]

use answer_numbers::Answer;
use codes::SOURCE_TABLE;
use console::{FILE_BYTES, front, read_file};
use extending::REPORT_BYTES;
use lines::{LINE_BYTES, kept_line, operation_line};
use std::io;

// The bytes that a report has of an operation, and of a type.
const ANSWER_BYTES: usize = 2;

const KEPT_BYTES: usize = 3;

// Prints the line of an answer.
fn print(rt: &impl Print, a: Answer) -> io::Result<()> {
    let mut room = [0u8; LINE_BYTES];
    let text = operation_line(&mut room, a);
    rt.write_all(text)
}

// The answer to an operation, by its two bytes of a report.
fn answer(refusal: u8, types: u8) -> Answer {
    Answer {
        refusal: u64::from(refusal),
        document: if refusal == 0 { 0 } else { SOURCE_TABLE },
        mark: 0,
        value: u64::from(types),
        filler: 0,
    }
}

// Prints a line for each operation, of the bytes that have their answers.
fn print_answers(rt: &impl Print, answers: &[u8]) -> io::Result<()> {
    for of_one in answers.chunks_exact(ANSWER_BYTES) {
        print(rt, answer(of_one[0], of_one[1]))?;
    }
    Ok(())
}

// Prints the line of a type, by its height and the two bytes of its filler's length.
fn print_type(rt: &impl Print, height: u8, fill: [u8; 2]) -> io::Result<()> {
    let mut room = [0u8; LINE_BYTES];
    let text = kept_line(
        &mut room,
        u64::from(height),
        u64::from(u16::from_be_bytes(fill)),
    );
    rt.write_all(text)
}

// Prints a line for each type, of the bytes that have what is kept with them.
fn print_types(rt: &impl Print, kept: &[u8]) -> io::Result<()> {
    for of_one in kept.chunks_exact(KEPT_BYTES) {
        print_type(rt, of_one[0], [of_one[1], of_one[2]])?;
    }
    Ok(())
}

// Prints what a report says: its first byte is the number of types, behind which stands what is kept with each, and then the answers.
fn print_report(rt: &impl Print, report: &[u8]) -> io::Result<()> {
    let Some((types, rest)) = report.split_first() else {
        return Ok(());
    };
    let end = (KEPT_BYTES * usize::from(*types)).min(rest.len());
    let (kept, answers) = rest.split_at(end);
    print_answers(rt, answers)?;
    print_types(rt, kept)
}

// Extends by the files' contents, and prints.
fn main(rt: HostRuntime) -> io::Result<()> {
    let mut s = [0u8; FILE_BYTES];
    let mut o = [0u8; FILE_BYTES];
    let table = read_file(&rt, "s1", &mut s)?;
    let operations = read_file(&rt, "op", &mut o)?;
    let mut out = [0u8; REPORT_BYTES];
    let a = extending::extend(table, operations, &mut out);
    if 0 < a.refusal {
        return print(&rt, a);
    }
    let report = front(&mut out, a.value as usize);
    print_report(&rt, report)
}
