// Printing an answer: a line, by one write.
ghost use Rattle.std.specs.Prelude.{[], ◌∷◌, ◌+◌, ◌*◌, ◌≤◌, length};
ghost use Rattle.case_text.specs.Hexadecimal.{beside_document, DocumentLine};

use crate::hexadecimal::put_hex;
use answer_numbers::Answer;
use codes::MAX_BYTES;
use lines::{BLANK, LINE_BYTES, LINE_END, answer_line, put_numbers};
use std::io;
use writing::copy;

// The room for a line with a document: `ok`, two numbers, a blank, two digits for each of 60,000 bytes, and the end.
const DOCUMENT_LINE_BYTES: usize = 120046;

// A line for an answer.
pub fn print(rt: &impl Print, a: Answer) -> io::Result<()> {
    let mut room = [0u8; LINE_BYTES];
    let text = answer_line(&mut room, a, b"ok", &[a.value, a.filler]);
    rt.write_all(text)
}

// Makes the line of an answer that accepts, with the document that was written, at the start of lent bytes, and lends it.
fn written_line<'a>(line: &'a mut [u8], a: Answer, document: &[u8]) -> &'a mut [u8]
    requires { 2 * length document.now + beside_document ≤ length line.old }
    ensures { DocumentLine (a.value ∷ a.filler ∷ []) document.now result.now }
{
    let word = copy(b"ok", 0, 2, line, 0);
    let behind = put_numbers(line, word, &[a.value, a.filler]);
    line[behind] = BLANK;
    let end = put_hex(line, behind + 1, document);
    line[end] = LINE_END;
    let n = end + 1;
    &mut line[..n]
}

// A line for an answer of an entry that writes.
pub fn print_written(rt: &impl Print, a: Answer, out: &[u8]) -> io::Result<()> {
    if a.refusal != 0 {
        return print(rt, a);
    }
    let n = (a.value as usize).min(out.len()).min(MAX_BYTES);
    let mut room = [0u8; DOCUMENT_LINE_BYTES];
    let text = written_line(&mut room, a, &out[..n]);
    rt.write_all(text)
}
