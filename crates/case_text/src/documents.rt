// Documents of a case.
use console::{front, read_full};
use std::io;
use std::io::Read;

// What a case asks for.
#[derive(Clone, Copy, Debug, PartialEq, Eq)]
pub enum Entry {
    JudgeTable,
    JudgeEmbedding,
    JudgeTree,
    Carry,
    BringBack,
}

// The entry by its number in the input, 5 or more to bring back; 0 ends the cases.
fn entry_of(number: u8) -> Option<Entry> {
    match number {
        0 => None,
        1 => Some(Entry::JudgeTable),
        2 => Some(Entry::JudgeEmbedding),
        3 => Some(Entry::JudgeTree),
        4 => Some(Entry::Carry),
        _ => Some(Entry::BringBack),
    }
}

// The next case's entry, if there is one more case.
pub fn next_entry<R: Read>(input: &mut R) -> io::Result<Option<Entry>> {
    let mut number = [0u8; 1];
    if read_full(input, &mut number)? == 0 {
        return Ok(None);
    }
    Ok(entry_of(number[0]))
}

// Reads a length of three bytes, the highest first.
fn read_length<R: Read>(input: &mut R) -> io::Result<usize> {
    let mut bytes = [0u8; 4];
    read_full(input, &mut bytes[1..])?;
    Ok(u32::from_be_bytes(bytes) as usize)
}

// Reads how long an output is lent, and lends so much of a buffer, at most all of it.
pub fn lend_output<'a, R: Read>(input: &mut R, buffer: &'a mut [u8]) -> io::Result<&'a mut [u8]> {
    let told = read_length(input)?;
    Ok(front(buffer, told))
}

// Reads a document, three bytes of length and then its bytes, into the start of a buffer, and lends that part; a document
// that is longer than the buffer counts as empty.
pub fn read_document<'a, R: Read>(input: &mut R, buffer: &'a mut [u8]) -> io::Result<&'a mut [u8]> {
    let told = read_length(input)?;
    if buffer.len() < told {
        return Ok(front(buffer, 0));
    }
    let document = front(buffer, told);
    read_full(input, document)?;
    Ok(document)
}
