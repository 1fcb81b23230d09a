// Runs worked cases through the entries: reads them from standard input, as tools/make-cases writes them, and prints a
// line for each: `ok`, value, filler elements and, where the entry writes, the bytes written in hexadecimal; or `refused`,
// number, document and mark.

#![tactic(auto)]

use answer_numbers::Answer;
use bring_entry::bring_back;
use carry_entry::carry;
use case_text::{Entry, lend_output, next_entry, print, print_written, read_document};
use console::FILE_BYTES;
use judge_entries::{judge_embedding, judge_table, judge_tree};
use std::io;
use std::io::Read;

// A case of judging a table.
fn table_case<R: Read>(rt: &impl Print, input: &mut R) -> io::Result<()> {
    let mut a = [0u8; FILE_BYTES];
    let table = read_document(input, &mut a)?;
    print(rt, judge_table(table))
}

// A case of judging a tree.
fn tree_case<R: Read>(rt: &impl Print, input: &mut R) -> io::Result<()> {
    let mut a = [0u8; FILE_BYTES];
    let mut b = [0u8; FILE_BYTES];
    let table = read_document(input, &mut a)?;
    let tree = read_document(input, &mut b)?;
    print(rt, judge_tree(table, tree))
}

// A case of judging an embedding.
fn embedding_case<R: Read>(rt: &impl Print, input: &mut R) -> io::Result<()> {
    let mut a = [0u8; FILE_BYTES];
    let mut b = [0u8; FILE_BYTES];
    let mut c = [0u8; FILE_BYTES];
    let source = read_document(input, &mut a)?;
    let target = read_document(input, &mut b)?;
    let embedding = read_document(input, &mut c)?;
    print(rt, judge_embedding(source, target, embedding))
}

// A case of an entry that writes.
fn writing_case<R: Read, F: for<'a> FnOnce(&[u8], &[u8], &'a [u8], &'a [u8], &mut [u8]) -> Answer>(
    rt: &impl Print,
    input: &mut R,
    entry: F,
) -> io::Result<()>
    requires { F.IsAlwaysCallable entry }
{
    let mut a = [0u8; FILE_BYTES];
    let mut b = [0u8; FILE_BYTES];
    let mut c = [0u8; FILE_BYTES];
    let mut d = [0u8; FILE_BYTES];
    let mut out = [0u8; FILE_BYTES];
    let source = read_document(input, &mut a)?;
    let target = read_document(input, &mut b)?;
    let embedding = read_document(input, &mut c)?;
    let tree = read_document(input, &mut d)?;
    let output = lend_output(input, &mut out)?;
    let answer = entry(source, target, embedding, tree, output);
    print_written(rt, answer, output)
}

// One case: the documents that its entry takes are read, the entry is called, its answer printed.
fn run<R: Read>(rt: &impl Print, input: &mut R, entry: Entry) -> io::Result<()> {
    match entry {
        Entry::JudgeTable => table_case(rt, input),
        Entry::JudgeEmbedding => embedding_case(rt, input),
        Entry::JudgeTree => tree_case(rt, input),
        Entry::Carry => writing_case(rt, input, carry),
        Entry::BringBack => writing_case(rt, input, bring_back),
    }
}

// The most cases that are run.
const MOST: u32 = 1000;

// All cases.
fn main(rt: HostRuntime) -> io::Result<()> {
    let mut input = rt.reader();
    for _ in 0..MOST {
        let Some(entry) = next_entry(&mut input)? else {
            return Ok(());
        };
        run(&rt, &mut input, entry)?;
    }
    Ok(())
}
