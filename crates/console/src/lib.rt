// What the programs share: documents from files, and a call of an entry on them.

#![tactic(auto)]

ghost use Rattle.std.specs.Prelude.{◌≡◌, ◌<◌, ◌≤◌, take, length, IfOk, OnErr};
ghost use Rattle.std.specs.Io.KnownBytes.{Consumes, IsAtEnd};
ghost use Rattle.console.specs.Called.{GivenBy};

use answer_numbers::Answer;
use codes::MAX_BYTES;
use std::io::Read;
use std::rt::Files;
use std::{fs, io};

// The room that programs lend for a file, more than the 60,000 bytes of the longest document, so that a longer file is seen to be.
pub const FILE_BYTES: usize = 65536;

// The first n bytes of a buffer, or all where it has fewer.
pub fn front(buffer: &mut [u8], n: usize) -> &mut [u8]
    ensures { result.now ≡ take n buffer.old }
{
    let end = n.min(buffer.len());
    &mut buffer[..end]
}

// Reads until a buffer is full or the input ends, and answers how many bytes it put at the buffer's start: the input's next ones, and
// all that it has left where they are fewer than the buffer has room for. A read that fails leaves the buffer as long as it was, and
// what came before it at its start.
pub fn read_full<R: Read>(input: &mut R, buffer: &mut [u8]) -> io::Result<usize>
    ensures bound { IfOk result (λ n. n ≤ length buffer.new) }
    ensures bytes { IfOk result (λ n. Consumes (R.remaining input.old) (R.remaining input.new) (take n buffer.new)) }
    ensures all { IfOk result (λ n. n < length buffer.new → IsAtEnd (R.remaining input.new)) }
    ensures failed { OnErr result (length buffer.new ≡ length buffer.old) }
{
    let mut done = 0;
    while done < buffer.len() {
        let n = input.read(&mut buffer[done..])?;
        if n == 0 {
            return Ok(done);
        }
        done += n;
    }
    Ok(done)
}

// Reads a file into the start of a buffer and lends the part that was read; it is empty where the file can't be opened.
// A read that fails is the error; the buffer is as long as it was.
pub fn read_file<'a, R: Files>(
    rt: &R,
    name: &str,
    buffer: &'a mut [u8],
) -> io::Result<&'a mut [u8]> {
    let n = match fs::open(rt, name) {
        Ok(mut file) => read_full(&mut file, buffer)?,
        Err(_) => 0,
    };
    Ok(front(buffer, n))
}

// What an entry that writes answers for the source table in the file s1 of the working directory, the target table in s2, the embedding in
// em and the tree in tr, with room for the longest document. A file that can't be opened counts as empty. What files hold is said by no
// contract; that the answer is one that the entry gives for some four documents is.
pub fn call_on_files<
    R: Files,
    F: for<'a> FnOnce(&[u8], &[u8], &'a [u8], &'a [u8], &mut [u8]) -> Answer,
>(rt: &R, entry: F) -> io::Result<Answer>
    requires { F.IsAlwaysCallable entry }
    ensures { IfOk result (λ a. GivenBy F.FnOnce entry a) }
{
    let mut s = [0u8; FILE_BYTES];
    let mut t = [0u8; FILE_BYTES];
    let mut e = [0u8; FILE_BYTES];
    let mut d = [0u8; FILE_BYTES];
    let source = read_file(rt, "s1", &mut s)?;
    let target = read_file(rt, "s2", &mut t)?;
    let embedding = read_file(rt, "em", &mut e)?;
    let tree = read_file(rt, "tr", &mut d)?;
    let mut out = [0u8; MAX_BYTES];
    Ok(entry(source, target, embedding, tree, &mut out))
}
