// Reads the document in the file tr of the working directory along the paths of the embedding in em, from the source table in s1 to
// the target table in s2. A file that can't be opened counts as empty. Prints `read`, the length of the source document and the number
// of target elements, the root aside, on no followed path, or `refused`, number, document and mark.

#![tactic(auto)]

use console::call_on_files;
use lines::{LINE_BYTES, read_line};
use read_entry::read_along;
use std::io;

// Reads by the files' contents, and prints the line of the answer.
fn main(rt: HostRuntime) -> io::Result<()> {
    let answer = call_on_files(&rt, read_along)?;
    let mut room = [0u8; LINE_BYTES];
    let text = read_line(&mut room, answer);
    rt.write_all(text)
}
