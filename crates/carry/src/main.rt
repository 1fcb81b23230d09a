// Carries the document in the file tr of the working directory, by the source table in s1, the target table in s2 and the
// embedding in em. A file that can't be opened counts as empty. Prints `carried`, the length of the image and the number of
// its filler elements, or `refused`, number, document and mark.

#![tactic(auto)]

use carry_entry::carry;
use console::call_on_files;
use lines::{LINE_BYTES, carry_line};
use std::io;

// Carries by the files' contents, and prints the line of the answer.
fn main(rt: HostRuntime) -> io::Result<()> {
    let answer = call_on_files(&rt, carry)?;
    let mut room = [0u8; LINE_BYTES];
    let text = carry_line(&mut room, answer);
    rt.write_all(text)
}
