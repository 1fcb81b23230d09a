// Brings back the document in the file tr of the working directory, an image by the source table in s1, the target table in
// s2 and the embedding in em. A file that can't be opened counts as empty. Prints `brought` and the length of the source
// document, or `refused`, number, document and mark.

#![tactic(auto)]

use bring_entry::bring_back;
use console::call_on_files;
use lines::{LINE_BYTES, bring_line};
use std::io;

// Brings back by the files' contents, and prints the line of the answer.
fn main(rt: HostRuntime) -> io::Result<()> {
    let answer = call_on_files(&rt, bring_back)?;
    let mut room = [0u8; LINE_BYTES];
    let text = bring_line(&mut room, answer);
    rt.write_all(text)
}
