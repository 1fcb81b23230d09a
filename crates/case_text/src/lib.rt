// How the program `cases` reads cases, as tools/make-cases writes them, and prints answers.

#![tactic(auto)]

pub use answers_of::{print, print_written};
pub use documents::{Entry, lend_output, next_entry, read_document};

mod answers_of;
mod documents;
mod hexadecimal;
