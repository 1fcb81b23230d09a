// Checks 7 to 9 of an embedding in loaded form, part by part: root to root; and for one edge where its path ends, which kinds its
// steps leave, and whether it agrees with the first one where that is asked. Crate `embedding_checks` asks these of every edge.

#![tactic(auto)]

pub mod agreement;
pub mod ends;
pub mod root;
pub mod steps;
