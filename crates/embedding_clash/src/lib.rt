// Paths of an embedding in loaded form as values, following one through a target table, and check 10 for one edge: whether
// its path clashes with an earlier one of its source type. Steps that exist, their number and the target types' numbers
// were checked before (specs/Ready.antt).

#![tactic(auto)]

pub mod clash;
pub mod path;
pub mod walk;
