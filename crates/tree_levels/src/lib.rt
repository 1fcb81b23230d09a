// Check 3 of a tree document, its levels, and the number of its elements, each in one pass over its commands.

#![tactic(auto)]

pub mod count;
pub mod levels;
